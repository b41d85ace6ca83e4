ghost use Rattle.std.specs.Prelude.{◌≡◌, ◌<◌, ◌≤◌, ◌∷◌, ◌++◌, [], false, length, max, vec_capacity, IfOk, IfSome};
ghost use Rattle.std.specs.Prelude.{IfNone};
ghost use Rattle.rbc_spec.specs.Frame.{Frame};
ghost use Rattle.rbc_board.specs.InStep.{found, Mem};
ghost use Rattle.rbc_board.specs.Ties.{IsTied};

use crate::carrier::Carrier;
use crate::rule::{Agreed, Both, InStep, Puts, Second, Takes};
use crate::view::View;
use crossbeam_queue::{Pass, RuledArrayQueue};
use rbc_linkmsg::Frame;
use std::alloc::{AllocError, Global};
use std::sync::Wait;

/// The greatest number of frames in a link's queue, and of those that one call takes out of it. No clause states the
/// second.
const ROOM: usize = 64;

/// A bounded queue of frames for one directed link, in the order of their numbers.
#[derive(Drop)]
pub struct QueueCarrier<R: Wait + Drop> {
    rt: R,
    queue: RuledArrayQueue<Frame, View, InStep>,
}

/// The frames of the link that one of the two callers knows: one puts, and the other gets.
#[derive(Drop)]
pub struct QueueSeen {
    pass: Pass<Frame, View>,
    /// This is the caller that puts.
    puts: bool,
    /// No frame that is known has a greater number. Of the caller that puts it is the number that was put last.
    last: u32,
    known: Vec<Frame>,
}

impl QueueSeen {
    fn new(alloc: Global, pass: Pass<Frame, View>, puts: bool) -> QueueSeen
        ensures { (result.pass ≡ pass) × (result.puts ≡ puts) × (result.last ≡ 0) × (result.known.items ≡ []) }
    {
        QueueSeen {
            pass,
            puts,
            last: 0,
            known: Vec::new(alloc),
        }
    }

    // The frame that is known under a number.
    fn find(&self, number: u32) -> Option<Frame>
        requires { (f : Frame) → Mem f self.now.known.items → f.number ≤ self.now.last }
        ensures { result ≡ found number self.now.known.items }
    {
        if number > self.last {
            return None;
        }
        self.known
            .iter()
            .find(|frame| frame.number() == number)
            .copied()
    }

    // Notes a frame, for which there is room.
    fn note(&mut self, frame: Frame)
        requires { length self.old.known.items < vec_capacity self.old.known }
        ensures known { self.new.known.items ≡ self.old.known.items ++ frame ∷ [] }
        ensures last { self.new.last ≡ max self.old.last frame.number }
        ensures rest { (self.new.pass ≡ self.old.pass) × (self.new.puts ≡ self.old.puts) }
    {
        self.known.push_reserved(frame);
        self.last = self.last.max(frame.number());
    }
}

impl<R: Wait + Drop> QueueCarrier<R> {
    /// An empty queue for one directed link, and the notes of its two callers: only the first puts, and only the second
    /// gets.
    pub fn new(rt: R, alloc: Global) -> Result<(QueueCarrier<R>, QueueSeen, QueueSeen), AllocError>
        ensures { IfOk result (λ r. IsTied r.0.queue r.1 × IsTied r.0.queue r.2) }
    {
        let (queue, mut first) = RuledArrayQueue::<Frame, View, InStep>::ruled(alloc, ROOM)?;
        let second = queue.another::<Second>(&mut first);
        let writer = QueueSeen::new(alloc, first, true);
        let reader = QueueSeen::new(alloc, second, false);
        Ok((QueueCarrier { rt, queue }, writer, reader))
    }

    // Takes the first frame out of the queue, and notes it. `None` if the queue is empty or memory runs out; then no
    // frame is taken.
    fn take_one(&self, seen: &mut QueueSeen) -> Option<Frame>
        requires tied { IsTied self.now.queue seen.old }
        requires reader { seen.old.puts ≡ false }
        ensures link { IsTied self.now.queue seen.new }
        ensures reader { seen.new.puts ≡ false }
        ensures some { IfSome result (λ f. seen.new.known.items ≡ seen.old.known.items ++ f ∷ []) }
        ensures none { IfNone result (seen.new.known.items ≡ seen.old.known.items) }
    {
        if seen.known.reserve(1).is_err() {
            return None;
        }
        match self.queue.pop_as::<Takes, R>(&self.rt, &mut seen.pass) {
            None => None,
            Some(taken) => {
                seen.note(taken);
                Some(taken)
            }
        }
    }
}

impl<R: Wait + Drop> Carrier for QueueCarrier<R> {
    type Seen = QueueSeen;

    ghost is_of = { λ c s. IsTied c.queue s };

    ghost known = { λ s n. found n s.known.items };

    fn put(&self, seen: &mut QueueSeen, number: u32, frame: Frame) -> Result<(), Frame> {
        if !seen.puts || frame.number() != number || number - 1 != seen.last {
            return Err(frame);
        }
        if seen.known.reserve(1).is_err() {
            return Err(frame);
        }
        match self
            .queue
            .push_as::<Puts, R>(&self.rt, &mut seen.pass, frame)
        {
            Ok(()) => {
                seen.note(frame);
                Ok(())
            }
            Err(frame) => Err(frame),
        }
    }

    fn get(&self, seen: &mut QueueSeen, number: u32) -> Option<Frame> {
        if let Some(frame) = seen.find(number) {
            return Some(frame);
        }
        if seen.puts {
            return None;
        }
        for _ in 0..ROOM {
            let frame = self.take_one(seen)?;
            if frame.number() == number {
                return Some(frame);
            }
        }
        None
    }

    fn compare(&self, mine: &mut QueueSeen, other: QueueSeen, _number: u32) {
        let QueueSeen { pass, .. } = other;
        self.queue.absorb::<Both>(&mut mine.pass, pass);
        self.queue.learn_as::<Agreed>(&mut mine.pass);
    }
}
