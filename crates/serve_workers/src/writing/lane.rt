ghost use Rattle.std.specs.Prelude.{◌≡◌, ◌≢◌, ◌↔◌, ◌+◌, ◌<◌, ◌≤◌, [], length, All, HoldsAt, is_some, None, Some};
ghost use Rattle.std.specs.Prelude.{filter, if◌then◌else◌, IsTrue, OnOk, OnErr, IfSome, IfNone};
ghost use Rattle.serve_workers.specs.Writing.Lane.{early_after, ended_by, is_due, is_served_by, IsTurn, kept};
ghost use Rattle.serve_workers.specs.Writing.Lane.{serving_after, turn_after, without};

use crate::writing::reply::Reply;
use std::alloc::Global;

/// The most replies that wait for their turn. There is room for one more if its turn has come.
const MOST_EARLY: usize = 1_024;

/// The lane of a train at a centre: the order of the centre's replies to the train, and the connection that serves it.
/// The threads that committed the events may submit the replies in another order. A centre counts its messages to a
/// train (T_TRAIN), so each reply has its turn, and waits for it.
#[derive(Drop)]
pub struct Lane {
    // T_TRAIN of the reply whose turn it is.
    next: u32,
    // The replies that were submitted before their turn.
    early: Vec<Reply>,
    // The number of the connection that serves the train.
    serving: Option<usize>,
}

/// A reply can't wait for its turn: too many wait, or memory ran out.
#[derive(Clone, Copy, Debug, PartialEq, Eq)]
pub struct NoRoom;

/// The effect of a submitted reply.
#[derive(Clone, Copy, Debug)]
pub struct Said {
    /// The connection that ends, if one does: another one serves the train.
    pub ended: Option<usize>,
    /// Whether there was room for the reply.
    pub taken: Result<(), NoRoom>,
}

impl Lane {
    /// The lane before the first message of a centre to a train. Nothing waits, no connection serves the train, and the
    /// first turn is 1.
    pub fn new(alloc: Global) -> Lane
        ensures turn { result.next ≡ 1 }
        ensures early { result.early.items ≡ [] }
        ensures serving { result.serving ≡ None }
    {
        Lane {
            next: 1,
            early: Vec::new(alloc),
            serving: None,
        }
    }

    /// Submits a reply, which waits for its turn. A reply whose turn is over is dropped. `begins` is the connection
    /// whose initiation it answers, if it answers one. Unless that connection serves the train already, it serves the
    /// train from this reply on, and the one before it ends. If a later session has begun, it ends itself.
    pub fn say(&mut self, begins: Option<usize>, reply: Reply) -> Said
        ensures turn { self.new.next ≡ turn_after begins reply.message.t_train self.old.next self.old.serving }
        ensures serving { self.new.serving
            ≡ serving_after begins reply.message.t_train self.old.next self.old.serving }
        ensures ended { result.ended ≡ ended_by begins reply.message.t_train self.old.next self.old.serving }
        ensures taken { OnOk result.taken (self.new.early.items
            ≡ kept (turn_after begins reply.message.t_train self.old.next self.old.serving) reply
            (early_after begins reply.message.t_train self.old.next self.old.serving self.old.early.items)) }
        ensures refused { OnErr result.taken (self.new.early.items
            ≡ early_after begins reply.message.t_train self.old.next self.old.serving self.old.early.items) }
        ensures bound { length self.old.early.items ≤ MOST_EARLY + 1 → length self.new.early.items ≤ MOST_EARLY + 1 }
    {
        let ended = self.begin(begins, reply.message().t_train());
        let taken = self.submit(reply);
        Said { ended, taken }
    }

    // An initiation over the connection `begins`, whose answer has this T_TRAIN. The result is the connection that
    // ends.
    fn begin(&mut self, begins: Option<usize>, t_train: u32) -> Option<usize>
        ensures turn { self.new.next ≡ turn_after begins t_train self.old.next self.old.serving }
        ensures serving { self.new.serving ≡ serving_after begins t_train self.old.next self.old.serving }
        ensures ended { result ≡ ended_by begins t_train self.old.next self.old.serving }
        ensures early { self.new.early.items
            ≡ early_after begins t_train self.old.next self.old.serving self.old.early.items }
        ensures bound { length self.new.early.items ≤ length self.old.early.items }
    {
        let number = begins?;
        if self.serves(number) {
            return None;
        }
        if self.is_over(t_train) {
            return Some(number);
        }
        self.go_on_from(number, t_train)
    }

    // From now on the connection serves the train, from this T_TRAIN on. The replies before it are dropped. The result
    // is the connection that served the train before.
    fn go_on_from(&mut self, number: usize, t_train: u32) -> Option<usize>
        ensures turn { self.new.next ≡ t_train }
        ensures serving { self.new.serving ≡ Some number }
        ensures before { result ≡ self.old.serving }
        ensures early { self.new.early.items ≡ filter (is_due t_train) self.old.early.items }
        ensures bound { length self.new.early.items ≤ length self.old.early.items }
    {
        let before = self.serving;
        self.next = t_train;
        self.serving = Some(number);
        self.early
            .retain(|reply| reply.message().t_train() >= t_train);
        before
    }

    // Whether the turn of this T_TRAIN is over.
    fn is_over(&self, t_train: u32) -> bool
        ensures { IsTrue result ↔ (t_train < self.now.next) }
    {
        t_train < self.next
    }

    // Submits a reply, which waits for its turn. A reply whose turn is over is dropped.
    fn submit(&mut self, reply: Reply) -> Result<(), NoRoom>
        ensures turn { self.new.next ≡ self.old.next }
        ensures serving { self.new.serving ≡ self.old.serving }
        ensures ok { OnOk result (self.new.early.items ≡ kept self.old.next reply self.old.early.items) }
        ensures err { OnErr result (self.new.early.items ≡ self.old.early.items) }
        ensures bound { length self.old.early.items ≤ MOST_EARLY + 1 → length self.new.early.items ≤ MOST_EARLY + 1 }
    {
        if self.is_over(reply.message().t_train()) {
            return Ok(());
        }
        if !self.has_room(reply.message().t_train()) {
            return Err(NoRoom);
        }
        self.early.push(reply).ok().ok_or(NoRoom)
    }

    // Whether there is room for a reply with this T_TRAIN. The one whose turn it is has room beside all that may wait.
    fn has_room(&self, t_train: u32) -> bool
        ensures due { t_train ≡ self.now.next → (IsTrue result ↔ (length self.now.early.items ≤ MOST_EARLY)) }
        ensures early { t_train ≢ self.now.next → (IsTrue result ↔ (length self.now.early.items < MOST_EARLY)) }
    {
        if t_train == self.next {
            self.early.len() <= MOST_EARLY
        } else {
            self.early.len() < MOST_EARLY
        }
    }

    /// The connection that serves the train, if one does.
    pub fn serving(&self) -> Option<usize>
        ensures { result ≡ self.now.serving }
    {
        self.serving
    }

    /// Whether this connection serves the train.
    pub fn serves(&self, number: usize) -> bool
        ensures { result ≡ is_served_by number self.now.serving }
    {
        match self.serving {
            Some(serving) => serving == number,
            None => false,
        }
    }

    /// This connection serves the train no more. The turn and the replies that wait stay.
    pub fn leave(&mut self, number: usize)
        ensures turn { self.new.next ≡ self.old.next }
        ensures serving { self.new.serving ≡ without number self.old.serving }
        ensures early { self.new.early.items ≡ self.old.early.items }
    {
        self.serving = without(number, self.serving);
    }

    /// The number of replies that wait for their turn.
    pub fn waiting(&self) -> usize
        ensures { result ≡ length self.now.early.items }
    {
        self.early.len()
    }

    /// Releases the reply whose turn it is, if it was submitted. Then the turn advances by one.
    pub fn release(&mut self) -> Option<Reply>
        ensures turn { self.new.next ≡ (if is_some result then self.old.next + 1 else self.old.next) }
        ensures serving { self.new.serving ≡ self.old.serving }
        ensures some { IfSome result (λ reply. IsTurn self.old.next reply self.old.early.items self.new.early.items) }
        ensures none { IfNone result (All (λ reply. reply.message.t_train ≢ self.old.next) self.old.early.items) }
        ensures left { IfNone result (self.new.early.items ≡ self.old.early.items) }
    {
        let place = place_of(self.early.as_slice(), self.next)?;
        let reply = self.early.remove(place);
        self.next += 1;
        Some(reply)
    }
}

// The place of the reply with this T_TRAIN.
fn place_of(replies: &[Reply], t_train: u32) -> Option<usize>
    ensures some { IfSome result
        (λ i. (i < length replies.now) × HoldsAt (λ reply. reply.message.t_train ≡ t_train) replies.now i) }
    ensures none { IfNone result (All (λ reply. reply.message.t_train ≢ t_train) replies.now) }
{
    for (place, reply) in replies.iter().enumerate() {
        if reply.message().t_train() == t_train {
            return Some(place);
        }
    }
    None
}

// The connection that serves the train, after the one of this number has left.
fn without(number: usize, serving: Option<usize>) -> Option<usize>
    ensures { result ≡ without number serving }
{
    match serving {
        Some(connection) if connection == number => None,
        other => other,
    }
}
