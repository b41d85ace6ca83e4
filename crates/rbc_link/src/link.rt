ghost use Rattle.std.specs.Prelude.{◌≡◌, ◌+◌, ◌≤◌, ◌<◌, true, [], ◌∷◌, ◌++◌, length, OnOk, IsOk};
ghost use Rattle.rbc_spec.specs.Frame as spec;
ghost use Rattle.rbc_spec.specs.Step.{offered, numbered};
ghost use Rattle.rbc_spec.specs.Frame.{last_stamp};
ghost use Rattle.rbc_link.specs.Inbox.{answer_of, taken_after};
ghost use Rattle.rbc_link.specs.Outgoing.{frames_by, sent_as};

use crate::inbox::Inbox;
use crate::link_answer::LinkAnswer;
use crate::outbox::Outbox;
use std::alloc::{AllocError, Global};

/// Whether two centres are linked, and if so the frames that arrived on the link and those sent on it.
#[derive(Drop)]
pub struct Link<B> {
    /// The two centres exchange frames.
    pub is_linked: bool,
    pub inbox: Inbox,
    pub outbox: Outbox<B>,
}

impl<B> Link<B> {
    /// No frame was taken or sent. It takes no memory.
    pub fn new(alloc: Global, is_linked: bool) -> Link<B>
        ensures linked { result.is_linked ≡ is_linked }
        ensures taken { result.inbox ≡ 0 }
        ensures sent { result.outbox.frames ≡ [] }
    {
        Link {
            is_linked,
            inbox: Inbox::new(),
            outbox: Outbox::new(alloc),
        }
    }

    // Offers the inbox a frame by its number.
    pub(crate) fn offer(&mut self, number: u32) -> LinkAnswer
        requires { number ≤ 65536 }
        ensures answer { answer_of result ≡ offered self.old.inbox number }
        ensures link { self.new
            ≡ record self.old { inbox = taken_after (offered self.old.inbox number) self.old.inbox number } }
    {
        self.inbox.offer(number)
    }

    // Makes room in the outbox, if the centres are linked.
    pub(crate) fn reserve(&mut self, count: usize) -> Result<(), AllocError>
        ensures link { self.new ≡ record self.old { outbox = record self.old.outbox { room = self.new.outbox.room } } }
        ensures room { OnOk result (self.old.is_linked ≡ true → count ≤ self.new.outbox.room) }
        ensures grows { self.old.outbox.room ≤ self.new.outbox.room }
        ensures succeeds { (self.old.is_linked ≡ true → count ≤ self.old.outbox.room) → IsOk result }
    {
        if !self.is_linked {
            return Ok(());
        }
        self.outbox.reserve(count)
    }

    // Sends a frame.
    pub(crate) fn send(&mut self, stamp: u32, body: B) -> u32
        requires room { 0 < self.old.outbox.room }
        requires numbers { length self.old.outbox.frames < 65536 }
        requires stamped { (1 ≤ stamp) × (stamp ≤ last_stamp) }
        ensures number { result ≡ length self.old.outbox.frames + 1 }
        ensures linked { self.new.is_linked ≡ self.old.is_linked }
        ensures inbox { self.new.inbox ≡ self.old.inbox }
        ensures frames { self.new.outbox.frames
            ≡ self.old.outbox.frames ++ sent_as (length self.old.outbox.frames + 1) stamp body ∷ [] }
        ensures numbered { (meaning : B → spec.Body) → frames_by meaning self.new.outbox.frames
            ≡ frames_by meaning self.old.outbox.frames
            ++ numbered stamp (length self.old.outbox.frames) (meaning body ∷ []) }
        ensures room { self.new.outbox.room + 1 ≡ self.old.outbox.room }
    {
        self.outbox.send(stamp, body)
    }
}
