ghost use Rattle.std.specs.Prelude.{◌≡◌, ◌+◌, ◌≤◌, ◌<◌, length, nat_lt, option_copied, [], ◌∷◌, ◌++◌, OnOk, IsOk};
ghost use Rattle.std.specs.Prelude.{IsTrue};
ghost use Rattle.rbc_spec.specs.Frame as spec;
ghost use Rattle.rbc_spec.specs.Frame.{last_stamp};
ghost use Rattle.rbc_link.specs.Outgoing as outgoing;

use crate::sent::Sent;
use std::alloc::{AllocError, Global};
use std::marker::Model;

/// How many frames a link carries at most.
pub const MOST_FRAMES: usize = 65_536;

/// The frames that were sent on a link to another centre, in order, numbered from 1. Each can be read again at any
/// time. `B` is the type of a frame's body.
#[derive(Drop)]
pub struct Outbox<B> {
    frames: Vec<Sent<B>>,
}

impl<B> Model for Outbox<B> {
    ghost use Rattle.std.specs.Prelude.{◌-◌};
    ghost use Rattle.std.specs.Vec.{vec_len, vec_capacity};
    ghost use Rattle.rbc_link.specs.Outgoing.{Outgoing, AreFrames};

    ghost Value = { Outgoing B };

    ghost view = { λ o. record { frames = o.frames.items; room = vec_capacity o.frames - vec_len o.frames } };

    ghost invariant = { λ o. AreFrames o.frames.items };
}

impl<B> Outbox<B> {
    ghost use Rattle.rbc_link.specs.Outgoing.{AreFrames, frame_number, frames_by, sent_as};
    ghost use Rattle.rbc_spec.specs.Step.{numbered};

    /// No frame was sent. It takes no memory.
    pub fn new(alloc: Global) -> Outbox<B>
        ensures { result.frames ≡ [] }
    {
        Outbox {
            frames: Vec::new(alloc),
        }
    }

    /// How many frames were sent, at most 65 536. It is the number of the last.
    pub fn count(&self) -> u32
        ensures value { result ≡ length self.now.frames }
        ensures frames { AreFrames self.now.frames }
    {
        self.frames.len() as u32
    }

    /// The frame of this number; `None` if and only if the number is 0 or was not sent yet.
    pub fn get(&self, number: u32) -> Option<&Sent<B>>
        ensures value { option_copied result ≡ frame_number self.now.frames number }
        ensures frames { AreFrames self.now.frames }
    {
        frame_number(self.frames.as_slice(), number)
    }

    /// Whether the link has fewer numbers left than this.
    pub fn is_full(&self, count: u32) -> bool
        requires { count ≤ 65536 }
        ensures { result ≡ nat_lt 65536 (length self.now.frames + count) }
    {
        self.count() + count > MOST_FRAMES as u32
    }

    // Whether there is room for `count` further frames.
    pub(crate) fn has_room(&self, count: usize) -> bool
        ensures { IsTrue result → count ≤ self.now.room }
    {
        count <= self.frames.capacity() - self.frames.len()
    }

    /// Makes room for `count` further frames, so that sending them takes no memory. A refusal does not change the room.
    pub fn reserve(&mut self, count: usize) -> Result<(), AllocError>
        ensures frames { self.new.frames ≡ self.old.frames }
        ensures room { OnOk result (count ≤ self.new.room) }
        ensures grows { self.old.room ≤ self.new.room }
        ensures succeeds { count ≤ self.old.room → IsOk result }
    {
        self.frames.reserve(count)
    }

    /// Sends a frame with this body and the stamp of the step: its number is the next of the link. There is room for
    /// it, and a number.
    pub fn send(&mut self, stamp: u32, body: B) -> u32
        requires room { 0 < self.old.room }
        requires numbers { length self.old.frames < 65536 }
        requires stamped { (1 ≤ stamp) × (stamp ≤ last_stamp) }
        ensures number { result ≡ length self.old.frames + 1 }
        ensures frames { self.new.frames ≡ self.old.frames ++ sent_as (length self.old.frames + 1) stamp body ∷ [] }
        ensures numbered { (meaning : B → spec.Body) → frames_by meaning self.new.frames
            ≡ frames_by meaning self.old.frames ++ numbered stamp (length self.old.frames) (meaning body ∷ []) }
        ensures room { self.new.room + 1 ≡ self.old.room }
    {
        let number = self.count() + 1;
        self.frames.push_reserved(Sent {
            number,
            stamp,
            body,
        });
        number
    }
}

// The frame of this number, from 1.
fn frame_number<B>(frames: &[Sent<B>], number: u32) -> Option<&Sent<B>>
    ensures { option_copied result ≡ outgoing.frame_number frames.now number }
{
    if number == 0 {
        return None;
    }
    frames.get(number as usize - 1)
}
