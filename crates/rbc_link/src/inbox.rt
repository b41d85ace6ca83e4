ghost use Rattle.std.specs.Prelude.{◌≡◌, ◌≤◌};
ghost use Rattle.rbc_spec.specs.Step.{offered};

use crate::link_answer::LinkAnswer;
use std::marker::Model;

/// The frames that arrived on a link from another centre: the count of those that were taken, numbered from 1. A link
/// carries at most 65 536 frames, so the count never exceeds that.
#[derive(Debug, Drop)]
pub struct Inbox {
    taken: u32,
}

impl Model for Inbox {
    ghost use Rattle.std.specs.Prelude.{ℕ, ◌≤◌};

    ghost Value = { ℕ };

    ghost view = { λ i. i.taken };

    ghost invariant = { λ i. i.taken ≤ 65536 };
}

impl Inbox {
    ghost use Rattle.rbc_link.specs.Inbox.{answer_of, taken_after};

    /// No frame was taken.
    pub fn new() -> Inbox
        ensures { result ≡ 0 }
    {
        Inbox { taken: 0 }
    }

    /// How many frames were taken, at most 65 536. It is the number of the last.
    pub fn taken(&self) -> u32
        ensures value { result ≡ self.now }
        ensures most { self.now ≤ 65536 }
    {
        self.taken
    }

    /// Offers it a frame by its number, which is at most 65 536. Only the next is taken; one that is old or early
    /// changes nothing.
    pub fn offer(&mut self, number: u32) -> LinkAnswer
        requires { number ≤ 65536 }
        ensures answer { answer_of result ≡ offered self.old number }
        ensures taken { self.new ≡ taken_after (offered self.old number) self.old number }
        ensures most { self.new ≤ 65536 }
    {
        if number == self.taken + 1 {
            self.taken = number;
            return LinkAnswer::Next;
        }
        if number <= self.taken {
            LinkAnswer::Old
        } else {
            LinkAnswer::Early
        }
    }
}
