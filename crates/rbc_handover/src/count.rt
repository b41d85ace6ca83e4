ghost use Rattle.std.specs.Prelude.{◌≡◌, ◌+◌, ◌<◌, ◌≤◌};
ghost use Rattle.rbc_spec.specs.Frame.{last_stamp};

use std::marker::Model;

/// The count of handovers that a centre has announced, over all its trains: each takes the next number, from 1 on. It
/// only rises, and can't be copied, so no number is used twice. A centre announces at most one a step, and it makes at
/// most 1 073 741 823 steps. So the numbers do not end before the steps do.
#[derive(Debug, Drop)]
pub struct HandoverCount {
    announced: u32,
}

impl Model for HandoverCount {
    ghost use Rattle.std.specs.Prelude.{ℕ, ◌≤◌};
    ghost use Rattle.rbc_spec.specs.Frame.{last_stamp};

    ghost Value = { ℕ };

    ghost view = { λ c. c.announced };

    ghost invariant = { λ c. c.announced ≤ last_stamp };
}

impl HandoverCount {
    /// No handover was announced.
    pub fn new() -> HandoverCount
        ensures { result ≡ 0 }
    {
        HandoverCount { announced: 0 }
    }

    /// How many handovers were announced, at most 1 073 741 823. It is the number of the last.
    pub fn announced(&self) -> u32
        ensures value { result ≡ self.now }
        ensures most { self.now ≤ last_stamp }
    {
        self.announced
    }

    // The next number, for a handover that is announced now.
    pub(crate) fn take_next(&mut self) -> u32
        requires { self.old < last_stamp }
        ensures number { result ≡ self.old + 1 }
        ensures count { self.new ≡ self.old + 1 }
    {
        let number = self.announced + 1;
        self.announced = number;
        number
    }
}
