ghost use Rattle.std.specs.Prelude.{◌≡◌};
ghost use Rattle.serve_line.specs.Watches.{IsMovement};

use crate::moments::seconds_between;
use std::time::Instant;

/// The longest wait of an event for the disk without a note, in seconds.
pub(crate) const LONG_S: u64 = 1;

/// The moves of a queue, as they were seen last.
#[derive(Clone, Copy)]
pub(crate) struct LastMove {
    // The number of events that had left, and the first time at which none had left since.
    left: u64,
    since: Option<Instant>,
}

/// How a queue moves.
#[derive(Clone, Copy)]
pub(crate) enum Movement {
    /// It is empty, or an event has left it.
    Moves,
    /// It has not moved for less than `LONG_S`, or the clock fails.
    Waits,
    /// It has not moved for `LONG_S`.
    IsLong,
}

impl LastMove {
    /// Before the first look.
    pub fn new() -> LastMove
        ensures { result ≡ record { left = 0; since = None } }
    {
        LastMove {
            left: 0,
            since: None,
        }
    }

    /// How the queue moves, by the numbers of events that entered it and left it.
    pub fn look(&mut self, entered: u64, left: u64, now: Option<Instant>) -> Movement
        ensures { IsMovement self.old entered left now result self.new }
    {
        if entered == left || left != self.left {
            self.left = left;
            self.since = None;
            return Movement::Moves;
        }
        let Some(now) = now else {
            return Movement::Waits;
        };
        let since = self.since.unwrap_or(now);
        self.since = Some(since);
        if seconds_between(since, now) >= LONG_S {
            Movement::IsLong
        } else {
            Movement::Waits
        }
    }
}
