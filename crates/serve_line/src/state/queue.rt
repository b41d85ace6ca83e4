ghost use Rattle.std.specs.Prelude.{◌≡◌, ℕ, None, Option};
ghost use Rattle.std.specs.declared.time.Instant.{Instant as Moment};
ghost use Rattle.serve_line.specs.Watches.{IsMovement, marks_of};
ghost use Rattle.serve_line.specs.declared.state.watch.Movement.{Movement as Move};

use crate::state::watch::{LONG_S, LastMove, Movement};
use serve_notes::{About, Kind, Notes};
use std::sync::atomic::{AtomicBool, AtomicU64, Ordering};
use std::time::{Clock, Instant};

/// The events that wait until the journal of a centre has them.
#[derive(Drop)]
pub struct Queue {
    entered: AtomicU64,
    left: AtomicU64,
    /// Events wait, and none has left for a second.
    is_long: AtomicBool,
}

impl Queue {
    /// An empty queue.
    pub(crate) fn new() -> Queue {
        Queue {
            entered: AtomicU64::new(0),
            left: AtomicU64::new(0),
            is_long: AtomicBool::new(false),
        }
    }

    /// A further event waits.
    pub(crate) fn enter(&self) {
        self.entered.fetch_add(1, Ordering::SeqCst);
    }

    /// An event waits no longer. If it was not written, the queue has not moved.
    pub(crate) fn leave(&self, is_written: bool) {
        if is_written {
            self.left.fetch_add(1, Ordering::SeqCst);
        } else {
            self.entered.fetch_sub(1, Ordering::SeqCst);
        }
    }

    /// Whether events wait, and none of them has left for a second.
    pub fn is_long(&self) -> bool {
        self.is_long.load(Ordering::SeqCst)
    }
}

/// Checks the queue of a centre periodically, and notes when it does not move.
#[derive(Clone, Copy)]
pub struct Watch {
    moves: LastMove,
}

impl Watch {
    /// A watch before its first check.
    pub fn new() -> Watch
        ensures { result.moves ≡ record { left = 0; since = None } }
    {
        Watch {
            moves: LastMove::new(),
        }
    }

    /// Checks the queue of the centre of this name. Only the thread of the centre's endpoint calls it.
    pub fn look<T: Clock, N: Notes>(&mut self, clock: &T, queue: &Queue, notes: &N, name: &str)
        ensures { (entered left : ℕ) × (now : Option Moment) × (movement : Move)
            × IsMovement self.old.moves entered left now movement self.new.moves }
    {
        let left = queue.left.load(Ordering::SeqCst);
        let entered = queue.entered.load(Ordering::SeqCst);
        let movement = self.moves.look(entered, left, Instant::now(clock).ok());
        let (is_long, is_noted) = marks_of(movement, queue.is_long());
        queue.is_long.store(is_long, Ordering::SeqCst);
        if is_noted {
            notes.note(
                About::centre(Kind::JournalSlow, name),
                format_args!("{name}: an event has waited for the journal for {LONG_S} s"),
            );
        }
    }
}

// Whether a queue that moves so is long, and whether that is noted. `was_long`: whether it was long before.
fn marks_of(movement: Movement, was_long: bool) -> (bool, bool)
    ensures { result ≡ marks_of movement was_long }
{
    match movement {
        Movement::Moves => (false, false),
        Movement::Waits => (was_long, false),
        Movement::IsLong => (true, !was_long),
    }
}
