ghost use Rattle.std.specs.Prelude.{◌≡◌, true, ℕ, IfSome};
ghost use Rattle.serve_journal.specs.Shown.{shows};

use serve_journal::Kept;
use std::sync::Wait;

/// The journal of a centre, as its answers wait for it.
pub trait Release {
    /// The stamp that the journal has to keep before an answer to the event with this stamp leaves; 0 if there is none.
    ghost awaits: { Self → ℕ → ℕ };

    /// The stamp that the journal has to keep before an answer to the event with this stamp leaves. It is 0 if the
    /// answer need not wait.
    fn awaited(&self, stamp: u32) -> u32
        ensures { result ≡ awaits self.now stamp };

    /// Waits until the journal keeps the event of this centre with this stamp. `None` if it never will, or is the
    /// journal of another centre. Stamp 0 is that of no event: nothing waits for it.
    fn release<R: Wait>(&self, rt: &R, centre: u8, stamp: u32) -> Option<Kept>
        ensures { IfSome result (λ kept. shows kept centre stamp ≡ true) };
}

/// No journal is kept: no answer waits.
#[derive(Clone, Copy, Debug)]
pub struct AtOnce;

impl Release for AtOnce {
    ghost awaits = { λ _ _. 0 };

    fn awaited(&self, _stamp: u32) -> u32 {
        0
    }

    fn release<R: Wait>(&self, _rt: &R, centre: u8, stamp: u32) -> Option<Kept> {
        if stamp == 0 {
            Some(Kept::no_event(centre))
        } else {
            None
        }
    }
}
