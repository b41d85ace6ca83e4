use crate::journaling::journal::Journal;
use serve_journal::Kept;
use serve_workers::writing::{AtOnce, Release};
use std::sync::Wait;

/// The journal of a centre, as its answers wait for it. Without a journal no answer waits.
#[derive(Clone, Copy)]
pub struct Journaled<'a> {
    /// The centre's journal, if it keeps one.
    pub journal: Option<&'a Journal>,
}

impl Release for Journaled<'_> {
    ghost use Rattle.std.specs.Prelude.{option_map};
    ghost use Rattle.serve_line.specs.Journaling.Waiting.{awaited};

    ghost awaits = { λ s stamp. awaited (option_map (λ j. j.now.begun) s.journal) stamp };

    fn awaited(&self, stamp: u32) -> u32 {
        match self.journal {
            Some(journal) => journal.awaited(stamp),
            None => 0,
        }
    }

    fn release<R: Wait>(&self, rt: &R, centre: u8, stamp: u32) -> Option<Kept> {
        match self.journal {
            Some(journal) => journal.reaches(rt, centre, stamp),
            None => AtOnce.release(rt, centre, stamp),
        }
    }
}
