ghost use Rattle.std.specs.Prelude.{◌≡◌, ◌%◌, IfOk, replicate, get_or, set};

use std::alloc::{AllocError, Global};
use std::marker::Model;

/// The number of guesses. This many consecutive numbers have one each.
const ROOM: usize = 1024;

/// For each remainder of a number, the index at which a number of that remainder may be found. It is a guess: the
/// caller checks whether the number is at that index.
#[derive(Drop)]
pub(crate) struct Guesses {
    rows: Vec<u16>,
}

impl Model for Guesses {
    ghost use Rattle.std.specs.Prelude.{◌≡◌, ℕ, List, length};

    ghost Value = { List ℕ };

    ghost view = { λ g. g.rows.items };

    ghost invariant = { λ g. length g.rows.items ≡ 1024 };
}

impl Guesses {
    /// Every number may be at index 0.
    pub(crate) fn new(alloc: Global) -> Result<Guesses, AllocError>
        ensures { IfOk result (λ guesses. guesses ≡ replicate 1024 0) }
    {
        Ok(Guesses {
            rows: vec![in alloc; 0u16; ROOM]?,
        })
    }

    /// Notes that the number is at this index.
    pub(crate) fn note(&mut self, number: u32, row: u16)
        ensures { self.new ≡ set self.old (number % 1024) row }
    {
        self.rows[number as usize % ROOM] = row;
    }

    /// The index at which the number may be.
    #[inline(always)]
    pub(crate) fn of(&self, number: u32) -> u16
        ensures { result ≡ get_or self.now (number % 1024) 0 }
    {
        self.rows[number as usize % ROOM]
    }
}
