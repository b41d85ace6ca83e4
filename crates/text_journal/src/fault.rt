ghost use Rattle.std.specs.Prelude.{◌≡◌};
ghost use Rattle.text_journal.specs.declared.fault.JournalFault.TheVariants.{Memory};

use std::alloc::{AllocError, AllocFailed};

/// Why a journal can't be read.
#[derive(Clone, Copy, Debug, PartialEq, Eq)]
pub enum JournalFault {
    /// Memory ran out.
    Memory,
    /// It is not a journal of this centre of this line: its first line differs.
    Foreign,
    /// A line is damaged: the number of the first such line, from 1. The journal's first line counts.
    Damaged(usize),
}

impl From<AllocError> for JournalFault {
    ghost from_gives = { λ _ fault. fault ≡ Memory };

    fn from(_error: AllocError) -> JournalFault {
        JournalFault::Memory
    }
}

impl<T: Drop> From<AllocFailed<T>> for JournalFault {
    ghost from_gives = { λ _ fault. fault ≡ Memory };

    fn from(_error: AllocFailed<T>) -> JournalFault {
        JournalFault::Memory
    }
}
