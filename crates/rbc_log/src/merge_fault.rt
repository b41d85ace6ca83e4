ghost use Rattle.std.specs.Prelude.{◌≡◌};
ghost use Rattle.rbc_log.specs.Faults.{number_of_merge_fault};
ghost use Rattle.rbc_log.specs.declared.merge_fault.MergeFault.TheVariants.{Memory};

use std::alloc::AllocError;

/// Why logs were not merged.
#[derive(Clone, Copy, Debug, PartialEq, Eq)]
pub enum MergeFault {
    /// Memory ran out.
    Memory = 1,
    /// Two logs are of one centre. It is looked for first.
    Twice = 2,
    /// Two logs are of different lines.
    OtherLine = 3,
}

impl MergeFault {
    /// The number that is printed.
    pub fn number(self) -> u8
        ensures { result ≡ number_of_merge_fault self }
    {
        self as u8
    }
}

impl From<AllocError> for MergeFault {
    ghost from_gives = { λ _ fault. fault ≡ Memory };

    fn from(_error: AllocError) -> MergeFault {
        MergeFault::Memory
    }
}
