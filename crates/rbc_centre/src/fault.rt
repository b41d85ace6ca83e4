ghost use Rattle.std.specs.Prelude.{◌≡◌};
ghost use Rattle.rbc_centre.specs.declared.fault.StepFault.TheVariants.{Memory};

use std::alloc::{AllocError, AllocFailed};

/// Why a step was refused. A refused step changes nothing.
#[derive(Clone, Copy, Debug, PartialEq, Eq)]
pub enum StepFault {
    /// Memory ran out.
    Memory = 1,
    /// A link to another centre has fewer than four of its 65 536 numbers left.
    LinkFull = 2,
    /// The stamp of the step would pass the last one.
    ClockEnd = 3,
}

impl StepFault {
    ghost use Rattle.rbc_centre.specs.Views.{number_of_fault};

    /// The number that is printed.
    pub fn number(self) -> u8
        ensures { result ≡ number_of_fault self }
    {
        self as u8
    }
}

impl From<AllocError> for StepFault {
    ghost from_gives = { λ _ fault. fault ≡ Memory };

    fn from(_error: AllocError) -> StepFault {
        StepFault::Memory
    }
}

impl<T: Drop> From<AllocFailed<T>> for StepFault {
    ghost from_gives = { λ _ fault. fault ≡ Memory };

    fn from(_error: AllocFailed<T>) -> StepFault {
        StepFault::Memory
    }
}
