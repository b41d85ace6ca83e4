ghost use Rattle.std.specs.Prelude.{◌≡◌};
ghost use Rattle.rbc_centre.specs.declared.fault.StepFault.TheVariants.{Memory};
ghost use Rattle.rbc_log.specs.Faults.{number_of_fault};
ghost use Rattle.rbc_log.specs.declared.fault.CommitFault.TheVariants.{Step};

use rbc_centre::StepFault;
use std::alloc::AllocError;

/// Why a commit was refused. A refused commit changes nothing.
#[derive(Clone, Copy, Debug, PartialEq, Eq)]
pub enum CommitFault {
    /// The centre refused the step, or memory ran out.
    Step(StepFault),
    /// The log is full. This is tested first.
    LogFull,
}

impl CommitFault {
    /// The number that is printed: that of the step's fault, or 4.
    pub fn number(self) -> u8
        ensures { result ≡ number_of_fault self }
    {
        match self {
            CommitFault::Step(fault) => fault.number(),
            CommitFault::LogFull => 4,
        }
    }
}

impl From<AllocError> for CommitFault {
    ghost from_gives = { λ _ fault. fault ≡ Step Memory };

    fn from(_error: AllocError) -> CommitFault {
        CommitFault::Step(StepFault::Memory)
    }
}

impl From<StepFault> for CommitFault {
    ghost from_gives = { λ step fault. fault ≡ Step step };

    fn from(fault: StepFault) -> CommitFault {
        CommitFault::Step(fault)
    }
}
