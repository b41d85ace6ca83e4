ghost use Rattle.std.specs.Prelude.{◌≡◌};
ghost use Rattle.rbc_centre.specs.declared.fault.StepFault.TheVariants.{Memory};
ghost use Rattle.rbc_log.specs.declared.fault.CommitFault.TheVariants.{Step};
ghost use Rattle.rbc_node.specs.Faults.{number_of_fault};
ghost use Rattle.rbc_node.specs.declared.fault.ShareFault.TheVariants.{Commit};

use rbc_log::CommitFault;
use std::alloc::AllocError;

/// Why a commit with a share was refused. A refused commit changes neither the log nor the share.
#[derive(Clone, Copy, Debug, PartialEq, Eq)]
pub enum ShareFault {
    /// The log refused the commit, or memory ran out.
    Commit(CommitFault),
    /// The share is of another centre than the log, or the log lacks the share's last receipt at its position. This is
    /// tested first.
    Stray,
}

impl ShareFault {
    /// The number that is printed: that of the commit's fault, or 5.
    pub fn number(self) -> u8
        ensures { result ≡ number_of_fault self }
    {
        match self {
            ShareFault::Commit(fault) => fault.number(),
            ShareFault::Stray => 5,
        }
    }
}

impl From<AllocError> for ShareFault {
    ghost from_gives = { λ _ fault. fault ≡ Commit (Step Memory) };

    fn from(error: AllocError) -> ShareFault {
        ShareFault::Commit(CommitFault::from(error))
    }
}

impl From<CommitFault> for ShareFault {
    ghost from_gives = { λ commit fault. fault ≡ Commit commit };

    fn from(fault: CommitFault) -> ShareFault {
        ShareFault::Commit(fault)
    }
}
