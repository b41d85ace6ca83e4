ghost use Rattle.std.specs.Prelude.{◌≡◌};
ghost use Rattle.rbc_node.specs.Faults.{number_of_gather_fault};
ghost use Rattle.rbc_node.specs.declared.gather_fault.GatherFault.TheVariants.{Memory};

use std::alloc::AllocError;

/// Why logs were not gathered. Nodes and shares are gone then.
#[derive(Clone, Copy, Debug, PartialEq, Eq)]
pub enum GatherFault {
    /// Memory ran out.
    Memory = 1,
    /// The entries of a log are not the receipts of its shares, each once and each share's in order. Or a share with a
    /// receipt is of a centre without a log.
    Shares = 2,
    /// A log took a frame that its sender's log does not have, as sent to that centre, under that number.
    Foreign = 3,
    /// The logs are not one for each centre of one line. It is looked for first.
    Centres = 4,
}

impl GatherFault {
    /// The number that is printed.
    pub fn number(self) -> u8
        ensures { result ≡ number_of_gather_fault self }
    {
        self as u8
    }
}

impl From<AllocError> for GatherFault {
    ghost from_gives = { λ _ fault. fault ≡ Memory };

    fn from(_error: AllocError) -> GatherFault {
        GatherFault::Memory
    }
}
