ghost use Rattle.std.specs.Prelude.{◌≡◌};

use std::alloc::{AllocError, AllocFailed};
use std::io;

/// Why trains end early.
#[derive(Clone, Copy, Debug, PartialEq, Eq)]
pub enum TrainsFault {
    /// Memory ran out.
    Memory,
    /// A centre or the control endpoint takes no connection any more.
    Socket,
    /// The writer refused a write.
    Write,
}

impl From<AllocError> for TrainsFault {
    ghost use Rattle.cli_drive.specs.declared.trains.fault.TrainsFault.TheVariants.{Memory};

    ghost from_gives = { λ _ fault. fault ≡ Memory };

    fn from(_error: AllocError) -> TrainsFault {
        TrainsFault::Memory
    }
}

impl<T: Drop> From<AllocFailed<T>> for TrainsFault {
    ghost use Rattle.cli_drive.specs.declared.trains.fault.TrainsFault.TheVariants.{Memory};

    ghost from_gives = { λ _ fault. fault ≡ Memory };

    fn from(_error: AllocFailed<T>) -> TrainsFault {
        TrainsFault::Memory
    }
}

// A fault in a `?` is one of the output. A failed connection is opened again.
impl From<io::Error> for TrainsFault {
    ghost use Rattle.cli_drive.specs.declared.trains.fault.TrainsFault.TheVariants.{Write};

    ghost from_gives = { λ _ fault. fault ≡ Write };

    fn from(_error: io::Error) -> TrainsFault {
        TrainsFault::Write
    }
}
