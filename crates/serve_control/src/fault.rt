use rbc_log::MergeFault;
use rbc_node::GatherFault;
use std::alloc::{AllocError, AllocFailed};
use std::io;
use text_script::status::Fault;
use thiserror::Error;

/// The reason why the running centres end without a print.
#[derive(Debug, Drop, Error)]
pub enum ServeFault {
    /// A port can't be listened on.
    #[error("rbcline: socket")]
    Socket,
    #[error("rbcline: gather refused {number}", number = .0.number())]
    Gather(GatherFault),
    #[error("rbcline: merge refused {number}", number = .0.number())]
    Merge(MergeFault),
    /// A journal was given up: it lacks the last committed events, or it can't be begun.
    #[error("rbcline: journal")]
    Journal,
    /// The fault of a run.
    #[error(transparent)]
    Run(Fault<'static>),
}

impl ServeFault {
    ghost use Rattle.std.specs.Prelude.{◌≡◌};
    ghost use Rattle.serve_control.specs.Statuses.{status_of_serve};

    /// The program's exit status.
    pub fn status(&self) -> u8
        ensures { result ≡ status_of_serve self.now }
    {
        match self {
            ServeFault::Socket | ServeFault::Journal => 6,
            ServeFault::Gather(_) | ServeFault::Merge(_) => 7,
            ServeFault::Run(fault) => fault.status(),
        }
    }
}

impl From<Fault<'static>> for ServeFault {
    fn from(fault: Fault<'static>) -> ServeFault {
        ServeFault::Run(fault)
    }
}

impl From<AllocError> for ServeFault {
    fn from(error: AllocError) -> ServeFault {
        ServeFault::Run(error.into())
    }
}

impl<T: Drop> From<AllocFailed<T>> for ServeFault {
    fn from(_error: AllocFailed<T>) -> ServeFault {
        ServeFault::Run(AllocError.into())
    }
}

impl From<io::Error> for ServeFault {
    fn from(_error: io::Error) -> ServeFault {
        ServeFault::Socket
    }
}

impl From<GatherFault> for ServeFault {
    fn from(fault: GatherFault) -> ServeFault {
        ServeFault::Gather(fault)
    }
}

impl From<MergeFault> for ServeFault {
    fn from(fault: MergeFault) -> ServeFault {
        ServeFault::Merge(fault)
    }
}
