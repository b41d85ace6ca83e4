use crate::steps::StepsFault;
use std::alloc::AllocError;
use std::io;

/// Why a train did not finish its lines.
#[derive(Clone, Copy, Debug, PartialEq, Eq)]
pub enum DriveFault {
    /// Memory ran out.
    Memory,
    /// A line has no valid form: the number of the first such line, from 1.
    Form(usize),
    /// The connection failed or ended early, or brought bytes that are not a message of a centre.
    Socket,
    /// The output was refused.
    Write,
}

impl From<StepsFault> for DriveFault {
    fn from(fault: StepsFault) -> DriveFault {
        match fault {
            StepsFault::Memory => DriveFault::Memory,
            StepsFault::Form(row) => DriveFault::Form(row),
        }
    }
}

impl From<AllocError> for DriveFault {
    fn from(_error: AllocError) -> DriveFault {
        DriveFault::Memory
    }
}

// A fault in a `?` is one of the connection.
impl From<io::Error> for DriveFault {
    fn from(_error: io::Error) -> DriveFault {
        DriveFault::Socket
    }
}
