use crate::status::fault::Fault;
use rbc_world::StepFault;
use std::alloc::{AllocError, AllocFailed};
use std::io;

/// Why a print is not complete. It owns nothing, unlike the fault with which the program ends.
#[derive(Clone, Copy, Debug, PartialEq, Eq)]
pub enum PrintFault {
    /// Memory ran out.
    Memory,
    /// The writer refused a write.
    Write,
}

impl From<AllocError> for PrintFault {
    fn from(_error: AllocError) -> PrintFault {
        PrintFault::Memory
    }
}

impl<T: Drop> From<AllocFailed<T>> for PrintFault {
    fn from(_error: AllocFailed<T>) -> PrintFault {
        PrintFault::Memory
    }
}

impl From<io::Error> for PrintFault {
    fn from(_error: io::Error) -> PrintFault {
        PrintFault::Write
    }
}

// A failed allocation counts as a refused step.
impl From<PrintFault> for Fault<'_> {
    fn from(fault: PrintFault) -> Self {
        match fault {
            PrintFault::Memory => Fault::Step(StepFault::Memory),
            PrintFault::Write => Fault::Write,
        }
    }
}
