ghost use Rattle.std.specs.Prelude.{◌≡◌, Err, false, IfOk, is_ok};
ghost use Rattle.rbc_railway.specs.declared.fault.RailwayFault.TheVariants.{Memory};

use rbc_railway::RailwayFault;
use std::alloc::{AllocError, AllocFailed};
use std::io;
use text_script::StepFault;
use text_script::status::Fault;

/// Why a demo ends early.
#[derive(Clone, Copy, Debug, PartialEq, Eq)]
pub enum DemoFault {
    /// A centre refused a step: memory, stamps, or the numbers of a link have run out.
    Step(StepFault),
    /// The writer refused a write.
    Write,
}

impl From<AllocError> for DemoFault {
    fn from(_error: AllocError) -> DemoFault {
        DemoFault::Step(StepFault::Memory)
    }
}

impl<T: Drop> From<AllocFailed<T>> for DemoFault {
    fn from(_error: AllocFailed<T>) -> DemoFault {
        DemoFault::Step(StepFault::Memory)
    }
}

impl From<io::Error> for DemoFault {
    fn from(_error: io::Error) -> DemoFault {
        DemoFault::Write
    }
}

impl From<DemoFault> for Fault<'_> {
    fn from(fault: DemoFault) -> Self {
        match fault {
            DemoFault::Step(fault) => Fault::Step(fault),
            DemoFault::Write => Fault::Write,
        }
    }
}

/// Whether a moment happened. A moment that a rule forbids does not, and nothing changes.
pub(crate) fn happened(done: Result<(), RailwayFault>) -> Result<bool, DemoFault>
    ensures happened { IfOk result (λ has_happened. has_happened ≡ is_ok done) }
    ensures memory { done ≡ Err Memory → is_ok result ≡ false }
{
    match done {
        Ok(()) => Ok(true),
        Err(RailwayFault::Step(fault)) => Err(DemoFault::Step(fault)),
        Err(RailwayFault::Memory) => Err(DemoFault::Step(StepFault::Memory)),
        Err(_) => Ok(false),
    }
}
