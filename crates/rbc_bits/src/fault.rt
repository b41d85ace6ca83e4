ghost use Rattle.std.specs.Prelude.{◌≡◌};
ghost use Rattle.rbc_bits.specs.declared.fault.BitFault.TheVariants.{Memory};

use std::alloc::{AllocError, AllocFailed};

/// Why a field was not read or written.
#[derive(Clone, Copy, Debug, PartialEq, Eq)]
pub enum BitFault {
    /// Fewer bits are left than the field has.
    Short = 1,
    /// Memory ran out.
    Memory = 2,
}

impl From<AllocError> for BitFault {
    ghost from_gives = { λ _ fault. fault ≡ Memory };

    fn from(_error: AllocError) -> BitFault {
        BitFault::Memory
    }
}

impl<T: Drop> From<AllocFailed<T>> for BitFault {
    ghost from_gives = { λ _ fault. fault ≡ Memory };

    fn from(_error: AllocFailed<T>) -> BitFault {
        BitFault::Memory
    }
}
