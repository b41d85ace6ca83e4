use crate::danger::Danger;
use std::alloc::AllocError;

/// Why a monitor ends.
#[derive(Clone, Copy, Debug, PartialEq, Eq)]
pub enum WatchFault {
    /// Memory ran out.
    Memory,
    /// The promise is broken after the event.
    Broken(Danger),
}

impl From<AllocError> for WatchFault {
    ghost use Rattle.std.specs.Prelude.{◌≡◌};
    ghost use Rattle.rbc_watch.specs.declared.fault.WatchFault.TheVariants.{Memory};

    ghost from_gives = { λ _ fault. fault ≡ Memory };

    fn from(_error: AllocError) -> Self {
        WatchFault::Memory
    }
}

impl From<Danger> for WatchFault {
    ghost use Rattle.std.specs.Prelude.{◌≡◌};
    ghost use Rattle.rbc_watch.specs.declared.fault.WatchFault.TheVariants.{Broken};

    ghost from_gives = { λ danger fault. fault ≡ Broken danger };

    fn from(danger: Danger) -> Self {
        WatchFault::Broken(danger)
    }
}

/// Why a list of events is refused.
#[derive(Clone, Copy, Debug, PartialEq, Eq)]
pub enum Breach {
    /// Memory ran out.
    Memory,
    /// The promise is broken after an event for the first time.
    Broken {
        /// The number of events before this one.
        before: usize,
        danger: Danger,
    },
}

impl From<AllocError> for Breach {
    ghost use Rattle.std.specs.Prelude.{◌≡◌};
    ghost use Rattle.rbc_watch.specs.declared.fault.Breach.TheVariants.{Memory};

    ghost from_gives = { λ _ fault. fault ≡ Memory };

    fn from(_error: AllocError) -> Self {
        Breach::Memory
    }
}
