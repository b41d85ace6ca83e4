use std::alloc::AllocError;
use thiserror::Error;

/// Why a statement names no message.
#[derive(Clone, Copy, Debug, Error)]
pub enum SentFault {
    #[error("memory ran out")]
    Memory,
    /// Neither the line nor an earlier one of the train names a position.
    #[error("the train has reported no position yet: `at GROUP+METRES m` names one")]
    NoPosition,
    /// A distance is not a whole number of units, or 15 bits have no room for it.
    #[error("a distance is no whole number of units of the scale below 32768")]
    Unit,
    /// T_TRAIN has no value left.
    #[error("no message has this T_TRAIN: it is below 4294967295")]
    Time,
    /// The message would have more than 1 023 bytes.
    #[error("a message has at most 1023 bytes")]
    TooLong,
}

impl From<AllocError> for SentFault {
    ghost use Rattle.std.specs.Prelude.{◌≡◌};
    ghost use Rattle.text_scenario.specs.declared.fault.SentFault.TheVariants.{Memory};

    ghost from_gives = { λ _ fault. fault ≡ Memory };

    fn from(_error: AllocError) -> Self {
        SentFault::Memory
    }
}
