use rbc_msgs::MsgFault;
use std::alloc::{AllocError, AllocFailed};
use thiserror::Error;

/// Why a line of a print is refused.
#[derive(Clone, Copy, Debug, PartialEq, Eq, Error)]
pub enum RowFault {
    #[error("memory ran out")]
    Memory,
    /// A line after `> ` has no form of a script.
    #[error("no event has this form")]
    Event,
    #[error("a print has no such line")]
    Form,
    /// A message or a reply is before the first event, or after `show`.
    #[error("no event is before it")]
    NoEvent,
    #[error("its event is at another centre")]
    OtherCentre,
    #[error("its bytes are no message of a centre, fault {number}", number = .0.number())]
    NoMessage(MsgFault),
}

impl From<AllocError> for RowFault {
    ghost use Rattle.std.specs.Prelude.{◌≡◌};
    ghost use Rattle.text_prints.specs.declared.fault.RowFault.TheVariants.{Memory};

    ghost from_gives = { λ _ fault. fault ≡ Memory };

    fn from(_error: AllocError) -> Self {
        RowFault::Memory
    }
}

impl<T: Drop> From<AllocFailed<T>> for RowFault {
    ghost use Rattle.std.specs.Prelude.{◌≡◌};
    ghost use Rattle.text_prints.specs.declared.fault.RowFault.TheVariants.{Memory};

    ghost from_gives = { λ _ fault. fault ≡ Memory };

    fn from(_error: AllocFailed<T>) -> Self {
        RowFault::Memory
    }
}
