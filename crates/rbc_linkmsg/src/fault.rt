ghost use Rattle.std.specs.Prelude.{◌≡◌};
ghost use Rattle.rbc_linkmsg.specs.FaultNumbers.{frame_fault_number};

use thiserror::Error;

/// Why bytes are not a frame.
#[derive(Clone, Copy, Debug, PartialEq, Eq, Error)]
pub enum FrameFault {
    /// Fewer bytes than the frame has.
    #[error("short")]
    Short = 1,
    /// More bytes than the frame has.
    #[error("length")]
    Length = 2,
    /// A kind that no frame has.
    #[error("kind")]
    Kind = 3,
    /// A field has a value that is out of its range.
    #[error("value")]
    Value = 4,
}

impl FrameFault {
    /// The number by which a program names the fault.
    pub fn number(self) -> u8
        ensures { result ≡ frame_fault_number self }
    {
        self as u8
    }
}
