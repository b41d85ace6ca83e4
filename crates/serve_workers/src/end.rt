ghost use Rattle.std.specs.Prelude.{◌≡◌};
ghost use Rattle.serve_workers.specs.Ends.{number_of_end};

use crate::reading::IntakeEnd;
use rbc_msgs::StreamFault;
use rbc_node::ShareFault;

/// The end of a connection's session. None of the ends closes the train's session at the centre.
#[derive(Clone, Copy, Debug, PartialEq, Eq)]
pub enum SessionEnd {
    /// No bytes are left.
    EndOfStream,
    /// The bytes show a fault, or memory ran out.
    Fault(StreamFault),
    /// A read failed.
    Device,
    /// The commit of a message was refused.
    Refused(ShareFault),
}

impl SessionEnd {
    /// The number by which a program names the end. It is 1 for the end of the stream, 2 for a fault, 3 for a failed
    /// read, 4 for a refusal.
    pub fn number(self) -> u8
        ensures { result ≡ number_of_end self }
    {
        match self {
            SessionEnd::EndOfStream => 1,
            SessionEnd::Fault(_) => 2,
            SessionEnd::Device => 3,
            SessionEnd::Refused(_) => 4,
        }
    }
}

impl From<IntakeEnd> for SessionEnd {
    ghost use Rattle.serve_workers.specs.Ends.{end_of_intake};

    ghost from_gives = { λ end given. given ≡ end_of_intake end };

    fn from(end: IntakeEnd) -> SessionEnd {
        match end {
            IntakeEnd::EndOfStream => SessionEnd::EndOfStream,
            IntakeEnd::Fault(fault) => SessionEnd::Fault(fault),
            IntakeEnd::Device => SessionEnd::Device,
        }
    }
}
