use rbc_packets::{Opaque, Position};
use rbc_vars::{QMarqstreason, QStatus, TTrain};

/// The body of a train's message, after the header (SUBSET-026 8.6).
#[derive(Debug, Drop)]
pub enum TrainBody {
    /// Message 129, Validated Train Data: packet 11 is kept without being read.
    TrainData {
        position: Position,
        packet: Opaque,
    },
    /// Message 132, MA Request (profile).
    Request {
        q_marqstreason: QMarqstreason,
        position: Position,
    },
    /// Message 136, Train Position Report.
    Report {
        position: Position,
    },
    /// Message 137, Request to shorten MA is granted: T_TRAIN of the request.
    ShorteningGranted {
        request: TTrain,
        position: Position,
    },
    /// Message 138, Request to shorten MA is rejected: T_TRAIN of the request.
    ShorteningRejected {
        request: TTrain,
        position: Position,
    },
    /// Message 150, End of Mission.
    EndOfMission {
        position: Position,
    },
    /// Message 155, Initiation of a communication session (3.5.3).
    InitiationOfSession,
    /// Message 156, Termination of a communication session (3.5.5).
    TerminationOfSession,
    /// Message 157, SoM Position Report (5.4).
    StartOfMission {
        q_status: QStatus,
        position: Position,
    },
    /// Message 159, Session Established (3.5.3).
    SessionEstablished,
}
