use rbc_vars::{QMarqstreason, QStatus, TTrain};

/// Which message a train sends, with the fields that no other message has.
#[derive(Clone, Copy)]
pub enum Kind {
    TrainData,
    Request(QMarqstreason),
    Report,
    /// T_TRAIN of the request that is answered.
    ShorteningGranted(TTrain),
    /// T_TRAIN of the request that is answered.
    ShorteningRejected(TTrain),
    EndOfMission,
    InitiationOfSession,
    TerminationOfSession,
    StartOfMission(QStatus),
    SessionEstablished,
}
