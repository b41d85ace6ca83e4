use rbc_world::StepFault;
use train_unit::Refused;

/// Why a moment does not happen. It changes nothing.
#[derive(Clone, Copy, Debug, PartialEq, Eq)]
pub enum RailwayFault {
    /// The railway has no such train.
    NoTrain,
    /// The line has no such centre.
    NoCentre,
    /// No such message was sent.
    NotSent,
    /// Another train has this NID_ENGINE, or the bytes are in the name of a train of the railway.
    Name,
    /// The rear end is not in rear of the front end.
    Length,
    /// The train would run backwards.
    Backwards,
    /// The train would run past the limit of its on-board unit.
    Limit,
    /// The on-board unit does not send the message.
    Refused(Refused),
    /// The message has no spelling of at most 1 023 bytes.
    TooLong,
    /// A centre refused the event.
    Step(StepFault),
    /// Memory ran out.
    Memory,
}
