use rbc_watch::{Saying, Word};

/// The meaning of a line after an event.
#[derive(Clone, Copy)]
pub(crate) enum Part {
    /// A message to a train.
    Said(Saying),
    /// A reply to the interlocking.
    Replied(Word),
    /// The event was not accepted, for the reason of this number.
    Silent(u8),
    /// The event was accepted: a frame to another centre, or a remark.
    Accepted,
    /// The event had no effect, or the line is about the state of the centres.
    Nothing,
}
