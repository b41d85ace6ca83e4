use rbc_msgs::TrackMsg;

/// The messages and replies after an event.
#[derive(Debug, Drop)]
pub struct Spoken {
    /// Whether the event was accepted. If not, a train's message has no effect.
    pub is_heard: bool,
    /// The messages to trains, in order.
    pub sayings: Vec<Saying>,
    /// The replies to the interlocking, in order.
    pub words: Vec<Word>,
}

/// A message to a train.
#[derive(Clone, Copy, Debug, PartialEq, Eq)]
pub struct Saying {
    /// NID_ENGINE of the train.
    pub nid_engine: u32,
    /// The message.
    pub message: TrackMsg,
}

/// A reply to the interlocking, with the number of a section.
#[derive(Clone, Copy, Debug, PartialEq, Eq)]
pub enum Word {
    /// The set or unset of the section is done.
    Done(u16),
    /// A train is asked for the section.
    Asked(u16),
    /// The section is not of this centre.
    NotHome(u16),
    /// A section that was wished back is given back.
    Told(u16),
}
