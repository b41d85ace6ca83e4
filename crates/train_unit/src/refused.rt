/// The rule that forbids a train to send a message.
#[derive(Clone, Copy, Debug, PartialEq, Eq)]
pub enum Refused {
    /// It has the NID_ENGINE of another train (SUBSET-037).
    Name,
    /// Its T_TRAIN is not above that of the last message (3.16.3).
    Stamp,
    /// Its position report is not true of the safe ends of the train (3.6).
    Position,
    /// It grants a request to shorten that is not the last one received from this centre (3.8.6).
    Request,
}
