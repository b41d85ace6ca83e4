use rbc_linkmsg::Frame;
use std::collections::LinkedList;

/// The plain data of a pass of a link's queue. No value of it is made.
pub struct View {
    /// Its holder is the one that puts frames.
    pub puts: bool,
    /// The number of the frame that was put last.
    pub last: u32,
    /// The frames that its holder knows.
    pub known: LinkedList<Frame>,
}
