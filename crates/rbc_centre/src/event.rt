use rbc_linkmsg::Frame;
use rbc_msgs::TrainMsg;

/// An event of a centre.
#[derive(Debug, Drop)]
pub enum Event {
    /// A train's message.
    Train(TrainMsg),
    /// The interlocking releases a section, by its number over the whole line.
    Set(u16),
    /// The interlocking takes a section back.
    Unset(u16),
    /// A frame of another centre, by its number.
    Deliver { from: u8, frame: Frame },
}
