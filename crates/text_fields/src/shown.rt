use crate::layout::Field;

/// A field of a message as it is shown. Its bits follow those of the field before it.
#[derive(Clone, Copy)]
pub struct Shown {
    /// Its entry in the table.
    pub field: Field,
    /// The number of its bits, at most 64.
    pub width: u32,
    pub value: u64,
    /// NID_PACKET of the packet that it belongs to, if it belongs to one.
    pub packet: Option<u64>,
    /// Q_SCALE of that packet: the unit of its distances.
    pub scale: u64,
}
