use rbc_linkmsg::Frame;

/// A frame, and the centre that it goes to.
#[derive(Clone, Copy, Debug, PartialEq, Eq)]
pub struct SentFrame {
    /// The number of the centre in the line file.
    pub to: u8,
    pub frame: Frame,
}
