/// A frame that was sent on a link. `B` is the type of its body.
#[derive(Debug, Drop)]
pub struct Sent<B> {
    /// Its number on the link, 1 to 65 536.
    pub number: u32,
    /// The stamp of the step that sent it, 1 to 1 073 741 823.
    pub stamp: u32,
    pub body: B,
}
