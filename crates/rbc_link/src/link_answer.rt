/// The answer of a link to a frame (profile).
#[derive(Clone, Copy, Debug, PartialEq, Eq)]
pub enum LinkAnswer {
    /// It is the one after the last that was taken, and is taken.
    Next,
    /// One with its number was taken before.
    Old,
    /// An earlier frame has not arrived yet.
    Early,
    /// The centre has no link with its sender.
    NoLink,
}
