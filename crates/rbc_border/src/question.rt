/// The sections that the next centre is asked for (profile). `first` is numbered over the whole line, and `most` is a
/// limit from 1 to 31.
#[derive(Clone, Copy, Debug, PartialEq, Eq)]
pub struct Question {
    pub first: u16,
    pub most: u16,
}
