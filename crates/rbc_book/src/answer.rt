/// The section is not of this book's home.
#[derive(Clone, Copy, Debug, PartialEq, Eq)]
pub struct NotHome;

/// The answer to an interlocking that takes a section back.
#[derive(Clone, Copy, Debug, PartialEq, Eq)]
pub enum Unset {
    /// The section was in no use, and is shut.
    Done,
    /// The section is in use. The wish is noted: it will be shut when it is given back.
    Asked,
}

/// The new state of a section that was given back.
#[derive(Clone, Copy, Debug, PartialEq, Eq)]
pub enum Back {
    /// It is open.
    Open,
    /// It was wished back, so it is shut, and the interlocking gets a report.
    Told,
}
