use std::fmt;

/// The result of an audit.
#[derive(Clone, Copy, Debug, PartialEq, Eq)]
pub enum Verdict {
    /// The print is that of its events.
    Equal { events: u64 },
    /// The number of the first line that differs, from 1. If one text ends first, it is the first line that only the
    /// other has.
    Differs { line: u64 },
}

impl fmt::Display for Verdict {
    fn fmt<W: fmt::Write>(&self, f: &mut fmt::Formatter<W>) -> fmt::Result {
        match self {
            Verdict::Equal { events } => write!(f, "audit: equal, {events} events"),
            Verdict::Differs { line } => write!(f, "audit: line {line} differs"),
        }
    }
}
