//! A printed line in words.

use std::fmt;
use std::fmt::Formatter;

/// A printed line of `run` in words: the speaker and the receiver, the message, and the line itself with shortened
/// hexadecimal.
#[derive(Drop)]
pub struct Told {
    pub who: String,
    pub what: String,
    pub line: String,
}

impl fmt::Display for Told {
    fn fmt<W: fmt::Write>(&self, f: &mut Formatter<W>) -> fmt::Result {
        let who = self.who.as_str();
        let what = self.what.as_str();
        let line = self.line.as_str();
        write!(f, "{who:<19} {what:<61} {line}")
    }
}
