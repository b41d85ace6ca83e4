//! The known name that is most like a misspelt one.

use std::alloc::{AllocError, Global};
use std::fmt;
use strsim::osa_distance;

/// The longest word that is compared, in bytes.
const LONGEST: usize = 64;

/// The known name that is most like a word, if one is like it. Its print is a question, or nothing.
#[derive(Clone, Copy, Debug)]
pub struct Nearest<'a>(Option<&'a str>);

impl fmt::Display for Nearest<'_> {
    fn fmt<W: fmt::Write>(&self, f: &mut fmt::Formatter<W>) -> fmt::Result {
        match self.0 {
            Some(name) => write!(f, ": is it `{name}`?"),
            None => Ok(()),
        }
    }
}

/// A search for the name that is most like a word.
#[derive(Clone, Copy)]
pub struct Search<'a> {
    alloc: Global,
    word: &'a str,
    least: usize,
    nearest: Option<&'a str>,
}

impl<'a> Search<'a> {
    pub fn new(alloc: Global, word: &'a str) -> Search<'a> {
        Search {
            alloc,
            word,
            least: usize::MAX,
            nearest: None,
        }
    }

    /// Compares the word with the first word of a name.
    pub fn compare(&mut self, name: &'a str) -> Result<(), AllocError> {
        let first = name.split(' ').next().unwrap_or(name);
        if self.word.len() > LONGEST || first.len() > LONGEST {
            return Ok(());
        }
        let distance = if self.word.eq_ignore_ascii_case(first) {
            0
        } else {
            osa_distance(self.alloc, self.word, first)?
        };
        if distance < self.least && distance <= first.len() / 2 {
            self.least = distance;
            self.nearest = Some(name);
        }
        Ok(())
    }

    /// The name, if one is like the word.
    pub fn nearest(self) -> Nearest<'a> {
        Nearest(self.nearest)
    }
}
