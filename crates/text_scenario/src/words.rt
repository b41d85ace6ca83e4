//! The words of a line, which are read from left to right.

ghost use Rattle.std.specs.Prelude.{◌≡◌, ◌==◌, ◌≤◌, ◌∷◌, [], IfErr, IfOk, is_ok, length, map};

use crate::nearest::Search;
use crate::row_fault::RowFault;
use rbc_line::Line;
use std::alloc::{AllocError, Global};

/// The words of a line up to a comment. A colon or a comma after a word is not part of it.
pub fn words_of(alloc: Global, row: &str) -> Result<Vec<&str>, AllocError> {
    let mut words = Vec::new(alloc);
    for word in row.split_whitespace() {
        if word.starts_with('#') {
            break;
        }
        let word = word.strip_suffix(':').unwrap_or(word);
        let word = word.strip_suffix(',').unwrap_or(word);
        if !word.is_empty() {
            words.push(word)?;
        }
    }
    Ok(words)
}

/// The words of a line that are not read yet.
#[derive(Clone, Copy)]
pub struct Words<'w, 'a> {
    pub alloc: Global,
    pub line: &'a Line,
    pub rest: &'w [&'a str],
}

impl<'a> Words<'_, 'a> {
    /// Reads a word.
    pub fn word(&mut self, what: &'static str) -> Result<&'a str, RowFault<'a>>
        ensures read { IfOk result (λ word. map (λ w. w.now) self.old.rest.now
            ≡ word.now ∷ map (λ w. w.now) self.new.rest.now) }
        ensures none { IfErr result (λ fault. self.old.rest.now ≡ []) }
        ensures line { self.new.line ≡ self.old.line }
    {
        match self.rest {
            [first, rest @ ..] => {
                self.rest = rest;
                Ok(*first)
            }
            [] => Err(RowFault::Missing(what)),
        }
    }

    /// Reads these words, if they are the next ones.
    pub fn takes(&mut self, phrase: &str) -> bool {
        let mut rest = self.rest;
        for word in phrase.split(' ') {
            match rest {
                [first, others @ ..] if *first == word => rest = others,
                _ => return false,
            }
        }
        self.rest = rest;
        true
    }

    /// Reads one of these phrases, and gives its meaning.
    pub fn one_of<T: Copy + Drop>(
        &mut self,
        what: &'static str,
        phrases: &[(&'static str, T)],
    ) -> Result<T, RowFault<'a>> {
        for (phrase, meaning) in phrases {
            if self.takes(phrase) {
                return Ok(*meaning);
            }
        }
        let word = self.word(what)?;
        let mut search = Search::new(self.alloc, word);
        for (phrase, _) in phrases {
            search.compare(phrase)?;
        }
        Err(RowFault::Unknown(word, search.nearest()))
    }

    /// Reads the name of a centre.
    pub fn centre(&mut self) -> Result<u8, RowFault<'a>> {
        let word = self.word("the name of a centre")?;
        if let Some(centre) = self.line.centre_named(word) {
            return Ok(centre);
        }
        let mut search = Search::new(self.alloc, word);
        for c in 0..self.line.centre_count() {
            if let Some(name) = self.line.centre_name(c) {
                search.compare(name)?;
            }
        }
        Err(RowFault::Unknown(word, search.nearest()))
    }

    /// Reads a decimal number up to a greatest one.
    pub fn number(&mut self, most: u32, what: &'static str) -> Result<u32, RowFault<'a>>
        ensures { IfOk result (λ number. number ≤ most) }
    {
        let word = self.word(what)?;
        match number_in(word) {
            Some(number) if number <= most => Ok(number),
            _ => Err(RowFault::Value(word, what)),
        }
    }

    /// The number of a decimal word, if it is the next one.
    pub fn takes_number(&mut self) -> Option<u32> {
        match self.rest {
            [first, rest @ ..] => {
                let number = number_in(first)?;
                self.rest = rest;
                Some(number)
            }
            [] => None,
        }
    }

    /// Reads the number of a section.
    pub fn section(&mut self) -> Result<u16, RowFault<'a>> {
        let number = self.number(65_535, "the number of a section up to 65535")?;
        Ok(u16::try_from(number).unwrap_or(u16::MAX))
    }

    /// Reads NID_ENGINE of a train.
    pub fn engine(&mut self) -> Result<u32, RowFault<'a>>
        ensures { IfOk result (λ nid_engine. nid_engine ≤ 16777215) }
    {
        self.number(16_777_215, "the number of a train up to 16777215")
    }

    /// Refuses a further word.
    pub fn end(&self) -> Result<(), RowFault<'a>>
        ensures { is_ok result ≡ (length self.now.rest.now == 0) }
    {
        match self.rest {
            [] => Ok(()),
            [word, ..] => Err(RowFault::Further(*word)),
        }
    }
}

/// The value of decimal digits.
pub fn number_in(word: &str) -> Option<u32> {
    if word.starts_with('+') {
        return None;
    }
    word.parse().ok()
}
