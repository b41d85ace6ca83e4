//! The forms of the printed lines about the state of the line: the use of each section, and the supervisor of each
//! train.

use crate::numbers::{number_of, section_number};
use crate::row::{Row, centre_of};
use rbc_line::Line;

/// Reads a section with its use.
pub fn section_of<'a>(line: &Line, words: &[&'a str]) -> Option<Row<'a>> {
    match words {
        [number, home, word, rest @ ..] => use_of(section_at(line, number, home)?, word, rest),
        _ => None,
    }
}

/// Reads the use of a section.
fn use_of<'a>(section: u16, word: &str, rest: &[&'a str]) -> Option<Row<'a>> {
    match *rest {
        [] => free_of(section, word, false),
        [last] => free_or_used_of(section, word, last),
        [train, last] => wished_of(section, word, train, last),
        _ => None,
    }
}

/// Reads the use of a section: either wished back and unused, or used and not wished back.
fn free_or_used_of<'a>(section: u16, word: &str, last: &str) -> Option<Row<'a>> {
    match last {
        "wished" => free_of(section, word, true),
        _ => used_of(section, word, number_of(last)?, false),
    }
}

/// Reads the use of a section that is in use and wished back.
fn wished_of<'a>(section: u16, word: &str, train: &str, last: &str) -> Option<Row<'a>> {
    match last {
        "wished" => used_of(section, word, number_of(train)?, true),
        _ => None,
    }
}

/// The number of a section of the line, if the home is a centre of the line.
fn section_at(line: &Line, number: &str, home: &str) -> Option<u16> {
    centre_of(line, home)?;
    let section = section_number(number)?;
    line.section(section)?;
    Some(section)
}

/// A section that no train uses.
fn free_of<'a>(section: u16, word: &str, is_wished: bool) -> Option<Row<'a>> {
    let mark = match word {
        "shut" => "shut",
        "open" => "open",
        _ => return None,
    };
    Some(Row::Section {
        section,
        mark,
        train: None,
        is_wished,
    })
}

/// A section that a train uses.
fn used_of<'a>(section: u16, word: &str, nid_engine: u32, is_wished: bool) -> Option<Row<'a>> {
    let mark = match word {
        "kept" => "kept for",
        "given" => "in the authority of",
        _ => return None,
    };
    Some(Row::Section {
        section,
        mark,
        train: Some(nid_engine),
        is_wished,
    })
}

/// Reads a train with its supervisor.
pub fn supervisor_of<'a>(line: &Line, words: &[&'a str]) -> Option<Row<'a>> {
    match *words {
        [train, name] => supervised(line, number_of(train)?, name),
        _ => None,
    }
}

fn supervised<'a>(line: &Line, nid_engine: u32, name: &'a str) -> Option<Row<'a>> {
    let centre = match name {
        "none" => None,
        _ => Some(centre_of(line, name)?),
    };
    Some(Row::Supervisor { nid_engine, centre })
}
