//! Reads a line of words.

use crate::expectation::Expectation;
use crate::expecting::read_expectation;
use crate::known::Defaults;
use crate::row_fault::RowFault;
use crate::sending::{Sending, read_sending};
use crate::words::{Words, words_of};
use rbc_line::Line;
use rbc_world::WorldEvent;
use std::alloc::Global;
use text_script::script::{Entry, EntryFault, entry_of};

/// The content of a line.
#[derive(Drop)]
pub enum Said {
    /// An event, or the request to show the line.
    Entry(Entry),
    /// An expectation of the answer to the event before it.
    Expect(Expectation),
}

#[derive(Clone, Copy)]
enum Verb {
    Train,
    Interlocking,
    Deliver,
    Expect,
    Show,
}

static VERBS: [(&str, Verb); 5] = [
    ("train", Verb::Train),
    ("interlocking", Verb::Interlocking),
    ("deliver", Verb::Deliver),
    ("expect", Verb::Expect),
    ("show", Verb::Show),
];

/// Reads a line: in words, or as a script has it. None for an empty line or a comment.
pub fn said_in<'a>(
    alloc: Global,
    line: &'a Line,
    defaults: &mut Defaults,
    row: &'a str,
) -> Result<Option<Said>, RowFault<'a>> {
    let words = words_of(alloc, row)?;
    if words.is_empty() {
        return Ok(None);
    }
    match entry_of(alloc, line, row) {
        Ok(entry) => Ok(Some(Said::Entry(entry))),
        Err(EntryFault::Memory) => Err(RowFault::Memory),
        Err(EntryFault::Form) => {
            let rest = words.as_slice();
            read_all(Words { alloc, line, rest }, defaults)
        }
    }
}

fn read_all<'a>(
    mut words: Words<'_, 'a>,
    defaults: &mut Defaults,
) -> Result<Option<Said>, RowFault<'a>> {
    let said = read_said(&mut words, defaults)?;
    match words.end() {
        Ok(()) => Ok(Some(said)),
        Err(fault) => Err(fault),
    }
}

fn read_said<'a>(words: &mut Words<'_, 'a>, defaults: &mut Defaults) -> Result<Said, RowFault<'a>> {
    let event = match words.one_of("an event", &VERBS)? {
        Verb::Train => read_train(words, defaults),
        Verb::Interlocking => read_interlocking(words),
        Verb::Deliver => read_delivery(words, defaults),
        Verb::Expect => return Ok(Said::Expect(read_expectation(words)?)),
        Verb::Show => return Ok(Said::Entry(Entry::Show)),
    };
    match event {
        Ok(event) => Ok(Said::Entry(Entry::Event(event))),
        Err(fault) => Err(fault),
    }
}

fn read_train<'a>(
    words: &mut Words<'_, 'a>,
    defaults: &mut Defaults,
) -> Result<WorldEvent, RowFault<'a>> {
    let nid_engine = words.engine()?;
    let known = defaults.known(nid_engine);
    match read_sending(words, nid_engine, &known) {
        Ok(sending) => send(&sending, defaults),
        Err(fault) => Err(fault),
    }
}

fn send<'a>(sending: &Sending, defaults: &mut Defaults) -> Result<WorldEvent, RowFault<'a>> {
    Ok(defaults.send(&sending.sent, sending.t_train)?)
}

static ACTS: [(&str, bool); 2] = [("release", true), ("take back", false)];

// Reads `release A 3` or `take back A 3`.
fn read_interlocking<'a>(words: &mut Words<'_, 'a>) -> Result<WorldEvent, RowFault<'a>> {
    let is_release = words.one_of("`release` or `take back`", &ACTS)?;
    let centre = words.centre()?;
    let section = words.section()?;
    Ok(if is_release {
        WorldEvent::Set { centre, section }
    } else {
        WorldEvent::Unset { centre, section }
    })
}

static ARROW: [(&str, ()); 1] = [("->", ())];

// Reads `A -> B`, or `A -> B 2`.
fn read_delivery<'a>(
    words: &mut Words<'_, 'a>,
    defaults: &mut Defaults,
) -> Result<WorldEvent, RowFault<'a>> {
    let from = words.centre()?;
    words.one_of("`->`", &ARROW)?;
    let to = words.centre()?;
    let number = match words.rest {
        [] => None,
        _ => Some(words.number(u32::MAX, "the number of a frame")?),
    };
    Ok(defaults.deliver(from, to, number)?)
}
