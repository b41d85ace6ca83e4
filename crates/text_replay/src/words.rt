//! Events in words.

use rbc_line::Line;
use std::alloc::{AllocError, Global};
use text_script::print::{print_answer, print_event};
use text_script::status::Fault;
use text_script::{Answer, WorldEvent};
use text_words::{Told, line_in_words};

/// An event and its answer, in words.
pub(crate) fn event_in_words(
    alloc: Global,
    line: &Line,
    event: &WorldEvent,
    answer: &Answer,
) -> Result<String, Fault<'static>> {
    let mut printed: Vec<u8> = Vec::new(alloc);
    print_event(alloc, &mut printed, line, event)?;
    print_answer(alloc, &mut printed, line, event, answer)?;
    Ok(rows_in_words(alloc, line, printed.as_slice())?)
}

/// Puts printed lines into words, in order.
pub fn rows_in_words(alloc: Global, line: &Line, printed: &[u8]) -> Result<String, AllocError> {
    let mut words = String::new(alloc);
    let Ok(printed) = std::str::from_utf8(printed) else {
        return Ok(words);
    };
    for row in printed.split('\n') {
        if let Some(told) = line_in_words(alloc, line, row)? {
            add_told(&mut words, &told)?;
        }
    }
    Ok(words)
}

// Adds the speaker and the receiver, if there are any, and the content.
fn add_told(words: &mut String, told: &Told) -> Result<(), AllocError> {
    if !words.is_empty() {
        words.push_str(" · ")?;
    }
    if !told.who.is_empty() {
        words.push_str(told.who.as_str())?;
        words.push_str(": ")?;
    }
    words.push_str(told.what.as_str())
}
