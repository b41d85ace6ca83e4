//! The forms of the lines that `run` prints.

use crate::faults::{words_of_fault_number, words_of_reason, words_of_word};
use crate::frames::{words_of_body, words_of_late};
use crate::numbers::{number_of, section_number};
use crate::shown::{section_of, supervisor_of};
use rbc_line::Line;

/// A line that `run` prints, by its form. Centres have the names of the line file.
#[derive(Clone, Copy)]
pub enum Row<'a> {
    /// Bytes arrive from a train.
    Train {
        centre: &'a str,
        digits: &'a str,
    },
    Set {
        centre: &'a str,
        section: u16,
    },
    Unset {
        centre: &'a str,
        section: u16,
    },
    /// A frame is delivered.
    Deliver {
        from: &'a str,
        to: &'a str,
        number: u32,
    },
    Show,
    /// A message to a train.
    Message {
        centre: &'a str,
        nid_engine: u32,
        digits: &'a str,
    },
    /// A frame to another centre.
    Frame {
        from: &'a str,
        to: &'a str,
        number: u32,
        words: &'static str,
    },
    /// A delivered frame is not the next one.
    NotNext {
        centre: &'a str,
        words: &'static str,
    },
    /// A reply to the interlocking.
    Word {
        centre: &'a str,
        section: u16,
        words: &'static str,
    },
    /// A message has no answer, for the reason of this number.
    Silent {
        centre: &'a str,
        number: u32,
        words: &'static str,
    },
    /// Bytes have the fault of this number.
    Fault {
        centre: &'a str,
        number: u32,
        words: &'static str,
    },
    Nothing {
        centre: &'a str,
    },
    NotSent,
    /// The use of a section, and the train that uses it, if there is one.
    Section {
        section: u16,
        mark: &'static str,
        train: Option<u32>,
        is_wished: bool,
    },
    /// The supervisor of a train, if there is one.
    Supervisor {
        nid_engine: u32,
        centre: Option<&'a str>,
    },
}

/// Finds the form of a line by its words. None if `run` prints no such line.
pub fn row_of<'a>(line: &Line, words: &[&'a str]) -> Option<Row<'a>> {
    match words {
        [first, rest @ ..] => row_from(line, first, rest),
        [] => None,
    }
}

fn row_from<'a>(line: &Line, first: &'a str, rest: &[&'a str]) -> Option<Row<'a>> {
    let told = match first {
        ">" => event_of(line, rest),
        "section" => section_of(line, rest),
        "train" => supervisor_of(line, rest),
        "not" => not_sent_of(rest),
        _ => None,
    };
    if told.is_some() {
        return told;
    }
    answer_of(line, centre_of(line, first)?, rest)
}

fn not_sent_of<'a>(words: &[&'a str]) -> Option<Row<'a>> {
    match *words {
        ["sent"] => Some(Row::NotSent),
        _ => None,
    }
}

fn event_of<'a>(line: &Line, words: &[&'a str]) -> Option<Row<'a>> {
    match *words {
        [verb] => show_of(verb),
        [verb, centre, word] => event_at(centre_of(line, centre)?, verb, word),
        [verb, from, to, number] => delivery_of(line, verb, (from, to), number),
        _ => None,
    }
}

fn show_of<'a>(verb: &str) -> Option<Row<'a>> {
    match verb {
        "show" => Some(Row::Show),
        _ => None,
    }
}

fn delivery_of<'a>(
    line: &Line,
    verb: &str,
    (from, to): (&'a str, &'a str),
    number: &str,
) -> Option<Row<'a>> {
    if verb != "deliver" {
        return None;
    }
    let from = centre_of(line, from)?;
    let to = centre_of(line, to)?;
    let number = number_of(number)?;
    Some(Row::Deliver { from, to, number })
}

/// Reads an event that reaches a centre from a train or from the interlocking.
fn event_at<'a>(centre: &'a str, verb: &str, word: &'a str) -> Option<Row<'a>> {
    match verb {
        "train" => Some(Row::Train {
            centre,
            digits: word,
        }),
        "set" => Some(Row::Set {
            centre,
            section: section_number(word)?,
        }),
        "unset" => Some(Row::Unset {
            centre,
            section: section_number(word)?,
        }),
        _ => None,
    }
}

fn answer_of<'a>(line: &Line, centre: &'a str, words: &[&'a str]) -> Option<Row<'a>> {
    match *words {
        [word] => late_of(centre, word),
        [first, second] => pair_of(centre, first, second),
        [arrow, train, digits] => message_of(centre, arrow, train, digits),
        [arrow, to, number, name] => sent_of(line, centre, arrow, to, (number, name)),
        _ => None,
    }
}

/// Reads the remark that a frame was not the next one, or that a step sends nothing.
fn late_of<'a>(centre: &'a str, word: &str) -> Option<Row<'a>> {
    if word == "ok" {
        return Some(Row::Nothing { centre });
    }
    let words = words_of_late(word)?;
    Some(Row::NotNext { centre, words })
}

fn pair_of<'a>(centre: &'a str, first: &str, second: &str) -> Option<Row<'a>> {
    match first {
        "silent" => silent_of(centre, second),
        "fault" => fault_of(centre, second),
        _ => word_of(centre, first, second),
    }
}

fn message_of<'a>(centre: &'a str, arrow: &str, train: &str, digits: &'a str) -> Option<Row<'a>> {
    if arrow != "->" {
        return None;
    }
    let nid_engine = number_of(train)?;
    Some(Row::Message {
        centre,
        nid_engine,
        digits,
    })
}

fn sent_of<'a>(
    line: &Line,
    from: &'a str,
    arrow: &str,
    to: &'a str,
    (number, name): (&str, &str),
) -> Option<Row<'a>> {
    if arrow != "=>" {
        return None;
    }
    frame_of(from, centre_of(line, to)?, number, name)
}

fn frame_of<'a>(from: &'a str, to: &'a str, number: &str, name: &str) -> Option<Row<'a>> {
    Some(Row::Frame {
        from,
        to,
        number: number_of(number)?,
        words: words_of_body(name)?,
    })
}

fn word_of<'a>(centre: &'a str, number: &str, word: &str) -> Option<Row<'a>> {
    Some(Row::Word {
        centre,
        section: section_number(number)?,
        words: words_of_word(word)?,
    })
}

fn silent_of<'a>(centre: &'a str, number: &str) -> Option<Row<'a>> {
    let number = number_of(number)?;
    let words = words_of_reason(number)?;
    Some(Row::Silent {
        centre,
        number,
        words,
    })
}

fn fault_of<'a>(centre: &'a str, number: &str) -> Option<Row<'a>> {
    let number = number_of(number)?;
    let words = words_of_fault_number(number)?;
    Some(Row::Fault {
        centre,
        number,
        words,
    })
}

/// The name, if a centre of the line has it.
pub fn centre_of<'a>(line: &Line, name: &'a str) -> Option<&'a str> {
    line.centre_named(name).map(|_| name)
}
