//! Puts a line that `run` prints into words.

ghost use Rattle.std.specs.Fmt.{decimal};
ghost use Rattle.std.specs.Prelude.{◌++◌, ◌≡◌, [], codes, IfOk, IfSome, option_map, string_bytes, unwrap_or};
ghost use Rattle.rbc_msgs.specs.Faults.{fault_number};
ghost use Rattle.text_words.specs.Meanings.{faults, meaning_of};
ghost use Rattle.text_words.specs.Said.{answered, between, happened, supervisor_words, what_of, who_of};

use crate::faults::words_of_fault;
use crate::row::{Row, row_of};
use crate::said::{track_in_words, train_in_words};
use crate::sections::section_in_words;
use crate::told::Told;
use hex::FromHexError;
use rbc_line::Line;
use rbc_msgs::{MsgFault, TrainMsg, decode_track, decode_train};
use std::alloc::{AllocError, Global};

/// Puts a line that `run` prints for this line into words. None if `run` prints no such line.
pub fn line_in_words(alloc: Global, line: &Line, text: &str) -> Result<Option<Told>, AllocError> {
    let words: Vec<&str> = text.split(' ').collect(alloc)?;
    match row_of(line, &words) {
        Some(Row::Train { centre, digits }) => train_told(alloc, line, centre, digits),
        Some(
            Row::Message {
                centre,
                nid_engine,
                digits,
            },
        ) => message_told(alloc, line, centre, nid_engine, digits),
        Some(row) => row_told(alloc, line, row, text),
        None => Ok(None),
    }
}

/// Puts a line without bytes into words.
fn row_told(
    alloc: Global,
    line: &Line,
    row: Row<'_>,
    text: &str,
) -> Result<Option<Told>, AllocError>
    ensures who { IfOk result (λ told. IfSome told (λ t. string_bytes t.who ≡ who_of row.entry)) }
    ensures what { IfOk result (λ told. IfSome told (λ t. string_bytes t.what ≡ what_of line.now row.entry)) }
    ensures line { IfOk result (λ told. IfSome told (λ t. string_bytes t.line ≡ text.now)) }
{
    Ok(Some(Told {
        who: who_of(alloc, row)?,
        what: what_of(alloc, line, row)?,
        line: String::from_str(alloc, text)?,
    }))
}

/// Puts bytes from a train into words.
fn train_told(
    alloc: Global,
    line: &Line,
    centre: &str,
    digits: &str,
) -> Result<Option<Told>, AllocError> {
    let Some(bytes) = bytes_of(alloc, digits)? else {
        return Ok(None);
    };
    let (who, what) = train_saying(alloc, line, centre, &bytes)?;
    let first = shortened(alloc, &bytes)?;
    let line = format!(in alloc; "> train {centre} {first}")?;
    Ok(Some(Told { who, what, line }))
}

/// The train that sends to the centre, and its message.
fn train_saying(
    alloc: Global,
    line: &Line,
    centre: &str,
    bytes: &[u8],
) -> Result<(String, String), AllocError> {
    match decode_train(alloc, bytes) {
        Ok(message) => said_by(alloc, line, centre, &message),
        Err(fault) => {
            let who = between(alloc, "a train", "->", centre)?;
            Ok((who, fault_in_words(alloc, fault)?))
        }
    }
}

fn said_by(
    alloc: Global,
    line: &Line,
    centre: &str,
    message: &TrainMsg,
) -> Result<(String, String), AllocError> {
    let nid_engine = message.nid_engine();
    let who = format!(in alloc; "train {nid_engine} -> {centre}")?;
    let what = train_in_words(alloc, line, message.body())?;
    Ok((who, what))
}

/// Puts a message to a train into words.
fn message_told(
    alloc: Global,
    line: &Line,
    centre: &str,
    nid_engine: u32,
    digits: &str,
) -> Result<Option<Told>, AllocError> {
    let Some(bytes) = bytes_of(alloc, digits)? else {
        return Ok(None);
    };
    let who = format!(in alloc; "{centre} -> train {nid_engine}")?;
    let what = centre_saying(alloc, line, &bytes)?;
    let line = message_line(alloc, centre, nid_engine, &bytes)?;
    Ok(Some(Told { who, what, line }))
}

/// The line of a message to a train, with only the first bytes if there are many.
fn message_line(
    alloc: Global,
    centre: &str,
    nid_engine: u32,
    bytes: &[u8],
) -> Result<String, AllocError> {
    let first = shortened(alloc, bytes)?;
    format!(in alloc; "{centre} -> {nid_engine} {first}")
}

/// Puts a centre's message to a train into words.
fn centre_saying(alloc: Global, line: &Line, bytes: &[u8]) -> Result<String, AllocError> {
    match decode_track(bytes) {
        Ok(message) => track_in_words(alloc, line, &message),
        Err(fault) => fault_in_words(alloc, fault),
    }
}

fn fault_in_words(alloc: Global, fault: MsgFault) -> Result<String, AllocError>
    ensures { IfOk result (λ text. string_bytes text ≡ codes "no message, fault " ++ (decimal (fault_number fault)
        ++ (codes ": " ++ unwrap_or (meaning_of faults (fault_number fault)) []))) }
{
    let number = fault.number();
    let words = words_of_fault(fault);
    format!(in alloc; "no message, fault {number}: {words}")
}

/// Reads bytes from hexadecimal digits: at least one byte.
fn bytes_of(alloc: Global, digits: &str) -> Result<Option<Vec<u8>>, AllocError> {
    match hex::decode(alloc, digits) {
        Ok(bytes) => Ok(if bytes.is_empty() { None } else { Some(bytes) }),
        Err(FromHexError::OutOfMemory) => Err(AllocError),
        Err(_) => Ok(None),
    }
}

/// Bytes in hexadecimal; if there are more than four, only the first four.
fn shortened(alloc: Global, bytes: &[u8]) -> Result<String, AllocError> {
    if bytes.len() <= 4 {
        return hex::encode_upper(alloc, bytes);
    }
    let first = hex::encode_upper(alloc, &bytes[..4])?;
    format!(in alloc; "{first}…")
}

/// The speaker and the receiver of a line.
fn who_of(alloc: Global, row: Row<'_>) -> Result<String, AllocError>
    ensures { IfOk result (λ text. string_bytes text ≡ who_of row.entry) }
{
    match row {
        Row::Set { centre, .. } => between(alloc, "interlocking", "->", centre),
        Row::Unset { centre, .. } => between(alloc, "interlocking", "->", centre),
        Row::Word { centre, .. } => between(alloc, centre, "->", "interlocking"),
        Row::Deliver { from, to, .. } => between(alloc, from, "=>", to),
        Row::Frame { from, to, .. } => between(alloc, from, "=>", to),
        Row::Section { section, .. } => format!(in alloc; "section {section}"),
        Row::Supervisor { nid_engine, .. } => format!(in alloc; "train {nid_engine}"),
        Row::Silent { centre, .. } => String::from_str(alloc, centre),
        Row::Fault { centre, .. } => String::from_str(alloc, centre),
        Row::Nothing { centre } => String::from_str(alloc, centre),
        Row::NotNext { centre, .. } => String::from_str(alloc, centre),
        Row::Train { centre, .. } => String::from_str(alloc, centre),
        Row::Message { centre, .. } => String::from_str(alloc, centre),
        Row::NotSent => Ok(String::new(alloc)),
        Row::Show => Ok(String::new(alloc)),
    }
}

/// The speaker and the receiver, with an arrow between them.
fn between(alloc: Global, from: &str, arrow: &str, to: &str) -> Result<String, AllocError>
    ensures { IfOk result (λ text. string_bytes text ≡ between from.now arrow.now to.now) }
{
    format!(in alloc; "{from} {arrow} {to}")
}

/// The content of a line, in words. It is empty for bytes: their message has words of its own.
fn what_of(alloc: Global, line: &Line, row: Row<'_>) -> Result<String, AllocError>
    ensures { IfOk result (λ text. string_bytes text ≡ what_of line.now row.entry) }
{
    match row {
        Row::Set { section, .. } => event_in_words(alloc, "section", section.into(), "is released"),
        Row::Unset { section, .. } => {
            event_in_words(alloc, "section", section.into(), "is wanted back")
        }
        Row::Deliver { number, .. } => event_in_words(alloc, "frame", number, "is delivered"),
        Row::Frame { number, words, .. } => answer_in_words(alloc, "frame", number, words),
        Row::Word { section, words, .. } => answer_in_words(
            alloc,
            "section",
            section.into(),
            words,
        ),
        Row::Silent { number, words, .. } => answer_in_words(alloc, "silent", number, words),
        Row::Fault { number, words, .. } => answer_in_words(alloc, "fault", number, words),
        Row::Section {
            section,
            mark,
            train,
            is_wished,
        } => section_in_words(alloc, line, section, mark, train, is_wished),
        Row::Supervisor { centre, .. } => supervisor_in_words(alloc, centre),
        Row::Show => String::from_str(alloc, "the line is shown"),
        Row::Nothing { .. } => String::from_str(alloc, "taken, and nothing is answered"),
        Row::NotSent => String::from_str(alloc, "no such frame was sent"),
        Row::NotNext { words, .. } => String::from_str(alloc, words),
        Row::Train { .. } => Ok(String::new(alloc)),
        Row::Message { .. } => Ok(String::new(alloc)),
    }
}

fn supervisor_in_words(alloc: Global, centre: Option<&str>) -> Result<String, AllocError>
    ensures { IfOk result (λ text. string_bytes text
        ≡ supervisor_words (option_map (λ name. name.now) centre.entry)) }
{
    match centre {
        Some(centre) => format!(in alloc; "supervised by {centre}"),
        None => String::from_str(alloc, "supervised by no centre"),
    }
}

/// The event of a section or a frame, in words.
fn event_in_words(alloc: Global, what: &str, number: u32, words: &str) -> Result<String, AllocError>
    ensures { IfOk result (λ text. string_bytes text ≡ happened what.now number words.now) }
{
    format!(in alloc; "{what} {number} {words}")
}

/// A number with its kind and its meaning.
fn answer_in_words(
    alloc: Global,
    what: &str,
    number: u32,
    words: &str,
) -> Result<String, AllocError>
    ensures { IfOk result (λ text. string_bytes text ≡ answered what.now number words.now) }
{
    format!(in alloc; "{what} {number}: {words}")
}
