//! Reads a line after an event. Its message, reply or silence is printed again, and both lines have to be equal.

ghost use Rattle.std.specs.Prelude.{◌≡◌, ◌≢◌, ◌++◌, ◌∷◌, [], IfOk, List, true, ℕ};
ghost use Rattle.rbc_watch.specs.Events.{saying_of, word_of};
ghost use Rattle.text_script.specs.Print.Answers.{IsSayingRow};
ghost use Rattle.rbc_spec.specs.Outcome as outcome;
ghost use Rattle.text_script.specs.Print.Rows.{word_row as spelled_word};
ghost use Rattle.text_prints.specs.Parts.{IsRowOf, SaysNothing, SpellsSilence};

use crate::fault::RowFault;
use crate::part::Part;
use hex::FromHexError;
use rbc_line::Line;
use rbc_msgs::{MsgFault, decode_track, encode_track};
use rbc_watch::{Saying, Word};
use std::alloc::Global;
use std::io::Write;
use text_words::{Row, row_of};

/// Reads a line after an event at the centre of this name.
pub(crate) fn part_in(alloc: Global, line: &Line, centre: &str, row: &str) -> Result<Part, RowFault>
    ensures { IfOk result (λ part. IsRowOf centre.now part (row.now ++ 10 ∷ [])) }
{
    match guessed(alloc, line, centre, row)? {
        Part::Said(saying) => said(alloc, centre, saying, row),
        Part::Replied(word) => replied(alloc, centre, word, row),
        Part::Silent(reason) => silent(alloc, centre, reason, row),
        Part::Accepted => accepted(alloc, centre, row),
        Part::Nothing => nothing(alloc, centre, row),
    }
}

/// Whether the line is about the state of the centres.
pub(crate) fn is_state(alloc: Global, line: &Line, row: &str) -> Result<bool, RowFault> {
    let words: Vec<&str> = row.split(' ').collect(alloc)?;
    Ok(matches!(
        row_of(line, &words),
        Some(Row::Section { .. } | Row::Supervisor { .. })
    ))
}

// The part that the line seems to be.
fn guessed(alloc: Global, line: &Line, centre: &str, row: &str) -> Result<Part, RowFault> {
    let words: Vec<&str> = row.split(' ').collect(alloc)?;
    let Some(found) = row_of(line, &words) else {
        return Err(RowFault::Form);
    };
    if let Some(at) = centre_in(found)
        && at != centre
    {
        return Err(RowFault::OtherCentre);
    }
    match found {
        Row::Message {
            nid_engine,
            digits,
            ..
        } => said_in(alloc, nid_engine, digits),
        Row::Word { section, .. } => word_in(section, words.last().copied().unwrap_or("")),
        Row::Silent { number, .. } => Ok(Part::Silent(u8::try_from(number).unwrap_or(0))),
        Row::Frame { .. } | Row::NotNext { .. } | Row::Nothing { .. } => Ok(Part::Accepted),
        Row::Fault { .. } | Row::NotSent | Row::Section { .. } | Row::Supervisor { .. } => {
            Ok(Part::Nothing)
        }
        Row::Train { .. } | Row::Set { .. } | Row::Unset { .. } | Row::Deliver { .. } | Row::Show =>
            Err(RowFault::Form),
    }
}

// The centre that a line is about.
fn centre_in<'a>(row: Row<'a>) -> Option<&'a str> {
    match row {
        Row::Message { centre, .. }
        | Row::NotNext { centre, .. }
        | Row::Word { centre, .. }
        | Row::Silent { centre, .. }
        | Row::Fault { centre, .. }
        | Row::Nothing { centre } => Some(centre),
        Row::Frame { from, .. } => Some(from),
        _ => None,
    }
}

// The message to a train in these hexadecimal digits.
fn said_in(alloc: Global, nid_engine: u32, digits: &str) -> Result<Part, RowFault> {
    let bytes = match hex::decode(alloc, digits) {
        Ok(bytes) => bytes,
        Err(FromHexError::OutOfMemory) => return Err(RowFault::Memory),
        Err(_) => return Err(RowFault::Form),
    };
    match decode_track(&bytes) {
        Ok(message) => Ok(Part::Said(Saying {
            nid_engine,
            message,
        })),
        Err(MsgFault::Memory) => Err(RowFault::Memory),
        Err(fault) => Err(RowFault::NoMessage(fault)),
    }
}

// The reply about a section that ends with this word.
fn word_in(section: u16, word: &str) -> Result<Part, RowFault> {
    match word {
        "Done" => Ok(Part::Replied(Word::Done(section))),
        "Asked" => Ok(Part::Replied(Word::Asked(section))),
        "NotHome" => Ok(Part::Replied(Word::NotHome(section))),
        "Told" => Ok(Part::Replied(Word::Told(section))),
        _ => Err(RowFault::Form),
    }
}

// The message, if this is its line.
#[tactic(auto, using(crate::proofs::Parts::same_saying))]
fn said(alloc: Global, centre: &str, saying: Saying, row: &str) -> Result<Part, RowFault>
    ensures { IfOk result (λ part. IsRowOf centre.now part (row.now ++ 10 ∷ [])) }
{
    let text = saying_row(alloc, centre, &saying)?;
    if !is_row(&text, row) {
        return Err(RowFault::Form);
    }
    Ok(Part::Said(saying))
}

// The reply, if this is its line.
fn replied(alloc: Global, centre: &str, word: Word, row: &str) -> Result<Part, RowFault>
    ensures { IfOk result (λ part. IsRowOf centre.now part (row.now ++ 10 ∷ [])) }
{
    let text = word_row(alloc, centre, word)?;
    if !is_row(&text, row) {
        return Err(RowFault::Form);
    }
    Ok(Part::Replied(word))
}

// The silence for this reason, if this is its line.
fn silent(alloc: Global, centre: &str, reason: u8, row: &str) -> Result<Part, RowFault>
    ensures { IfOk result (λ part. IsRowOf centre.now part (row.now ++ 10 ∷ [])) }
{
    if reason == 0 || reason > 10 {
        return Err(RowFault::Form);
    }
    let text = silence_row(alloc, centre, reason)?;
    if is_row(&text, row) {
        Ok(Part::Silent(reason))
    } else {
        Err(RowFault::Form)
    }
}

// The line of a message to a train.
fn saying_row(alloc: Global, centre: &str, saying: &Saying) -> Result<Vec<u8>, RowFault>
    ensures { IfOk result (λ text. IsSayingRow centre.now (saying_of saying.now) text.items) }
{
    let Ok(bytes) = encode_track(alloc, &saying.message) else {
        return Err(RowFault::Memory);
    };
    let digits = hex::encode_upper(alloc, &bytes)?;
    let mut text = Vec::new(alloc);
    if writeln!(text, "{centre} -> {} {digits}", saying.nid_engine).is_err() {
        return Err(RowFault::Memory);
    }
    Ok(text)
}

// The line of a reply to the interlocking.
fn word_row(alloc: Global, centre: &str, word: Word) -> Result<Vec<u8>, RowFault>
    ensures { IfOk result (λ text. text.items ≡ spelled_word centre.now (word_of word)) }
{
    let (section, told) = match word {
        Word::Done(section) => (section, "Done"),
        Word::Asked(section) => (section, "Asked"),
        Word::NotHome(section) => (section, "NotHome"),
        Word::Told(section) => (section, "Told"),
    };
    let mut text = Vec::new(alloc);
    if writeln!(text, "{centre} {section} {told}").is_err() {
        return Err(RowFault::Memory);
    }
    Ok(text)
}

// The line of a silence.
fn silence_row(alloc: Global, centre: &str, reason: u8) -> Result<Vec<u8>, RowFault>
    ensures { IfOk result (λ text. SpellsSilence centre.now reason text.items) }
{
    let mut text = Vec::new(alloc);
    if writeln!(text, "{centre} silent {reason}").is_err() {
        return Err(RowFault::Memory);
    }
    Ok(text)
}

// A frame to another centre, or a remark.
fn accepted(alloc: Global, centre: &str, row: &str) -> Result<Part, RowFault>
    ensures { IfOk result (λ part. IsRowOf centre.now part (row.now ++ 10 ∷ [])) }
{
    refuse_said(alloc, centre, row)?;
    refuse_sign(alloc, centre, " fault ", row)?;
    if row == "not sent" {
        Err(RowFault::Form)
    } else {
        Ok(Part::Accepted)
    }
}

// A fault, a frame that was not sent, or the state of the centres.
fn nothing(alloc: Global, centre: &str, row: &str) -> Result<Part, RowFault>
    ensures { IfOk result (λ part. IsRowOf centre.now part (row.now ++ 10 ∷ [])) }
{
    refuse_said(alloc, centre, row)?;
    refuse_sign(alloc, centre, " => ", row)?;
    refuse_sign(alloc, centre, " ok", row)?;
    refuse_sign(alloc, centre, " old", row)?;
    refuse_sign(alloc, centre, " early", row)?;
    Ok(Part::Nothing)
}

// Refuses a message, a reply or a silence of the centre.
fn refuse_said(alloc: Global, centre: &str, row: &str) -> Result<(), RowFault>
    ensures { IfOk result (λ _. SaysNothing centre.now (row.now ++ 10 ∷ [])) }
{
    refuse_sign(alloc, centre, " -> ", row)?;
    refuse_sign(alloc, centre, " silent ", row)?;
    refuse_reply(row)?;
    Ok(())
}

// Refuses a line that begins with the name and the sign.
fn refuse_sign(alloc: Global, centre: &str, sign: &str, row: &str) -> Result<(), RowFault>
    ensures { IfOk result (λ _. (rest : List ℕ) → row.now ≢ (centre.now ++ sign.now) ++ rest) }
{
    let beginning = format!(in alloc; "{centre}{sign}")?;
    if row.as_bytes().starts_with(beginning.as_bytes()) {
        Err(RowFault::Form)
    } else {
        Ok(())
    }
}

// Refuses a line that ends as a reply to the interlocking does.
fn refuse_reply(row: &str) -> Result<(), RowFault>
    ensures { IfOk result
        (λ _. (c : List ℕ) (w : outcome.Word) → row.now ++ 10 ∷ [] ≢ spelled_word c w) }
{
    refuse_end(row, " Done")?;
    refuse_end(row, " Asked")?;
    refuse_end(row, " NotHome")?;
    refuse_end(row, " Told")?;
    Ok(())
}

// Refuses a line that ends with this word.
fn refuse_end(row: &str, word: &str) -> Result<(), RowFault>
    ensures { IfOk result (λ _. (front : List ℕ) → row.now ≢ front ++ word.now) }
{
    if row.as_bytes().ends_with(word.as_bytes()) {
        Err(RowFault::Form)
    } else {
        Ok(())
    }
}

// Whether the text is the line with its line feed.
fn is_row(text: &[u8], row: &str) -> bool
    ensures { result ≡ true → text.now ≡ row.now ++ 10 ∷ [] }
{
    match text.split_last() {
        Some((last, front)) => *last == b'\n' && front == row.as_bytes(),
        None => false,
    }
}
