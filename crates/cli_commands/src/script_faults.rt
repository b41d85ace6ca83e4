//! The reason why a line of a script is refused.

ghost use Rattle.std.specs.List.{slice_split};
ghost use Rattle.std.specs.Prelude.{◌==◌, ◌≡◌, ◌↔◌, IfOk, IfSome, IsSome, IsTrue, map, None, option_map};
ghost use Rattle.cli_commands.specs.Forms.{form_of};
ghost use Rattle.cli_commands.specs.RowFaults.{HasBlank, HasOuterBlank, IsAtCentre, IsByBlanks, IsByBytes, IsByCentre};
ghost use Rattle.cli_commands.specs.RowFaults.{IsByForm, IsByFrame, IsByThree, IsByWords, IsReason};
ghost use Rattle.text_script.specs.Script.{row_asks};

use crate::nearest::{Nearest, nearest_centre, nearest_of};
use rbc_line::Line;
use std::alloc::{AllocError, Global};
use text_script::script::{EntryFault, entry_of};
use thiserror::Error;

/// The reason why a line of a script is refused.
#[derive(Clone, Copy, Debug, Error)]
pub enum RowFault<'a> {
    #[error("a carriage return: each line ends with a line feed alone")]
    CarriageReturn,
    #[error("a tab: one blank is between two words")]
    Tab,
    #[error("a blank too many: one is between two words, and none before the first or after the last")]
    Blank,
    #[error("this is a line of a print: a script has its events without `> `")]
    Printed,
    #[error("a comment has a line of its own, which begins with `#`")]
    Comment,
    #[error("no event is named `{0}`{1}")]
    Verb(&'a str, Nearest<'static>),
    #[error("the form is `{0}`")]
    Form(&'static str),
    #[error("no centre is named `{0}`{1}")]
    Centre(&'a str, Nearest<'a>),
    #[error("`{0}` is not hexadecimal: two digits a byte, without blanks and without `0x`")]
    Bytes(&'a str),
    #[error("the number of hexadecimal digits is odd: {0}")]
    OddDigits(usize),
    #[error("`{0}` is not the number of a section: a decimal number up to 65535, without a sign")]
    Section(&'a str),
    #[error("`{0}` is not the number of a frame: a decimal number up to 4294967295, without a sign")]
    Frame(&'a str),
}

/// The names of the events of a script, and `show`.
static VERBS: [&str; 5] = ["show", "train", "set", "unset", "deliver"];

/// The reason why a line that is not skipped is refused. None if it is not refused.
pub fn row_fault<'a>(
    alloc: Global,
    line: &'a Line,
    row: &'a str,
) -> Result<Option<RowFault<'a>>, AllocError>
    ensures refused { IfOk result (λ fault. (fault ≡ None) ↔ IsSome (row_asks line.now row.now)) }
    ensures reason { IfOk result (λ fault. IfSome fault (IsReason line.now row.now)) }
{
    match entry_of(alloc, line, row) {
        Ok(_) => Ok(None),
        Err(EntryFault::Memory) => Err(AllocError),
        Err(EntryFault::Form) => Ok(Some(fault_of(alloc, line, row)?)),
    }
}

// The reason why this refused line is refused.
fn fault_of<'a>(alloc: Global, line: &'a Line, row: &'a str) -> Result<RowFault<'a>, AllocError>
    ensures { IfOk result (IsReason line.now row.now) }
{
    match fault_of_blanks(row) {
        Some(fault) => Ok(fault),
        None => fault_of_words(alloc, line, row),
    }
}

// The first character that no line of a script has, or the blanks that none has.
fn fault_of_blanks<'a>(row: &str) -> Option<RowFault<'a>>
    ensures { IsByBlanks row.now result }
{
    if row.contains('\r') {
        Some(RowFault::CarriageReturn)
    } else if row.contains('\t') {
        Some(RowFault::Tab)
    } else if row.starts_with("> ") {
        Some(RowFault::Printed)
    } else if row.contains(" #") {
        Some(RowFault::Comment)
    } else if has_blank(row) {
        Some(RowFault::Blank)
    } else {
        None
    }
}

// Whether a line has a blank too many.
fn has_blank(row: &str) -> bool
    ensures { IsTrue result ↔ HasBlank row.now }
{
    has_outer_blank(row) || row.contains("  ")
}

// Whether a blank begins or ends the line.
fn has_outer_blank(row: &str) -> bool
    ensures { IsTrue result ↔ HasOuterBlank row.now }
{
    row.starts_with(' ') || row.ends_with(' ')
}

// The fault of the words of a line.
fn fault_of_words<'a>(
    alloc: Global,
    line: &'a Line,
    row: &'a str,
) -> Result<RowFault<'a>, AllocError>
    ensures { IfOk result (IsByWords line.now (slice_split (λ b. b == 32) row.now)) }
{
    let words = words_of(alloc, row)?;
    fault_in(alloc, line, &words)
}

// The words of a line: one blank is between two of them.
fn words_of<'a>(alloc: Global, row: &'a str) -> Result<Vec<&'a str>, AllocError>
    ensures { IfOk result (λ words. map (λ word. word.now) words.items ≡ slice_split (λ b. b == 32) row.entry.now) }
{
    row.split(' ').collect(alloc)
}

// The fault of a line with these words.
fn fault_in<'a>(
    alloc: Global,
    line: &'a Line,
    words: &[&'a str],
) -> Result<RowFault<'a>, AllocError>
    ensures { IfOk result (IsByWords line.now (map (λ word. word.now) words.now)) }
{
    match words {
        [verb, centre, word] => fault_of_three(alloc, line, verb, centre, word),
        [verb, from, to, number] => {
            if *verb == "deliver" {
                fault_of_delivery(alloc, line, from, to, number)
            } else {
                fault_of_form(alloc, verb)
            }
        }
        [verb, ..] => fault_of_form(alloc, verb),
        [] => Ok(RowFault::Blank),
    }
}

// The fault of an event that reaches a centre, or of a line with another form than its event has.
fn fault_of_three<'a>(
    alloc: Global,
    line: &'a Line,
    verb: &'a str,
    centre: &'a str,
    word: &'a str,
) -> Result<RowFault<'a>, AllocError>
    ensures { IfOk result (IsByThree line.now verb.now centre.now word.now) }
{
    match verb {
        "train" => fault_at_centre(alloc, line, centre, fault_of_bytes(word)),
        "set" | "unset" => fault_at_centre(alloc, line, centre, RowFault::Section(word)),
        _ => fault_of_form(alloc, verb),
    }
}

// The fault of a line with another form than its event has.
fn fault_of_form<'a>(alloc: Global, verb: &'a str) -> Result<RowFault<'a>, AllocError>
    ensures { IfOk result (IsByForm (form_of verb.now) verb.now) }
{
    match form_of(verb) {
        Some(form) => Ok(RowFault::Form(form)),
        None => Ok(RowFault::Verb(verb, nearest_of(alloc, verb, &VERBS)?)),
    }
}

// The form of an event. None if no event has this name.
fn form_of(verb: &str) -> Option<&'static str>
    ensures { option_map (λ form. form.now) result ≡ form_of verb.now }
{
    match verb {
        "show" => Some("show"),
        "train" => Some("train CENTRE BYTES"),
        "set" => Some("set CENTRE SECTION"),
        "unset" => Some("unset CENTRE SECTION"),
        "deliver" => Some("deliver CENTRE CENTRE FRAME"),
        _ => None,
    }
}

// The fault of a centre's name. If the line has the centre, it is the other fault.
fn fault_at_centre<'a>(
    alloc: Global,
    line: &'a Line,
    centre: &'a str,
    other: RowFault<'a>,
) -> Result<RowFault<'a>, AllocError>
    ensures { IfOk result (IsByCentre line.now centre.now other.entry) }
{
    if line.centre_named(centre).is_some() {
        return Ok(other);
    }
    Ok(RowFault::Centre(centre, nearest_centre(alloc, line, centre)?))
}

fn fault_of_bytes(digits: &str) -> RowFault<'_>
    ensures { IsByBytes digits.now result }
{
    if digits.bytes().all(|digit| digit.is_ascii_hexdigit()) {
        RowFault::OddDigits(digits.len())
    } else {
        RowFault::Bytes(digits)
    }
}

fn fault_of_delivery<'a>(
    alloc: Global,
    line: &'a Line,
    from: &'a str,
    to: &'a str,
    number: &'a str,
) -> Result<RowFault<'a>, AllocError>
    // The first centre's name is tested first.
    ensures { IfOk result (IsAtCentre line.now from.now (IsAtCentre line.now to.now (IsByFrame number.now))) }
{
    let second = fault_at_centre(alloc, line, to, RowFault::Frame(number))?;
    fault_at_centre(alloc, line, from, second)
}
