//! A train's file, and the steps of its lines.

ghost use Rattle.std.specs.Prelude.{◌≡◌, ◌<◌, ◌==◌, IfOk, IfErr, map};
ghost use Rattle.std.specs.List.{slice_split};
ghost use Rattle.cli_drive.specs.Lines.{asked, bytes_of, number_of, row_asks, rows, whole_rows};
ghost use Rattle.cli_drive.specs.Steps.{AreAsked, Finds, IsFirstFault, step_asks};

use hex::FromHexError;
use std::alloc::{AllocError, AllocFailed, Global};

/// The step of one line of a train's file.
#[derive(Debug, Drop)]
pub enum Step {
    /// Send these bytes.
    Send(Vec<u8>),
    /// Read this many messages.
    Wait(u16),
}

/// Why a train's file is refused.
#[derive(Clone, Copy, Debug, PartialEq, Eq)]
pub enum StepsFault {
    /// Memory ran out.
    Memory,
    /// A line has no valid form: the number of the first such line, from 1.
    Form(usize),
}

/// Why a line is refused.
#[derive(Clone, Copy)]
enum StepFault {
    Memory,
    Form,
}

impl From<AllocError> for StepsFault {
    ghost use Rattle.cli_drive.specs.declared.steps.StepsFault.TheVariants.{Memory};

    ghost from_gives = { λ _ fault. fault ≡ Memory };

    fn from(_error: AllocError) -> StepsFault {
        StepsFault::Memory
    }
}

impl<T: Drop> From<AllocFailed<T>> for StepsFault {
    ghost use Rattle.cli_drive.specs.declared.steps.StepsFault.TheVariants.{Memory};

    ghost from_gives = { λ _ fault. fault ≡ Memory };

    fn from(_error: AllocFailed<T>) -> StepsFault {
        StepsFault::Memory
    }
}

impl From<AllocError> for StepFault {
    ghost use Rattle.cli_drive.specs.declared.steps.StepFault.TheVariants.{Memory};

    ghost from_gives = { λ _ fault. fault ≡ Memory };

    fn from(_error: AllocError) -> StepFault {
        StepFault::Memory
    }
}

/// Reads the steps of a train's file, in order. Pairs of hexadecimal digits are sent. `wait` with a number of at most
/// 65 535 reads this many messages. A last line needs no line feed.
pub fn steps_of(alloc: Global, text: &str) -> Result<Vec<Step>, StepsFault>
    ensures asked { IfOk result (λ steps. AreAsked (whole_rows (rows text.now)) steps.items) }
    ensures fault { IfErr result (IsFirstFault (whole_rows (rows text.now))) }
{
    let rows = parts(alloc, text, '\n')?;
    steps_in(alloc, whole_rows_of(&rows))
}

/// The lines of a file. Bytes after the last line feed are a line; an empty rest is not.
pub(crate) fn whole_rows_of<'a, 't>(rows: &'a [&'t str]) -> &'a [&'t str]
    ensures { map (λ row. row.now) result.now ≡ whole_rows (map (λ row. row.now) rows.now) }
{
    let Some((last, before)) = rows.split_last() else {
        return rows;
    };
    if last.is_empty() {
        return before;
    }
    rows
}

fn steps_in(alloc: Global, rows: &[&str]) -> Result<Vec<Step>, StepsFault>
    ensures asked { IfOk result (λ steps. AreAsked (map (λ row. row.now) rows.now) steps.items) }
    ensures fault { IfErr result (IsFirstFault (map (λ row. row.now) rows.now)) }
{
    let mut steps = Vec::new(alloc);
    for (i, row) in rows.iter().enumerate() {
        match step_of(alloc, row) {
            Ok(step) => steps.push(step)?,
            Err(StepFault::Memory) => return Err(StepsFault::Memory),
            Err(StepFault::Form) => return Err(StepsFault::Form(i + 1)),
        }
    }
    Ok(steps)
}

#[tactic(auto, unfolding(crate::specs::Lines::row_asks))]
fn step_of(alloc: Global, row: &str) -> Result<Step, StepFault>
    ensures { Finds step_asks result (row_asks row.now) }
{
    let words = parts(alloc, row, ' ')?;
    step_in(alloc, &words)
}

fn step_in(alloc: Global, words: &[&str]) -> Result<Step, StepFault>
    ensures { Finds step_asks result (asked (map (λ word. word.now) words.now)) }
{
    match words {
        [digits] => Ok(Step::Send(bytes_in(alloc, digits)?)),
        [verb, count] if *verb == "wait" => Ok(Step::Wait(count_in(count)?)),
        _ => Err(StepFault::Form),
    }
}

/// Splits a text at each separator.
pub(crate) fn parts<'a>(
    alloc: Global,
    text: &'a str,
    separator: char,
) -> Result<Vec<&'a str>, AllocError>
    requires { separator < 128 }
    ensures { IfOk result
        (λ parts. map (λ part. part.now) parts.items ≡ slice_split (λ b. b == separator) text.entry.now) }
{
    text.split(separator).collect(alloc)
}

/// Reads bytes from pairs of hexadecimal digits: at least one byte.
fn bytes_in(alloc: Global, word: &str) -> Result<Vec<u8>, StepFault>
    ensures { Finds (λ bytes. bytes.items) result (bytes_of word.now) }
{
    if word.is_empty() {
        return Err(StepFault::Form);
    }
    match hex::decode(alloc, word) {
        Ok(bytes) => Ok(bytes),
        Err(FromHexError::OutOfMemory) => Err(StepFault::Memory),
        Err(_) => Err(StepFault::Form),
    }
}

/// Reads the number of messages: decimal digits without a sign, if the value fits in 16 bits.
fn count_in(word: &str) -> Result<u16, StepFault>
    ensures { Finds (λ n. n) result (number_of word.now) }
{
    if word.starts_with('+') {
        return Err(StepFault::Form);
    }
    match word.parse() {
        Ok(number) => Ok(number),
        Err(_) => Err(StepFault::Form),
    }
}
