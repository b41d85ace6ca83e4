//! A script: one event on each line, its words separated by one blank. Empty lines, and lines that begin with `#`,
//! are skipped.

ghost use Rattle.std.specs.Prelude.{◌≡◌, ◌<◌, ◌==◌, IfOk, IfErr, map};
ghost use Rattle.std.specs.List.{slice_split};
ghost use Rattle.text_script.specs.Script.{asked, at_centre_of, bytes_of, centre_named, delivery_of, is_kept};
ghost use Rattle.text_script.specs.Script.{number_of, row_asks, rows, set_of, show_of, train_of, unset_of};
ghost use Rattle.text_script.specs.Entries.{AreAsked, Finds, IsFirstFault, asked_of};

use crate::status::Fault;
use hex::FromHexError;
use rbc_line::Line;
use rbc_world::WorldEvent;
use std::alloc::{AllocError, AllocFailed, Global};

/// The request of one line of a script.
#[derive(Drop)]
pub enum Entry {
    /// Print the line that the centres supervise.
    Show,
    Event(WorldEvent),
}

/// Why a script is refused.
#[derive(Clone, Copy)]
pub enum ScriptFault {
    /// Memory ran out.
    Memory,
    /// A line has no valid form: the number of the first such line, from 1.
    Form(usize),
}

/// Why a line of a script is refused.
#[derive(Clone, Copy)]
pub enum EntryFault {
    /// Memory ran out.
    Memory,
    /// The line has no valid form.
    Form,
}

impl From<ScriptFault> for Fault<'_> {
    fn from(fault: ScriptFault) -> Self {
        match fault {
            ScriptFault::Memory => AllocError.into(),
            ScriptFault::Form(line) => Fault::Script(line),
        }
    }
}

impl From<AllocError> for ScriptFault {
    ghost use Rattle.text_script.specs.declared.script.ScriptFault.TheVariants.{Memory};

    ghost from_gives = { λ _ fault. fault ≡ Memory };

    fn from(_error: AllocError) -> Self {
        ScriptFault::Memory
    }
}

impl<T: Drop> From<AllocFailed<T>> for ScriptFault {
    ghost use Rattle.text_script.specs.declared.script.ScriptFault.TheVariants.{Memory};

    ghost from_gives = { λ _ fault. fault ≡ Memory };

    fn from(_error: AllocFailed<T>) -> Self {
        ScriptFault::Memory
    }
}

impl From<AllocError> for EntryFault {
    ghost use Rattle.text_script.specs.declared.script.EntryFault.TheVariants.{Memory};

    ghost from_gives = { λ _ fault. fault ≡ Memory };

    fn from(_error: AllocError) -> Self {
        EntryFault::Memory
    }
}

/// Reads the entries of a script, in order.
pub fn script_of(alloc: Global, line: &Line, text: &str) -> Result<Vec<Entry>, ScriptFault>
    ensures asked { IfOk result (λ entries. AreAsked line.now (rows text.now) entries.items) }
    ensures fault { IfErr result (IsFirstFault line.now (rows text.now)) }
{
    let rows = parts(alloc, text, '\n')?;
    entries_of(alloc, line, &rows)
}

fn entries_of(alloc: Global, line: &Line, rows: &[&str]) -> Result<Vec<Entry>, ScriptFault>
    ensures asked { IfOk result (λ entries. AreAsked line.now (map (λ row. row.now) rows.now) entries.items) }
    ensures fault { IfErr result (IsFirstFault line.now (map (λ row. row.now) rows.now)) }
{
    let mut entries = Vec::new(alloc);
    for (i, row) in rows.iter().enumerate() {
        if !is_kept(row) {
            continue;
        }
        match entry_of(alloc, line, row) {
            Ok(entry) => entries.push(entry)?,
            Err(EntryFault::Memory) => return Err(ScriptFault::Memory),
            Err(EntryFault::Form) => return Err(ScriptFault::Form(i + 1)),
        }
    }
    Ok(entries)
}

/// Whether a line is not skipped: it is not empty, and does not begin with `#`.
#[tactic(auto, unfolding(crate::specs::Script::is_kept))]
pub fn is_kept(row: &str) -> bool
    ensures { result ≡ is_kept row.now }
{
    !row.is_empty() && !row.starts_with('#')
}

/// Reads the entry of a line that is not skipped.
#[tactic(auto, unfolding(crate::specs::Script::row_asks))]
pub fn entry_of(alloc: Global, line: &Line, row: &str) -> Result<Entry, EntryFault>
    ensures { Finds asked_of result (row_asks line.now row.now) }
{
    let words = parts(alloc, row, ' ')?;
    entry_in(alloc, line, &words)
}

fn entry_in(alloc: Global, line: &Line, words: &[&str]) -> Result<Entry, EntryFault>
    ensures { Finds asked_of result (asked line.now (map (λ word. word.now) words.now)) }
{
    match words {
        [verb] => show_in(verb),
        [verb, centre, word] => at_centre_in(alloc, line, verb, centre, word),
        [verb, from, to, number] => delivery_in(line, verb, from, to, number),
        _ => Err(EntryFault::Form),
    }
}

fn show_in(verb: &str) -> Result<Entry, EntryFault>
    ensures { Finds asked_of result (show_of verb.now) }
{
    if verb != "show" {
        return Err(EntryFault::Form);
    }
    Ok(Entry::Show)
}

/// Reads an event that reaches a centre from a train or from the interlocking.
fn at_centre_in(
    alloc: Global,
    line: &Line,
    verb: &str,
    centre: &str,
    word: &str,
) -> Result<Entry, EntryFault>
    ensures { Finds asked_of result (at_centre_of line.now verb.now centre.now word.now) }
{
    if verb == "train" {
        return train_in(alloc, line, centre, word);
    }
    if verb == "set" {
        return set_in(line, centre, word);
    }
    if verb == "unset" {
        return unset_in(line, centre, word);
    }
    Err(EntryFault::Form)
}

fn train_in(alloc: Global, line: &Line, centre: &str, digits: &str) -> Result<Entry, EntryFault>
    ensures { Finds asked_of result (train_of line.now centre.now digits.now) }
{
    let centre = centre_in(line, centre)?;
    let bytes = bytes_in(alloc, digits)?;
    Ok(Entry::Event(WorldEvent::Train { centre, bytes }))
}

fn set_in(line: &Line, centre: &str, section: &str) -> Result<Entry, EntryFault>
    ensures { Finds asked_of result (set_of line.now centre.now section.now) }
{
    let centre = centre_in(line, centre)?;
    let section = section_in(section)?;
    Ok(Entry::Event(WorldEvent::Set { centre, section }))
}

fn unset_in(line: &Line, centre: &str, section: &str) -> Result<Entry, EntryFault>
    ensures { Finds asked_of result (unset_of line.now centre.now section.now) }
{
    let centre = centre_in(line, centre)?;
    let section = section_in(section)?;
    Ok(Entry::Event(WorldEvent::Unset { centre, section }))
}

fn delivery_in(
    line: &Line,
    verb: &str,
    from: &str,
    to: &str,
    number: &str,
) -> Result<Entry, EntryFault>
    ensures { Finds asked_of result (delivery_of line.now verb.now from.now to.now number.now) }
{
    if verb != "deliver" {
        return Err(EntryFault::Form);
    }
    let from = centre_in(line, from)?;
    let to = centre_in(line, to)?;
    let number = number_in(number)?;
    Ok(Entry::Event(WorldEvent::Deliver { from, to, number }))
}

/// Splits a text at each separator.
fn parts<'a>(alloc: Global, text: &'a str, separator: char) -> Result<Vec<&'a str>, AllocError>
    requires { separator < 128 }
    ensures { IfOk result
        (λ parts. map (λ part. part.now) parts.items ≡ slice_split (λ b. b == separator) text.entry.now) }
{
    text.split(separator).collect(alloc)
}

/// The centre of this name.
fn centre_in(line: &Line, word: &str) -> Result<u8, EntryFault>
    ensures { Finds (λ c. c) result (centre_named line.now word.now) }
{
    line.centre_named(word).ok_or(EntryFault::Form)
}

/// Reads bytes from pairs of hexadecimal digits: at least one byte.
fn bytes_in(alloc: Global, word: &str) -> Result<Vec<u8>, EntryFault>
    ensures { Finds (λ bytes. bytes.items) result (bytes_of word.now) }
{
    if word.is_empty() {
        return Err(EntryFault::Form);
    }
    match hex::decode(alloc, word) {
        Ok(bytes) => Ok(bytes),
        Err(FromHexError::OutOfMemory) => Err(EntryFault::Memory),
        Err(_) => Err(EntryFault::Form),
    }
}

/// Reads the number of a section: decimal digits without a sign, if the value fits in 16 bits.
fn section_in(word: &str) -> Result<u16, EntryFault>
    ensures { Finds (λ n. n) result (number_of 16 word.now) }
{
    if word.starts_with('+') {
        return Err(EntryFault::Form);
    }
    match word.parse() {
        Ok(number) => Ok(number),
        Err(_) => Err(EntryFault::Form),
    }
}

/// Reads the number of a frame: decimal digits without a sign, if the value fits in 32 bits.
fn number_in(word: &str) -> Result<u32, EntryFault>
    ensures { Finds (λ n. n) result (number_of 32 word.now) }
{
    if word.starts_with('+') {
        return Err(EntryFault::Form);
    }
    match word.parse() {
        Ok(number) => Ok(number),
        Err(_) => Err(EntryFault::Form),
    }
}
