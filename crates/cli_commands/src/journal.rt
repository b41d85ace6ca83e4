//! Reads the journals of a line's centres from one folder.

ghost use Rattle.std.specs.Prelude.{◌<◌, ◌≡◌, ◌≢◌, ◌≤◌, IfErr, IfOk, is_some, length, List, None, OnOk, option_map};
ghost use Rattle.std.specs.Prelude.{Some, string_bytes, ℕ};
ghost use Rattle.cli_commands.specs.Journals.{AreAllEntries, AreEntries, AreEventsOf, IsJournal, IsReading, IsRefused};
ghost use Rattle.cli_commands.specs.Journals.{journal_name, out_of_memory, read_part};
ghost use Rattle.text_journal.specs.Order.{IsFirstFallen, stamps_of};
ghost use Rattle.text_journal.specs.Whole.{AreWhole};
ghost use Rattle.text_script.specs.declared.status.fault.Fault.TheVariants.{NoJournal};

use crate::files::Files;
use crate::journal_faults::{fault_of_journal, unfit};
use crate::line_file::LineFile;
use crate::rerunning::{Caused, with_causes};
use rbc_line::Line;
use std::alloc::{AllocError, Global};
use std::fmt;
use std::str::from_utf8;
use text_journal::{
    Entry, JournalFault, file_name, first_fallen, in_order, read_journal, whole_length,
};
use text_script::status::Fault;

/// The content of a centre's journal.
#[derive(Drop)]
pub struct Journal {
    pub entries: Vec<Entry>,
    /// The length of its whole lines in bytes.
    pub length: usize,
}

/// The events of journals, ordered by stamp, and events of one stamp by centre.
#[derive(Drop)]
pub struct Events {
    pub entries: Vec<Entry>,
    /// The number of events that are left out, if a program writes the journals: their causes were not yet in other
    /// journals.
    pub left_out: Option<usize>,
}

/// The part of the journals that was read while a program wrote them.
#[derive(Clone, Copy)]
pub struct Part {
    events: usize,
    left_out: usize,
}

impl fmt::Display for Part {
    fn fmt<W: fmt::Write>(&self, f: &mut fmt::Formatter<W>) -> fmt::Result {
        let Part { events, left_out } = self;
        write!(
            f,
            "rbcline: the journals are being written: {events} events read, {left_out} left out"
        )
    }
}

impl Events {
    /// The part that was read, if a program writes the journals.
    pub(crate) fn part(&self) -> Option<Part>
        ensures { result ≡ option_map (λ count. record { events = length self.now.entries.items; left_out = count })
            self.now.left_out }
    {
        Some(Part {
            events: self.entries.len(),
            left_out: self.left_out?,
        })
    }
}

/// Reads the journals of all centres of a line in a folder. If a program writes the journals meanwhile, events are
/// left out whose causes are not yet in other journals.
pub fn journals_in<F: Files>(
    alloc: Global,
    given: &LineFile,
    folder: &str,
    files: &F,
) -> Result<Events, Fault<'static>>
    ensures { IfOk result (λ events. (all : List Entry)
        × AreAllEntries (F.may_hold files.now) given.now folder.now all × AreEventsOf all events) }
{
    let mut journals = Vec::new(alloc);
    let mut is_written = false;
    for centre in 0..given.line.centre_count() {
        let path = journal_name(alloc, &given.line, folder, centre)?;
        is_written = is_written || files.is_written(path.as_str());
        journals.push(entries_of(alloc, given, centre, path, files)?)?;
    }
    events_of(alloc, given, in_order(alloc, journals)?, is_written)
}

// The entries of the journal of a centre at this path.
fn entries_of<F: Files>(
    alloc: Global,
    given: &LineFile,
    centre: u8,
    path: String,
    files: &F,
) -> Result<Vec<Entry>, Fault<'static>>
    requires { centre < length given.now.line.centres }
    ensures { (folder : List ℕ) → string_bytes path ≡ journal_name given.now.line folder centre
        → IfOk result (λ entries. IsJournal (F.may_hold files.now) given.now folder centre entries.items) }
{
    let bytes = bytes_of(path, files)?;
    match journal_of(alloc, given, centre, &bytes) {
        Ok(journal) => Ok(journal.entries),
        Err(fault) => Err(fault),
    }
}

fn bytes_of<F: Files>(path: String, files: &F) -> Result<Vec<u8>, Fault<'static>>
    ensures held { IfOk result (λ bytes. F.may_hold files.now (string_bytes path) (Some bytes.items)) }
    ensures fault { IfErr result (λ fault. fault ≡ NoJournal path) }
{
    match files.contents(path.as_str()) {
        Some(bytes) => Ok(bytes),
        None => Err(Fault::NoJournal(path)),
    }
}

fn events_of(
    alloc: Global,
    given: &LineFile,
    entries: Vec<Entry>,
    is_written: bool,
) -> Result<Events, Fault<'static>>
    ensures written { IfOk result (λ events. is_some events.left_out ≡ is_written) }
    ensures all { IfOk result (AreEventsOf entries.items) }
{
    if !is_written {
        return Ok(Events {
            entries,
            left_out: None,
        });
    }
    let Caused { entries, left_out } = with_causes(alloc, &given.line, entries)?;
    Ok(Events {
        entries,
        left_out: Some(left_out),
    })
}

/// Reads the journal of a centre. Bytes after its last line feed are left out. Errors: the journal is of another
/// centre, line or version; a line is damaged; the stamp of a line is not above the one before it.
pub fn journal_of(
    alloc: Global,
    given: &LineFile,
    centre: u8,
    bytes: &[u8],
) -> Result<Journal, Fault<'static>>
    requires { centre < length given.now.line.centres }
    ensures whole { IfOk result (λ journal. AreWhole bytes.now journal.length) }
    ensures read { IfOk result (λ journal. AreEntries given.now centre (read_part bytes.now journal.length)
        journal.entries.items) }
    ensures rising { IfOk result (λ journal. IsFirstFallen (stamps_of journal.entries.items) None) }
    ensures refused { IfErr result (λ why. (count : ℕ) → AreWhole bytes.now count
        → IsRefused given.now centre (read_part bytes.now count) why) }
{
    let length = whole_length(bytes);
    match entries_in(alloc, given, centre, bytes, length) {
        Ok(entries) => match test_stamps(alloc, &given.line, centre, &entries) {
            Ok(()) => Ok(Journal { entries, length }),
            Err(fault) => Err(fault),
        },
        Err(fault) => Err(fault_of_journal(alloc, &given.line, centre, bytes, fault)?),
    }
}

// The entries of a journal whose whole lines are its first `count` bytes.
fn entries_in(
    alloc: Global,
    given: &LineFile,
    centre: u8,
    bytes: &[u8],
    count: usize,
) -> Result<Vec<Entry>, JournalFault>
    requires centre { centre < length given.now.line.centres }
    requires count { count ≤ length bytes.now }
    ensures { IsReading given.now centre (read_part bytes.now count) result }
{
    if count == 0 {
        first_in(alloc, given, centre, bytes)
    } else {
        lines_in(alloc, given, centre, &bytes[..count])
    }
}

// Tests whether each stamp is above the one before it.
fn test_stamps(
    alloc: Global,
    line: &Line,
    centre: u8,
    entries: &[Entry],
) -> Result<(), Fault<'static>>
    ensures rising { OnOk result (IsFirstFallen (stamps_of entries.now) None) }
    ensures fallen { IfErr result (λ why. why ≢ out_of_memory → ¬ IsFirstFallen (stamps_of entries.now) None) }
{
    match first_fallen(entries) {
        // The first line is not an entry.
        Some(at) => Err(unfit(alloc, line, centre, at.saturating_add(2))?),
        None => Ok(()),
    }
}

/// The name of the file with the journal of a centre, with its folder.
pub fn journal_name(
    alloc: Global,
    line: &Line,
    folder: &str,
    centre: u8,
) -> Result<String, AllocError>
    ensures { IfOk result (λ path. string_bytes path ≡ journal_name line.now folder.now centre) }
{
    let file = file_name(alloc, line, centre)?;
    format!(in alloc; "{folder}/{file}")
}

// Reads a journal without a line feed: it may end in its first line.
fn first_in(
    alloc: Global,
    given: &LineFile,
    centre: u8,
    bytes: &[u8],
) -> Result<Vec<Entry>, JournalFault>
    requires { centre < length given.now.line.centres }
    ensures { IsReading given.now centre bytes.now result }
{
    match from_utf8(bytes) {
        Ok(text) => read_journal(alloc, &given.line, centre, given.text.as_str(), text),
        Err(_) => Err(JournalFault::Foreign),
    }
}

// Reads the entries of whole lines. A line that is not UTF-8 is damaged, if no line before it is.
fn lines_in(
    alloc: Global,
    given: &LineFile,
    centre: u8,
    whole: &[u8],
) -> Result<Vec<Entry>, JournalFault>
    requires { centre < length given.now.line.centres }
    ensures { IsReading given.now centre whole.now result }
{
    match from_utf8(whole) {
        Ok(text) => read_journal(alloc, &given.line, centre, given.text.as_str(), text),
        Err(error) => Err(fault_after(
            alloc,
            given,
            centre,
            text_before(whole, error.valid_up_to()),
        )),
    }
}

// The fault of whole lines if the first that is not UTF-8 comes after this text.
fn fault_after(alloc: Global, given: &LineFile, centre: u8, text: &str) -> JournalFault
    requires { centre < length given.now.line.centres }
{
    if text.is_empty() {
        return JournalFault::Foreign;
    }
    match read_journal(alloc, &given.line, centre, given.text.as_str(), text) {
        // The first line is not an entry.
        Ok(entries) => JournalFault::Damaged(entries.len().saturating_add(2)),
        Err(fault) => fault,
    }
}

// The whole lines before this byte.
fn text_before(bytes: &[u8], at: usize) -> &str {
    let front = bytes.get(..at).unwrap_or(&[]);
    let lines = front.get(..whole_length(front)).unwrap_or(&[]);
    from_utf8(lines).unwrap_or("")
}
