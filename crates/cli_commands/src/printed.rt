//! Prints the run of journals, and reads the text of any print.

use crate::files::Files;
use crate::journal::{Part, journals_in};
use crate::journal_faults::unfit_at;
use crate::line_file::LineFile;
use crate::margin::Margin;
use crate::output::flushed;
use crate::rerunning::{RerunFault, print_rerun};
use crate::words::Listing;
use rbc_line::Line;
use std::alloc::{AllocError, Global};
use std::io;
use std::io::Write;
use std::str::from_utf8;
use text_journal::{Entry, in_time_order};
use text_script::status::Fault;

/// Prints the run of a line whose journals are in a folder. If these are not a run of the line, nothing is printed.
/// If a program writes the journals meanwhile, it returns the part that it read.
pub fn print_journals<'a, F: Files, O: Write>(
    alloc: Global,
    given: &LineFile,
    listing: Listing<'a>,
    files: &F,
    out: &mut O,
) -> Result<Option<Part>, Fault<'a>> {
    let done = if listing.is_plain() {
        print_found(alloc, given, listing.name, files, out)
    } else {
        print_listed(alloc, given, listing, files, out)
    };
    match flushed(out, done) {
        Ok(found) => Ok(found.part),
        Err(fault) => Err(fault),
    }
}

/// The times and the part of journals that were printed.
#[derive(Drop)]
struct Found {
    /// The time of each event of the print, in milliseconds since 1970 in UTC, if its journal has it.
    times_ms: Vec<Option<u64>>,
    /// The part that was read, if a program writes the journals.
    part: Option<Part>,
}

/// The text of a print, and the times of its events.
#[derive(Drop)]
pub(crate) struct Printed {
    pub text: String,
    /// In milliseconds since 1970 in UTC. It is empty if the print is a file.
    pub times_ms: Vec<Option<u64>>,
}

/// The text of a print: the file of this name, or the print of the journals, if the name is a folder's.
pub(crate) fn printed_in<'a, F: Files>(
    alloc: Global,
    given: &LineFile,
    printed: &'a str,
    files: &F,
) -> Result<String, Fault<'a>> {
    match timed_print_in(alloc, given, printed, files) {
        Ok(print) => Ok(print.text),
        Err(fault) => Err(fault),
    }
}

/// The same, with the times of the events.
pub(crate) fn timed_print_in<'a, F: Files>(
    alloc: Global,
    given: &LineFile,
    printed: &'a str,
    files: &F,
) -> Result<Printed, Fault<'a>> {
    let (text, times_ms) = if files.is_folder(printed) {
        let mut text = Vec::new(alloc);
        let found = print_found(alloc, given, printed, files, &mut text)?;
        (String::from_utf8(text).ok(), found.times_ms)
    } else {
        (files.text(printed), Vec::new(alloc))
    };
    match text {
        Some(text) => Ok(Printed { text, times_ms }),
        None => Err(Fault::CannotRead(printed)),
    }
}

/// The print of the journals in a folder, with its events in the order of their times. None if the events in this
/// order are not a run of the line.
pub(crate) fn print_by_time<'a, F: Files>(
    alloc: Global,
    given: &LineFile,
    folder: &'a str,
    files: &F,
) -> Result<Option<Printed>, Fault<'a>> {
    let entries = entries_by_time(alloc, given, folder, files)?;
    let times_ms = times_of(alloc, &entries)?;
    match text_of(alloc, &given.line, entries) {
        Ok(Some(text)) => Ok(Some(Printed { text, times_ms })),
        Ok(None) => Err(Fault::CannotRead(folder)),
        Err(RerunFault::Unfit(_)) => Ok(None),
        Err(fault) => Err(fault_of(alloc, &given.line, fault)),
    }
}

// The entries of the journals in a folder, in the order of their times.
fn entries_by_time<F: Files>(
    alloc: Global,
    given: &LineFile,
    folder: &str,
    files: &F,
) -> Result<Vec<Entry>, Fault<'static>> {
    let events = journals_in(alloc, given, folder, files)?;
    Ok(in_time_order(events.entries)?)
}

// The text of the print of the entries; none if it is not UTF-8.
fn text_of(alloc: Global, line: &Line, entries: Vec<Entry>) -> Result<Option<String>, RerunFault> {
    let mut text = Vec::new(alloc);
    match print_rerun(alloc, line, entries, &mut text) {
        Ok(()) => Ok(String::from_utf8(text).ok()),
        Err(fault) => Err(fault),
    }
}

/// Whether an event is in the text of a print.
pub(crate) fn has_event(text: &str) -> bool {
    for row in text.lines() {
        if row.starts_with("> ") {
            return true;
        }
    }
    false
}

// Writes the chosen events of the print of journals, with their numbers and times.
fn print_listed<'a, F: Files, W: Write>(
    alloc: Global,
    given: &LineFile,
    listing: Listing<'a>,
    files: &F,
    out: &mut W,
) -> Result<Found, Fault<'a>> {
    let mut text = Vec::new(alloc);
    let Found { times_ms, part } = print_found(alloc, given, listing.name, files, &mut text)?;
    match print_with_margin(&text, Margin::new(&listing, times_ms), out) {
        Ok(()) => Ok(Found {
            times_ms: Vec::new(alloc),
            part,
        }),
        Err(_) => Err(Fault::Write),
    }
}

fn print_with_margin<W: Write>(text: &[u8], mut margin: Margin, out: &mut W) -> io::Result<()> {
    print_shown(from_utf8(text).unwrap_or(""), &mut margin, out)
}

fn print_shown<W: Write>(text: &str, margin: &mut Margin, out: &mut W) -> io::Result<()> {
    for row in text.lines() {
        if margin.begin(out, row)? {
            writeln!(out, "{row}")?;
        }
    }
    Ok(())
}

// Writes the print of the journals in a folder.
fn print_found<F: Files, W: Write>(
    alloc: Global,
    given: &LineFile,
    folder: &str,
    files: &F,
    out: &mut W,
) -> Result<Found, Fault<'static>> {
    let events = journals_in(alloc, given, folder, files)?;
    let part = events.part();
    let times_ms = times_of(alloc, &events.entries)?;
    match print_rerun(alloc, &given.line, events.entries, out) {
        Ok(()) => Ok(Found { times_ms, part }),
        Err(fault) => Err(fault_of(alloc, &given.line, fault)),
    }
}

// The times of the entries.
fn times_of(alloc: Global, entries: &[Entry]) -> Result<Vec<Option<u64>>, AllocError> {
    let mut times_ms = Vec::new(alloc);
    for entry in entries {
        times_ms.push(entry.time_ms)?;
    }
    Ok(times_ms)
}

fn fault_of(alloc: Global, line: &Line, fault: RerunFault) -> Fault<'static> {
    match fault {
        RerunFault::Unfit(place) => unfit_at(alloc, line, place).unwrap_or(AllocError.into()),
        RerunFault::Refused(fault) => fault.into(),
        RerunFault::Untold(fault) => fault.into(),
    }
}
