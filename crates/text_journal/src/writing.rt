ghost use Rattle.std.specs.Prelude.{◌≡◌, ◌++◌, [], IfOk, OnOk, OnErr, string_bytes};
ghost use Rattle.text_journal.specs.Journal.{entry_line, first_line, time_text, told, V1, V2};

use crate::digest::{checksum, digest};
use crate::entry::Entry;
use crate::values::line_text;
use rbc_line::Line;
use std::alloc::{AllocError, Global};
use std::io::Write;
use text_script::print::{name_of, print_event};

/// The first line of a centre's journal of version 2, without its line feed.
pub fn first_line(alloc: Global, line: &Line, centre: u8) -> Result<String, AllocError>
    ensures { IfOk result (λ row. string_bytes row ≡ first_line V2 line.now centre []) }
{
    let name = name_of(line, centre);
    let text = line_text(alloc, line)?;
    let digits = digest(alloc, text.as_bytes())?;
    format!(in alloc; "journal 2 {name} {digits}")
}

/// The same of a journal of version 1, for reading. `file` is the text of the line file.
pub(crate) fn old_first_line(
    alloc: Global,
    line: &Line,
    centre: u8,
    file: &str,
) -> Result<String, AllocError>
    ensures { IfOk result (λ row. string_bytes row ≡ first_line V1 line.now centre file.now) }
{
    let name = name_of(line, centre);
    let digits = digest(alloc, file.as_bytes())?;
    format!(in alloc; "journal 1 {name} {digits}")
}

/// Appends the line of an entry to the text, with its line feed. After an error the text is as it was.
pub fn add_entry(
    alloc: Global,
    line: &Line,
    entry: &Entry,
    text: &mut Vec<u8>,
) -> Result<(), AllocError>
    ensures ok { OnOk result (text.new.items ≡ text.old.items ++ entry_line line.now entry.now) }
    ensures err { OnErr result (text.new.items ≡ text.old.items) }
{
    let row = entry_line(alloc, line, entry)?;
    text.extend_from_slice(&row)
}

/// The line of an entry, with its line feed.
pub(crate) fn entry_line(alloc: Global, line: &Line, entry: &Entry) -> Result<Vec<u8>, AllocError>
    ensures { IfOk result (λ row. row.items ≡ entry_line line.now entry.now) }
{
    let told = told(alloc, line, entry)?;
    let sum = checksum(alloc, &told)?;
    let mut row = Vec::new(alloc);
    row.extend_from_slice(sum.as_bytes())?;
    row.push(b' ')?;
    row.extend_from_slice(&told)?;
    Ok(row)
}

// The stamp, the time and the event of an entry, as its line has them.
fn told(alloc: Global, line: &Line, entry: &Entry) -> Result<Vec<u8>, AllocError>
    ensures { IfOk result (λ text. text.items ≡ told line.now entry.now) }
{
    let mut text = Vec::new(alloc);
    if write!(text, "{} ", entry.stamp).is_err() {
        return Err(AllocError);
    }
    add_time(&mut text, entry.time_ms)?;
    match print_event(alloc, &mut text, line, &entry.event) {
        Ok(()) => Ok(text),
        Err(_) => Err(AllocError),
    }
}

// Adds the text of a time, with a blank. It adds nothing if there is none.
fn add_time(text: &mut Vec<u8>, time_ms: Option<u64>) -> Result<(), AllocError>
    ensures { OnOk result (text.new.items ≡ text.old.items ++ time_text time_ms) }
{
    let Some(ms) = time_ms else {
        return Ok(());
    };
    match write!(text, "{ms} ") {
        Ok(()) => Ok(()),
        Err(_) => Err(AllocError),
    }
}
