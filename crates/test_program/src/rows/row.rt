use crate::rows::folder::Folder;
use crate::rows::page::Page;
use cli_commands::command::command;
use cli_commands::files::Files;
use std::alloc::Global;
use std::io::Write;
use std::str::from_utf8;
use std::{io, rt};

/// Plays the command of a case, and prints each difference. The result is whether the print and the exit status are the
/// expected ones.
pub fn passes<R: rt::Files + AllocGlobal, W: Write>(
    alloc: Global,
    row: &Folder<'_, R>,
    out: &mut W,
) -> io::Result<bool> {
    let Some(args) = row.text("args") else {
        writeln!(out, "{}: there is no file args", row.name)?;
        return Ok(false);
    };
    let words: Vec<&str> = args.lines().collect(alloc)?;
    let mut page = page_of(alloc, row, "stdout-room");
    let mut errors = page_of(alloc, row, "stderr-room");
    let status = command(alloc, &words, row, &mut page, &mut errors);
    let same_page = is_as_told(alloc, row, ["stdout", "stdout-any"], &page.bytes, out)?;
    let same_errors = is_as_told(alloc, row, ["stderr", "stderr-any"], &errors.bytes, out)?;
    let same_status = has_status(row, status, out)?;
    Ok(same_page && same_errors && same_status)
}

/// Whether the exit status is that of the case's file, or 0 without such a file.
fn has_status<R: rt::Files + AllocGlobal, W: Write>(
    row: &Folder<'_, R>,
    got: u8,
    out: &mut W,
) -> io::Result<bool> {
    let told = row.number("status").unwrap_or(0);
    let is_same = told == u32::from(got);
    if !is_same {
        writeln!(out, "{}: status: expected {told}, got {got}", row.name)?;
    }
    Ok(is_same)
}

/// An empty page. Its room is the number of bytes in the case's file, or unlimited without such a file.
fn page_of<R: rt::Files + AllocGlobal>(alloc: Global, row: &Folder<'_, R>, file: &str) -> Page {
    match row.number(file) {
        Some(room) => Page::new(alloc, room as usize),
        None => Page::new(alloc, usize::MAX),
    }
}

/// Whether a stream has the text of the case's file of the same name, or is empty without such a file. If the case has
/// the second file, the stream may have any text but the empty one.
fn is_as_told<R: rt::Files + AllocGlobal, W: Write>(
    alloc: Global,
    row: &Folder<'_, R>,
    [stream, any]: [&str; 2],
    got: &[u8],
    out: &mut W,
) -> io::Result<bool> {
    if row.bytes(any).is_some() {
        if got.is_empty() {
            writeln!(out, "{}: {stream}: expected a text, got none", row.name)?;
        }
        return Ok(!got.is_empty());
    }
    let told = row.bytes(stream).unwrap_or(Vec::new(alloc));
    let is_same = told.as_slice() == got;
    if !is_same {
        write!(out, "{}: {stream}, ", row.name)?;
        print_difference(&told, got, out)?;
    }
    Ok(is_same)
}

/// Prints the first line in which two texts differ.
fn print_difference<W: Write>(told: &[u8], got: &[u8], out: &mut W) -> io::Result<()> {
    let mut others = from_utf8(got).unwrap_or("no UTF-8").split('\n');
    for (k, line) in from_utf8(told)
        .unwrap_or("no UTF-8")
        .split('\n')
        .enumerate()
    {
        let other = others.next().unwrap_or("nothing");
        if other != line {
            let number = k.saturating_add(1);
            return writeln!(out, "line {number}: expected {line:?}, got {other:?}");
        }
    }
    writeln!(out, "more than expected")
}
