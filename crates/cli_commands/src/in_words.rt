//! Puts messages, and prints of `run`, into words.

ghost use Rattle.std.specs.Prelude.{◌≡◌, ◌⊎◌, IfErr};
ghost use Rattle.text_script.specs.Status.Statuses.{status_of};

use crate::files::Files;
use crate::line_file::LineFile;
use crate::margin::Margin;
use crate::output::{flushed, tell};
use crate::printed::{Printed, timed_print_in};
use crate::words::Listing;
use hex::FromHexError;
use rbc_line::Line;
use std::alloc::{AllocError, Global};
use std::io;
use std::io::Write;
use text_replay::Retelling;
use text_script::status::Fault;
use text_words::{Field, Told, fields_of, name_of, words_of_fault};

/// Prints a message field by field, or its first fault.
pub fn show_message<'a, O: Write>(
    alloc: Global,
    digits: &'a str,
    out: &mut O,
) -> Result<(), Fault<'a>>
    ensures { IfErr result (λ why. (status_of why ≡ 2) ⊎ (status_of why ≡ 5) ⊎ (status_of why ≡ 6)
        ⊎ (status_of why ≡ 7)) }
{
    let bytes = match hex::decode(alloc, digits) {
        Ok(bytes) => bytes,
        Err(FromHexError::OutOfMemory) => return Err(AllocError.into()),
        Err(_) => return Err(Fault::NotHexadecimal(digits)),
    };
    show_bytes(alloc, &bytes, out)
}

fn show_bytes<O: Write>(alloc: Global, bytes: &[u8], out: &mut O) -> Result<(), Fault<'static>>
    ensures { IfErr result (λ why. (status_of why ≡ 6) ⊎ (status_of why ≡ 7)) }
{
    match fields_of(alloc, bytes) {
        Ok(fields) => Ok(print_fields(out, &fields)?),
        Err(fault) => {
            show_fault(bytes, fault.number(), words_of_fault(fault), out)?;
            Err(Fault::Message(fault))
        }
    }
}

// Prints the name of a faulty message, and its fault.
fn show_fault<O: Write>(bytes: &[u8], number: u8, words: &str, out: &mut O) -> io::Result<()> {
    print_fields(out, name_of(bytes).as_slice())?;
    tell(out, format_args!("fault {number}: {words}"))
}

fn print_fields<O: Write>(out: &mut O, fields: &[Field]) -> io::Result<()> {
    for field in fields {
        writeln!(out, "{field}")?;
    }
    out.flush()
}

/// Puts a print of `run` into words, line by line. It does the same with the print of the line's journals. Its events
/// are played again, so that frames have their contents. Returns whether a line of it could be put into words.
pub fn tell_printed<'a, F: Files, O: Write>(
    alloc: Global,
    given: &LineFile,
    listing: Listing<'a>,
    files: &F,
    out: &mut O,
) -> Result<bool, Fault<'a>> {
    let Printed { text, times_ms } = timed_print_in(alloc, given, listing.name, files)?;
    let mut margin = Margin::new(&listing, times_ms);
    let done = print_told(alloc, &given.line, text.as_str(), &mut margin, out);
    flushed(out, done)
}

fn print_told<W: Write>(
    alloc: Global,
    line: &Line,
    text: &str,
    margin: &mut Margin,
    out: &mut W,
) -> Result<bool, Fault<'static>> {
    let mut retelling = Retelling::new(alloc, line)?;
    let mut is_told = false;
    for row in text.lines() {
        let words = retelling.told(alloc, line, row)?;
        is_told = is_told || words.is_some();
        print_row(words, row, margin, out)?;
    }
    Ok(is_told)
}

// Prints the words of a line, or the line, with its margin, if it is shown.
fn print_row<W: Write>(
    words: Option<Told>,
    row: &str,
    margin: &mut Margin,
    out: &mut W,
) -> io::Result<()> {
    if !margin.begin(out, row)? {
        return Ok(());
    }
    match words {
        Some(words) => writeln!(out, "{words}"),
        None => writeln!(out, "{row}"),
    }
}
