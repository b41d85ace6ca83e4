//! Prints the script of a text in words.

use crate::known::Defaults;
use crate::row_fault::RowFault;
use crate::statement::{Said, said_in};
use rbc_line::Line;
use rbc_world::WorldEvent;
use std::alloc::Global;
use std::io::Write;
use text_script::print::print_event;
use text_script::script::Entry;
use text_script::status::PrintFault;

/// Why a script is not complete.
#[derive(Clone, Copy)]
pub enum ScriptFault<'a> {
    /// The line of this number is refused.
    Row(usize, RowFault<'a>),
    Print(PrintFault),
}

impl From<PrintFault> for ScriptFault<'_> {
    fn from(fault: PrintFault) -> Self {
        ScriptFault::Print(fault)
    }
}

/// Prints the script of a text in words, line by line. Comments and empty lines stay, and an expectation becomes a
/// comment.
pub fn print_script<'a, W: Write>(
    alloc: Global,
    out: &mut W,
    line: &'a Line,
    text: &'a str,
) -> Result<(), ScriptFault<'a>> {
    let mut defaults = Defaults::new(alloc);
    let text = text.strip_suffix('\n').unwrap_or(text);
    for (k, row) in text.split('\n').enumerate() {
        let printed = match said_in(alloc, line, &mut defaults, row) {
            Ok(said) => print_said(alloc, out, line, row, &said),
            Err(RowFault::Memory) => Err(PrintFault::Memory),
            Err(fault) => return Err(ScriptFault::Row(k.saturating_add(1), fault)),
        };
        printed?;
    }
    Ok(())
}

fn print_said<W: Write>(
    alloc: Global,
    out: &mut W,
    line: &Line,
    row: &str,
    said: &Option<Said>,
) -> Result<(), PrintFault> {
    match said {
        None => writeln!(out, "{}", row.trim())?,
        Some(Said::Entry(Entry::Show)) => writeln!(out, "show")?,
        Some(Said::Entry(Entry::Event(event))) => print_row(alloc, out, line, event)?,
        Some(Said::Expect(_)) => writeln!(out, "# {}", row.trim())?,
    }
    Ok(())
}

// The event as a line of a script.
fn print_row<W: Write>(
    alloc: Global,
    out: &mut W,
    line: &Line,
    event: &WorldEvent,
) -> Result<(), PrintFault> {
    let mut row = Vec::new(alloc);
    print_event(alloc, &mut row, line, event)?;
    // A print has `> ` before it.
    if let Some(row) = row.as_slice().strip_prefix(b"> ") {
        out.write_all(row)?;
    }
    Ok(())
}
