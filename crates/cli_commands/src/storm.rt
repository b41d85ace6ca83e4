//! Runs a storm over a script.

use crate::files::Files;
use crate::output::flushed;
use crate::run::entries_in;
use crate::running::Printer;
use cli_storm::Storm;
use rbc_line::Line;
use std::alloc::Global;
use std::io::Write;
use text_script::play::PlayFault;
use text_script::script::Entry;
use text_script::status::Fault;

/// Runs a script on a line as `run` does, with four drawn deliveries after each event.
pub fn run_storm<'a, F: Files, O: Write>(
    alloc: Global,
    line: &Line,
    script: &'a str,
    seed: u64,
    files: &F,
    out: &mut O,
) -> Result<(), Fault<'a>> {
    let entries = entries_in(alloc, line, script, files)?;
    let done = print_storm(alloc, line, seed, &entries, out);
    flushed(out, done)
}

fn print_storm<W: Write>(
    alloc: Global,
    line: &Line,
    seed: u64,
    entries: &[Entry],
    out: &mut W,
) -> Result<(), Fault<'static>> {
    let mut storm = Storm::new(alloc, line, seed)?;
    let mut printer = Printer { alloc, line, out };
    play_storm(&mut storm, entries, &mut printer)
}

fn play_storm<W: Write>(
    storm: &mut Storm,
    entries: &[Entry],
    printer: &mut Printer<'_, W>,
) -> Result<(), Fault<'static>> {
    match storm.play(entries, printer) {
        Ok(()) => Ok(printer.show_line(storm.world())?),
        Err(PlayFault::Refused(fault)) => Err(fault.into()),
        Err(PlayFault::Untold(fault)) => Err(fault.into()),
    }
}
