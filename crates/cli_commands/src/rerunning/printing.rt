ghost use Rattle.std.specs.Prelude.{◌≡◌, map, IfOk, OnOk};
ghost use Rattle.cli_commands.specs.Rerunning.Printed.{asks, PrintsRun, Reprints};

use crate::rerunning::fault::RerunFault;
use crate::rerunning::rerun::first_unfit;
use crate::running::print_played;
use rbc_line::Line;
use std::alloc::{AllocError, Global};
use std::io::Write;
use text_journal::Entry;
use text_script::play::PlayFault;
use text_script::status::PrintFault;
use text_script::{StepFault, script};

/// Writes the print of the entries' events. The entries must be a run of the line: each has the stamp of its event's
/// answer. Otherwise nothing is written.
pub fn print_rerun<W: Write>(
    alloc: Global,
    line: &Line,
    entries: Vec<Entry>,
    out: &mut W,
) -> Result<(), RerunFault>
    ensures { Reprints line.now entries.items result (W.contents out.old) (W.contents out.new) }
{
    match first_unfit(alloc, line, &entries) {
        Ok(None) => {}
        Ok(Some(place)) => return Err(RerunFault::Unfit(place)),
        Err(fault) => return Err(RerunFault::Refused(fault)),
    }
    match print_run(alloc, line, entries, out) {
        Ok(()) => Ok(()),
        Err(PlayFault::Refused(fault)) => Err(RerunFault::Refused(fault)),
        Err(PlayFault::Untold(fault)) => Err(RerunFault::Untold(fault)),
    }
}

// Writes the print of the events of the entries.
fn print_run<W: Write>(
    alloc: Global,
    line: &Line,
    entries: Vec<Entry>,
    out: &mut W,
) -> Result<(), PlayFault<PrintFault>>
    ensures { OnOk result (PrintsRun line.now entries.items (W.contents out.old) (W.contents out.new)) }
{
    match script_of(alloc, entries) {
        Ok(script) => print_played(alloc, line, &script, out),
        Err(_) => Err(PlayFault::Refused(StepFault::Memory)),
    }
}

// The script with the events of the entries.
fn script_of(alloc: Global, entries: Vec<Entry>) -> Result<Vec<script::Entry>, AllocError>
    ensures { IfOk result (λ script. script.items ≡ map asks entries.items) }
{
    entries
        .into_iter()
        .map(|entry| script::Entry::Event(entry.event))
        .collect(alloc)
}
