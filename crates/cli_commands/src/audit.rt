//! The audit of a print of `run` or `serve`, or of journals.

ghost use Rattle.std.specs.Prelude.{◌≡◌, ◌⊎◌, IfOk, List, None};
ghost use Rattle.cli_commands.specs.Auditing.{Audits, Reports};
ghost use Rattle.cli_commands.specs.Journals.{AreAllEntries};
ghost use Rattle.cli_commands.specs.Rerunning.Rerun.{IsRerun};
ghost use Rattle.rbc_spec.specs.World.{World};
ghost use Rattle.text_journal.specs.declared.entry.Entry.{Entry};
ghost use Rattle.text_script.specs.declared.status.fault.Fault.TheVariants.{Differs, Write};

use crate::files::{Files, Rows};
use crate::journal::{Events, Part, journals_in};
use crate::line_file::LineFile;
use crate::output::tell;
use crate::rerunning::first_unfit;
use rbc_line::Line;
use std::alloc::Global;
use std::io::Write;
use text_journal::file_name;
use text_replay::auditing::{Audit, Verdict};
use text_script::status::Fault;

/// Runs the events of a print again. Reports whether the print is that of its events, or the first line that differs.
/// If the name is a folder's, it does the same with the folder's journals and their stamps. If a program writes these
/// meanwhile, it returns the part that it read.
pub fn audit_printed<'a, F: Files, O: Write>(
    alloc: Global,
    given: &LineFile,
    printed: &'a str,
    files: &F,
    out: &mut O,
) -> Result<Option<Part>, Fault<'a>> {
    if files.is_folder(printed) {
        return audit_journals(alloc, given, printed, files, out);
    }
    let verdict = verdict_of(alloc, &given.line, printed, files)?;
    report(verdict, out)?;
    Ok(None)
}

// Prints a verdict. A difference is a fault.
fn report<O: Write>(verdict: Verdict, out: &mut O) -> Result<(), Fault<'static>>
    ensures { Reports result verdict }
{
    tell(out, verdict)?;
    match verdict {
        Verdict::Equal { .. } => Ok(()),
        Verdict::Differs { .. } => Err(Fault::Differs),
    }
}

fn verdict_of<'a, F: Files>(
    alloc: Global,
    line: &Line,
    printed: &'a str,
    files: &F,
) -> Result<Verdict, Fault<'a>> {
    let mut rows = Audited(Audit::new(alloc, line)?);
    match files.each_row(alloc, printed, &mut rows) {
        Some(()) => rows.0.end(),
        None => Err(Fault::CannotRead(printed)),
    }
}

// Reports whether the journals in a folder are a run of the line, or the first line that differs from one.
fn audit_journals<F: Files, O: Write>(
    alloc: Global,
    given: &LineFile,
    folder: &str,
    files: &F,
    out: &mut O,
) -> Result<Option<Part>, Fault<'static>>
    ensures { IfOk result (λ part. part ≡ None → (all : List Entry)
        × AreAllEntries (F.may_hold files.now) given.now folder.now all
        × (last : World) × IsRerun given.now.line all last) }
{
    match journals_in(alloc, given, folder, files) {
        Ok(events) => audit_events(alloc, &given.line, &events, out),
        Err(Fault::Unfit { journal, row }) => Err(differs(journal.as_str(), row, out)),
        Err(fault) => Err(fault),
    }
}

// Runs the events of journals, and compares each stamp with the run's answer.
fn audit_events<O: Write>(
    alloc: Global,
    line: &Line,
    events: &Events,
    out: &mut O,
) -> Result<Option<Part>, Fault<'static>>
    ensures run { Audits line.now events.now.entries.items result }
    ensures part { IfOk result (λ part. part ≡ None → events.now.left_out ≡ None) }
{
    match first_unfit(alloc, line, &events.entries)? {
        None => {
            let events_read = events.entries.len() as u64;
            tell(
                out,
                Verdict::Equal {
                    events: events_read,
                },
            )?;
            Ok(events.part())
        }
        Some(place) => {
            let journal = file_name(alloc, line, place.centre)?;
            Err(differs(journal.as_str(), place.row, out))
        }
    }
}

// Reports the first line of a journal that differs from the run. The result is the fault of that.
fn differs<O: Write>(journal: &str, row: usize, out: &mut O) -> Fault<'static>
    ensures { (result ≡ Differs) ⊎ (result ≡ Write) }
{
    match tell(out, format_args!("audit: {journal} line {row} differs")) {
        Ok(()) => Fault::Differs,
        Err(_) => Fault::Write,
    }
}

/// An audit that receives the lines of a file.
#[derive(Drop)]
struct Audited<'a>(Audit<'a>);

impl Rows for Audited<'_> {
    fn row(&mut self, row: &str) {
        self.0.row(row);
    }
}
