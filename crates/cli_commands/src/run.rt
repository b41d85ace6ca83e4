ghost use Rattle.std.specs.Prelude.{IfErr, IfOk};
ghost use Rattle.cli_commands.specs.Runs.{GivesEntries, GivesLine, GivesNoEntries, GivesNoLine, LeavesCheck, LeavesRun};
ghost use Rattle.cli_commands.specs.Runs.{LeavesSafeRun};

use crate::files::Files;
use crate::running::print_buffered;
use rbc_line::Line;
use std::alloc::Global;
use std::io::Write;
use text_script::StepFault;
use text_script::play::PlayFault;
use text_script::print::print_counts;
use text_script::script::{Entry, ScriptFault, script_of};
use text_script::status::{Fault, PrintFault};

/// Runs a script on a line. Prints each event with its answer, and at the end the line. The print is safe to the
/// outside (`outside`), as that of `print_played`.
#[tactic(auto, using(crate::proofs::RunningLemmas::Safe::safe_run))]
pub fn run<'a, F: Files, O: Write>(
    alloc: Global,
    file: &'a str,
    script: &'a str,
    files: &F,
    out: &mut O,
) -> Result<(), Fault<'a>>
    ensures print { LeavesRun (F.may_give files.now) file.now script.now result (O.contents out.old)
        (O.contents out.new) }
    ensures outside { LeavesSafeRun (F.may_give files.now) file.now result (O.contents out.old) (O.contents out.new) }
{
    run_script(alloc, file, script, files, out)
}

fn run_script<'a, F: Files, O: Write>(
    alloc: Global,
    file: &'a str,
    script: &'a str,
    files: &F,
    out: &mut O,
) -> Result<(), Fault<'a>>
    ensures { LeavesRun (F.may_give files.now) file.now script.now result (O.contents out.old) (O.contents out.new) }
{
    let line = line_in(alloc, file, files)?;
    let entries = entries_in(alloc, &line, script, files)?;
    match print_buffered(alloc, &line, &entries, out) {
        Ok(()) => Ok(()),
        Err(PlayFault::Refused(fault)) => Err(Fault::Step(fault)),
        Err(PlayFault::Untold(PrintFault::Write)) => Err(Fault::Write),
        Err(PlayFault::Untold(PrintFault::Memory)) => Err(Fault::Step(StepFault::Memory)),
    }
}

/// Reads a line file, and prints the numbers of centres, tracks, sections and trains of the line.
pub fn check<'a, F: Files, O: Write>(
    alloc: Global,
    file: &'a str,
    files: &F,
    out: &mut O,
) -> Result<(), Fault<'a>>
    ensures { LeavesCheck (F.may_give files.now) file.now result (O.contents out.old) (O.contents out.new) }
{
    let line = line_in(alloc, file, files)?;
    if print_counts(out, &line).is_err() || out.flush().is_err() {
        return Err(Fault::Write);
    }
    Ok(())
}

/// Reads the line of a line file.
pub fn line_in<'a, F: Files>(alloc: Global, file: &'a str, files: &F) -> Result<Line, Fault<'a>>
    ensures line { IfOk result (GivesLine (F.may_give files.now) file.now) }
    ensures fault { IfErr result (GivesNoLine (F.may_give files.now) file.now) }
{
    let Some(text) = files.text(file) else {
        return Err(Fault::CannotRead(file));
    };
    match Line::from_toml(alloc, text.as_str()) {
        Ok(line) => Ok(line),
        Err(fault) => Err(Fault::Line(fault)),
    }
}

/// Reads the entries of the script of this name.
pub(crate) fn entries_in<'a, F: Files>(
    alloc: Global,
    line: &Line,
    script: &'a str,
    files: &F,
) -> Result<Vec<Entry>, Fault<'a>>
    ensures entries { IfOk result
        (λ entries. GivesEntries (F.may_give files.now) line.now script.now entries.items) }
    ensures fault { IfErr result (GivesNoEntries (F.may_give files.now) line.now script.now) }
{
    let Some(text) = files.text(script) else {
        return Err(Fault::CannotRead(script));
    };
    match script_of(alloc, line, text.as_str()) {
        Ok(entries) => Ok(entries),
        Err(ScriptFault::Form(row)) => Err(Fault::Script(row)),
        Err(ScriptFault::Memory) => Err(Fault::Step(StepFault::Memory)),
    }
}
