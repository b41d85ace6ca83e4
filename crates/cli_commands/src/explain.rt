ghost use Rattle.std.specs.Prelude.{◌≡◌, IfOk, is_none, map};
ghost use Rattle.cli_commands.specs.Explaining.Results.{Explains, script_result};
ghost use Rattle.cli_commands.specs.Explaining.Rows.{first_faulty};
ghost use Rattle.text_script.specs.Script.{row_asks, rows};

use crate::explaining::LineText;
use crate::files::Files;
use crate::inspecting::Finding;
use crate::output::flushed;
use crate::picture::print_picture;
use crate::script_faults::row_fault;
use rbc_line::{Line, LineFault};
use std::alloc::{AllocError, Global};
use std::io;
use std::io::Write;
use text_script::script::is_kept;
use text_script::status::Fault;

/// Reads a line file, and prints a picture of the line; or, with a script, each faulty line of the script. For a line
/// file with faults it prints each case on a line.
pub fn explain<'a, F: Files, O: Write>(
    alloc: Global,
    file: &'a str,
    script: Option<&'a str>,
    files: &F,
    out: &mut O,
) -> Result<(), Fault<'a>> {
    let Some(text) = files.text(file) else {
        return Err(Fault::CannotRead(file));
    };
    let done = match Line::from_toml(alloc, text.as_str()) {
        Ok(line) => explain_good(alloc, &line, script, files, out),
        Err(fault) => print_findings(alloc, out, text.as_str(), fault),
    };
    flushed(out, done)
}

// Prints the picture of the line, or the faults of the script.
fn explain_good<'a, F: Files, W: Write>(
    alloc: Global,
    line: &Line,
    script: Option<&'a str>,
    files: &F,
    out: &mut W,
) -> Result<(), Fault<'a>> {
    let Some(script) = script else {
        return Ok(print_picture(out, line)?);
    };
    let Some(text) = files.text(script) else {
        return Err(Fault::CannotRead(script));
    };
    result_of(print_row_faults(alloc, out, line, text.as_str())?)
}

// The result of the command, by the first faulty line of the script.
fn result_of(first: Option<usize>) -> Result<(), Fault<'static>>
    ensures { result ≡ script_result first }
{
    match first {
        Some(row) => Err(Fault::Script(row)),
        None => Ok(()),
    }
}

// Prints the fault of each line of a script, or the number of its events. The result is the first faulty line.
fn print_row_faults<W: Write>(
    alloc: Global,
    out: &mut W,
    line: &Line,
    text: &str,
) -> Result<Option<usize>, Fault<'static>>
    ensures { IfOk result (λ first. first ≡ first_faulty line.now 1 (rows text.now)) }
{
    let rows = rows_of(alloc, text)?;
    print_faults_of(alloc, out, line, &rows)
}

// The lines of a script.
fn rows_of<'a>(alloc: Global, text: &'a str) -> Result<Vec<&'a str>, AllocError>
    ensures { IfOk result (λ found. map (λ row. row.now) found.items ≡ rows text.entry.now) }
{
    text.split('\n').collect(alloc)
}

// Prints the fault of each of these lines, or the number of their events. The result is the first faulty line.
fn print_faults_of<W: Write>(
    alloc: Global,
    out: &mut W,
    line: &Line,
    rows: &[&str],
) -> Result<Option<usize>, Fault<'static>>
    ensures { IfOk result (λ first. first ≡ first_faulty line.now 1 (map (λ row. row.now) rows.now)) }
{
    let mut first = None;
    let mut good = 0usize;
    for (k, row) in rows.iter().enumerate() {
        if !is_kept(row) {
            continue;
        }
        if print_row_fault(alloc, out, line, k + 1, row)? {
            first = first.or(Some(k + 1));
        } else {
            good = good.saturating_add(1);
        }
    }
    if first.is_none() {
        writeln!(out, "ok: {good} lines")?;
    }
    Ok(first)
}

// Prints the fault of the line with this number, if it has one. Returns whether it has.
fn print_row_fault<W: Write>(
    alloc: Global,
    out: &mut W,
    line: &Line,
    number: usize,
    row: &str,
) -> Result<bool, Fault<'static>>
    ensures { IfOk result (λ has_fault. has_fault ≡ is_none (row_asks line.now row.now)) }
{
    let Some(fault) = row_fault(alloc, line, row)? else {
        return Ok(false);
    };
    writeln!(out, "line {number}: {fault}")?;
    Ok(true)
}

fn print_findings<'a, W: Write>(
    alloc: Global,
    out: &mut W,
    text: &str,
    fault: LineFault,
) -> Result<(), Fault<'a>>
    ensures { Explains fault result }
{
    let text = match LineText::new(alloc, text) {
        Ok(text) => text,
        Err(error) if error.is_memory() => return Err(Fault::Line(LineFault::Memory)),
        Err(error) => {
            write!(out, "fault {}: {error}", LineFault::Text.number())?;
            return Err(Fault::Line(fault));
        }
    };
    let Ok(findings) = text.findings(alloc) else {
        return Err(Fault::Line(LineFault::Memory));
    };
    print_each(out, &findings)?;
    Err(Fault::Line(fault))
}

fn print_each<W: Write>(out: &mut W, findings: &[Finding]) -> io::Result<()> {
    for finding in findings {
        writeln!(out, "fault {}: {finding}", finding.fault().number())?;
    }
    Ok(())
}
