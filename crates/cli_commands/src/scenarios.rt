//! Scripts in words, and scenarios that are judged.

ghost use Rattle.std.specs.Prelude.{◌==◌, ◌≡◌, IsErrOf, is_ok, OnErr};
ghost use Rattle.text_script.specs.declared.status.fault.Fault.TheVariants.{Differs};

use crate::files::Files;
use crate::output::{flushed, write_whole};
use crate::run::line_in;
use rbc_line::Line;
use std::alloc::{AllocError, Global};
use std::convert::AsStr;
use std::io::Write;
use text_scenario::{ScriptFault, print_script, test_scenario};
use text_script::status::Fault;

/// Prints the script of a text in words. The reason why a line is refused is reported to `err`.
pub fn script_in_words<'a, F: Files, O: Write, E: Write>(
    alloc: Global,
    line: &Line,
    name: &'a str,
    files: &F,
    out: &mut O,
    err: &mut E,
) -> Result<(), Fault<'a>> {
    match files.text(name) {
        Some(text) => text_in_words(alloc, line, text.as_str(), out, err),
        None => Err(Fault::CannotRead(name)),
    }
}

fn text_in_words<O: Write, E: Write>(
    alloc: Global,
    line: &Line,
    text: &str,
    out: &mut O,
    err: &mut E,
) -> Result<(), Fault<'static>> {
    let mut script = Vec::new(alloc);
    match print_script(alloc, &mut script, line, text) {
        Ok(()) => Ok(write_whole(out, &script)?),
        Err(fault) => Err(fault_of(fault, err)),
    }
}

// The fault of the command. The reason why a line is refused is reported.
fn fault_of<E: Write>(fault: ScriptFault, err: &mut E) -> Fault<'static> {
    match fault {
        ScriptFault::Print(fault) => fault.into(),
        ScriptFault::Row(row, fault) => match writeln!(err, "line {row}: {fault}") {
            Ok(()) => Fault::Script(row),
            Err(_) => Fault::Write,
        },
    }
}

/// Plays scenarios, prints the first difference of each, and at last how many passed.
pub fn test<'a, S: AsStr, F: Files, O: Write>(
    alloc: Global,
    file: &'a str,
    words: &'a [S],
    files: &F,
    out: &mut O,
) -> Result<(), Fault<'a>> {
    let line = line_in(alloc, file, files)?;
    let done = test_each(alloc, &line, words, files, out);
    flushed(out, done)
}

// The names of files in the arguments: the line file, and the scenarios after it.
fn names_of<S: AsStr>(alloc: Global, words: &[S]) -> Result<Vec<&str>, AllocError> {
    let mut names = Vec::new(alloc);
    for word in words.iter().skip(1) {
        let name = word.as_str();
        if name != "--" {
            names.push(name)?;
        }
    }
    Ok(names)
}

fn test_one<'a, F: Files, W: Write>(
    alloc: Global,
    line: &Line,
    name: &'a str,
    files: &F,
    out: &mut W,
) -> Result<bool, Fault<'a>> {
    match files.text(name) {
        Some(text) => Ok(test_scenario(alloc, out, line, name, text.as_str())?),
        None => Err(Fault::CannotRead(name)),
    }
}

// Plays the scenarios that the arguments name.
fn test_each<'a, S: AsStr, F: Files, W: Write>(
    alloc: Global,
    line: &Line,
    words: &'a [S],
    files: &F,
    out: &mut W,
) -> Result<(), Fault<'a>> {
    let mut passed = 0u32;
    let mut failed = 0u32;
    for name in names_of(alloc, words)?.iter().skip(1) {
        if test_one(alloc, line, name, files, out)? {
            passed = passed.saturating_add(1);
        } else {
            failed = failed.saturating_add(1);
        }
    }
    writeln!(out, "{passed} passed, {failed} failed")?;
    result_of(failed)
}

// The result of the command, by the number of scenarios that failed.
fn result_of(failed: u32) -> Result<(), Fault<'static>>
    ensures ok { is_ok result ≡ (failed == 0) }
    ensures differs { OnErr result (IsErrOf result Differs) }
{
    if failed == 0 {
        Ok(())
    } else {
        Err(Fault::Differs)
    }
}
