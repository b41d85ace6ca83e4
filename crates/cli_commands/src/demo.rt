//! Runs trains on a line.

ghost use Rattle.std.specs.Prelude.{◌≡◌, false, IsErrOf, Ok, OnOk, true};
ghost use Rattle.text_script.specs.declared.status.fault.Fault.TheVariants.{Differs};

use crate::files::Files;
use crate::line_file::{LineFile, line_file_in};
use crate::output::flushed;
use cli_demo::{BUILT_IN, Demo, DemoFault, Settings};
use rbc_line::Line;
use std::alloc::Global;
use std::io::Write;
use text_script::status::Fault;

/// Runs trains on the line of this file, or on the built-in line. If the check of the true places fails, the print
/// has that, and the fault is `Differs`.
pub fn run_demo<'a, F: Files, O: Write>(
    alloc: Global,
    file: Option<&'a str>,
    settings: Settings,
    files: &F,
    out: &mut O,
) -> Result<(), Fault<'a>> {
    let given = line_of_demo(alloc, file, files)?;
    run_on(alloc, &given.line, settings, out)
}

fn run_on<O: Write>(
    alloc: Global,
    line: &Line,
    settings: Settings,
    out: &mut O,
) -> Result<(), Fault<'static>> {
    let mut demo = Demo::new(alloc, line, settings)?;
    let done = demo.run(out);
    flushed(out, result_of(done))
}

// The result of the command, by that of the demo: whether the check of the true places never failed.
fn result_of(done: Result<bool, DemoFault>) -> Result<(), Fault<'static>>
    ensures ok { OnOk result (done ≡ Ok true) }
    ensures differs { done ≡ Ok false → IsErrOf result Differs }
{
    match done {
        Ok(true) => Ok(()),
        Ok(false) => Err(Fault::Differs),
        Err(fault) => Err(fault.into()),
    }
}

/// Reads the line file of a demo. Without a file it is the built-in one.
pub fn line_of_demo<'a, F: Files>(
    alloc: Global,
    file: Option<&'a str>,
    files: &F,
) -> Result<LineFile, Fault<'a>> {
    let Some(file) = file else {
        return Ok(LineFile {
            text: String::from_str(alloc, BUILT_IN)?,
            line: Line::from_toml(alloc, BUILT_IN)?,
        });
    };
    line_file_in(alloc, file, files)
}
