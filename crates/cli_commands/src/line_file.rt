ghost use Rattle.std.specs.Prelude.{IfErr, IfOk};
ghost use Rattle.cli_commands.specs.Runs.{GivesLine, GivesNoLine};

use crate::files::Files;
use rbc_line::Line;
use std::alloc::Global;
use text_script::status::Fault;

/// A line, and the text of the file that it was read from.
#[derive(Drop)]
pub struct LineFile {
    pub text: String,
    pub line: Line,
}

/// Reads the line file of this name.
pub fn line_file_in<'a, F: Files>(
    alloc: Global,
    file: &'a str,
    files: &F,
) -> Result<LineFile, Fault<'a>>
    ensures line { IfOk result (λ given. GivesLine (F.may_give files.now) file.now given.line) }
    ensures fault { IfErr result (GivesNoLine (F.may_give files.now) file.now) }
{
    let Some(text) = files.text(file) else {
        return Err(Fault::CannotRead(file));
    };
    match Line::from_toml(alloc, text.as_str()) {
        Ok(line) => Ok(LineFile { text, line }),
        Err(fault) => Err(Fault::Line(fault)),
    }
}
