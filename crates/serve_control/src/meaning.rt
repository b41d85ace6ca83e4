ghost use Rattle.std.specs.Prelude.{◌≡◌, false, true};
ghost use Rattle.serve_control.specs.declared.meaning.Meaning.TheVariants.{Foreign};
ghost use Rattle.serve_control.specs.Meanings.{IsMeaning, meaning_by};
ghost use Rattle.serve_control.specs.Protocols.{is_of_another_protocol};

use crate::command::{Command, CommandFault, command_of};
use crate::protocol::is_of_another_protocol;
use rbc_line::Line;
use std::alloc::Global;

/// The meaning of a line at the control endpoint.
#[derive(Clone, Copy, Debug, PartialEq, Eq)]
pub enum Meaning {
    /// A command.
    Command(Command),
    /// The line has no valid form.
    NoForm,
    /// The line is of another protocol: the request line of HTTP/1, or a line with a control character other than a
    /// tab. The connection is not from the interlocking.
    Foreign,
    /// Memory ran out.
    NoMemory,
}

/// The meaning of a line at the control endpoint, without the line feed that ends it.
pub fn meaning_of(alloc: Global, line: &Line, row: &[u8]) -> Meaning
    ensures foreign { is_of_another_protocol row.now ≡ true → result ≡ Foreign }
    ensures own { is_of_another_protocol row.now ≡ false → IsMeaning line.now row.now result }
{
    if is_of_another_protocol(row) {
        return Meaning::Foreign;
    }
    match std::str::from_utf8(row) {
        Ok(text) => meaning_by(command_of(alloc, line, text)),
        Err(_) => Meaning::NoForm,
    }
}

// The meaning by the command of a line.
fn meaning_by(command: Result<Command, CommandFault>) -> Meaning
    ensures { result ≡ meaning_by command }
{
    match command {
        Ok(command) => Meaning::Command(command),
        Err(CommandFault::Form) => Meaning::NoForm,
        Err(CommandFault::Memory) => Meaning::NoMemory,
    }
}
