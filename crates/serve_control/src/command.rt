ghost use Rattle.std.specs.Prelude.{◌≡◌, map, IfOk, IfErr};
ghost use Rattle.text_script.specs.Entries.{asked_of, event_of};
ghost use Rattle.serve_control.specs.Commands.{bidden, bidden_once, Bids, IsNoCommand};

use rbc_line::Line;
use std::alloc::Global;
use text_script::WorldEvent;
use text_script::script::{Entry, ScriptFault, script_of};

/// The command of a line at the control endpoint.
#[derive(Clone, Copy, Debug, PartialEq, Eq)]
pub enum Command {
    /// The line is skipped.
    Nothing,
    /// The interlocking releases a section.
    Set { centre: u8, section: u16 },
    /// The interlocking takes a section back.
    Unset { centre: u8, section: u16 },
    /// Show the line that the centres supervise.
    Show,
    /// No further connection is accepted, and the centres end with the last session.
    Stop,
    /// No further connection is accepted, and all sessions end at once.
    StopNow,
}

/// The reason why a line at the control endpoint is refused.
#[derive(Clone, Copy, Debug, PartialEq, Eq)]
pub enum CommandFault {
    Memory,
    /// The line does not have the form of a line at the control endpoint.
    Form,
}

/// The command of a line. The line has the form of a script's line `set`, `unset` or `show`, or is `stop` or
/// `stop now`.
pub fn command_of(alloc: Global, line: &Line, row: &str) -> Result<Command, CommandFault>
    ensures ok { IfOk result (Bids line.now row.now) }
    ensures err { IfErr result (IsNoCommand line.now row.now) }
{
    if row == "stop" {
        return Ok(Command::Stop);
    }
    if row == "stop now" {
        return Ok(Command::StopNow);
    }
    match script_of(alloc, line, row) {
        Ok(entries) => command_in(&entries).ok_or(CommandFault::Form),
        Err(ScriptFault::Memory) => Err(CommandFault::Memory),
        Err(ScriptFault::Form(_)) => Err(CommandFault::Form),
    }
}

// The command of at most one entry; `None` for several entries, or for one that is not a command.
fn command_in(entries: &[Entry]) -> Option<Command>
    ensures { result ≡ bidden (map asked_of entries.now) }
{
    match entries {
        [] => Some(Command::Nothing),
        [Entry::Show] => Some(Command::Show),
        [Entry::Event(event)] => command_by(event),
        _ => None,
    }
}

// Events of a train or of a link are not accepted at the control endpoint.
fn command_by(event: &WorldEvent) -> Option<Command>
    ensures { result ≡ bidden_once (event_of event.now) }
{
    match event {
        WorldEvent::Set { centre, section } => Some(Command::Set {
            centre: *centre,
            section: *section,
        }),
        WorldEvent::Unset { centre, section } => Some(Command::Unset {
            centre: *centre,
            section: *section,
        }),
        WorldEvent::Train { .. } | WorldEvent::Deliver { .. } => None,
    }
}
