ghost use Rattle.cli_commands.specs.Running.Printed.{LeavesPrint};

use crate::running::played::print_played;
use crate::running::underlying::Underlying;
use rbc_line::Line;
use std::alloc::Global;
use std::io::{BufWriter, Write};
use text_script::play::PlayFault;
use text_script::script::Entry;
use text_script::status::PrintFault;

/// Prints like `print_played`, through a buffer that is empty afterwards. If the writer refused a write, it may have
/// any part of the print.
pub fn print_buffered<O: Write>(
    alloc: Global,
    line: &Line,
    entries: &[Entry],
    out: &mut O,
) -> Result<(), PlayFault<PrintFault>>
    ensures { LeavesPrint line.now entries.now result (O.contents out.old) (O.contents out.new) }
{
    let Ok(mut held) = BufWriter::new(alloc, Underlying { out }) else {
        return Err(PlayFault::Untold(PrintFault::Memory));
    };
    let done = print_played(alloc, line, entries, &mut held);
    if held.flush().is_err() {
        return Err(PlayFault::Untold(PrintFault::Write));
    }
    let (underlying, _) = held.into_parts();
    let Underlying { out } = underlying;
    // No effect at run time. The proof reads the content of the writer from this use of it.
    let _ = &*out;
    done
}
