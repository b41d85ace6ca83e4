ghost use Rattle.cli_commands.specs.Running.Printed.{LeavesPrint};
ghost use Rattle.cli_commands.specs.Running.Safe.{LeavesSafePrint};

use crate::running::printer::Printer;
use rbc_line::Line;
use std::alloc::Global;
use std::io::Write;
use text_script::World;
use text_script::play::PlayFault;
use text_script::script::Entry;
use text_script::status::PrintFault;

/// Plays the entries of a script on the line from its beginning. Prints each entry, its answer, and at the end the
/// line. It stops at the first event whose step is refused: the print then ends with this event.
///
/// The print is safe to the outside (`outside`). By its messages and replies, no two trains may run over one section.
/// None may run over a section that the interlocking has not released, or has taken back.
#[tactic(auto, using(crate::proofs::RunningLemmas::Safe::safe_print))]
pub fn print_played<W: Write>(
    alloc: Global,
    line: &Line,
    entries: &[Entry],
    out: &mut W,
) -> Result<(), PlayFault<PrintFault>>
    ensures print { LeavesPrint line.now entries.now result (W.contents out.old) (W.contents out.new) }
    ensures outside { LeavesSafePrint line.now result (W.contents out.old) (W.contents out.new) }
{
    // No effect at run time. The proof reads from this call that the line keeps the rules of a line.
    line.centre_count();
    print_entries(alloc, line, entries, out)
}

fn print_entries<W: Write>(
    alloc: Global,
    line: &Line,
    entries: &[Entry],
    out: &mut W,
) -> Result<(), PlayFault<PrintFault>>
    ensures { LeavesPrint line.now entries.now result (W.contents out.old) (W.contents out.new) }
{
    let mut world = match World::new(alloc, line) {
        Ok(world) => world,
        Err(_) => return Err(PlayFault::Untold(PrintFault::Memory)),
    };
    let mut printer = Printer { alloc, line, out };
    let done = printer.print_all(&mut world, entries);
    let Printer { out, .. } = printer;
    // No effect at run time. The proof reads the content of the writer from this use of it.
    let _ = &*out;
    done
}
