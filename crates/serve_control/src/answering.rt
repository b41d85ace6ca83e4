ghost use Rattle.std.specs.Prelude.{ℕ, List, OnOk};
ghost use Rattle.std.specs.Io.KnownBytes.{Appends};
ghost use Rattle.serve_control.specs.Answers.{IsCommitPrint};

use rbc_line::Line;
use rbc_node::ShareFault;
use std::alloc::Global;
use std::io::Write;
use text_script::print::{name_of, print_event, print_outcome};
use text_script::status::PrintFault;
use text_script::{Outcome, WorldEvent};

/// Prints the answer to the interlocking after its event at a centre. This is the event and its effects, as a run
/// prints them. If the commit was refused, it is the number of the fault.
pub fn print_commit<W: Write>(
    alloc: Global,
    out: &mut W,
    line: &Line,
    centre: u8,
    event: &WorldEvent,
    answer: &Result<Outcome, ShareFault>,
) -> Result<(), PrintFault>
    ensures { OnOk result ((text : List ℕ) × IsCommitPrint line.now centre event.now answer.now text
        × Appends (W.contents out.old) (W.contents out.new) text) }
{
    match answer {
        Ok(outcome) => {
            print_event(alloc, out, line, event)?;
            print_outcome(alloc, out, line, name_of(line, centre), outcome)
        }
        Err(fault) => {
            writeln!(out, "refused {}", fault.number())?;
            Ok(())
        }
    }
}
