//! The print of the centres when they end.

ghost use Rattle.std.specs.List.{fold};
ghost use Rattle.std.specs.Prelude.{◌≡◌, OnOk};
ghost use Rattle.serve_line.specs.Prints.{AddsPrint, with_entries};

use crate::tally::{Tally, TallyWriter};
use rbc_line::Line;
use rbc_node::Family;
use serve_control::{ServeFault, print_family};
use serve_notes::{About, Kind, Notes};
use std::alloc::{AllocError, Global};
use std::io::{BufWriter, Write};

/// Prints all events. If a write fails, a note reports the number of missing events.
pub(crate) fn print_noted<N: Notes, O: Write>(
    alloc: Global,
    line: &Line,
    family: &Family,
    notes: &N,
    out: &mut O,
) -> Result<(), ServeFault>
    ensures { OnOk result (AddsPrint line.now family.now (O.contents out.old) (O.contents out.new)) }
{
    let mut tally = Tally::new();
    let done = print_buffered(alloc, line, family, &mut tally, out);
    if done.is_err() {
        note_short(notes, family, tally.events());
    }
    done
}

// Notes that the print has only the first events.
fn note_short<N: Notes>(notes: &N, family: &Family, printed: u64) {
    let all = entries_of(family);
    notes.note(
        About::of(Kind::PrintShort),
        format_args!(
            "the print ends early: {printed} of {all} events are in it, the last perhaps in part"
        ),
    );
}

// The number of entries of all logs.
fn entries_of(family: &Family) -> u64
    ensures { result ≡ fold with_entries 0 family.now }
{
    let mut all = 0u64;
    for log in family.logs() {
        all = all.saturating_add(log.entries().len() as u64);
    }
    all
}

// Prints all events through a buffer, which is empty afterwards, unless a write fails.
fn print_buffered<O: Write>(
    alloc: Global,
    line: &Line,
    family: &Family,
    tally: &mut Tally,
    out: &mut O,
) -> Result<(), ServeFault>
    ensures { OnOk result (AddsPrint line.now family.now (O.contents out.old) (O.contents out.new)) }
{
    let Ok(mut held) = BufWriter::new(alloc, TallyWriter { out, tally }) else {
        return Err(AllocError.into());
    };
    let done = print_family(alloc, line, family, &mut held);
    let flushed = held.flush();
    let (writer, _) = held.into_parts();
    let TallyWriter { out, .. } = writer;
    // No effect at run time. The proof reads the content of the writer from this use of it.
    let _ = &*out;
    match flushed {
        Ok(()) => done,
        Err(error) => done.and(Err(ServeFault::Run(error.into()))),
    }
}
