ghost use Rattle.std.specs.Prelude.{◌≡◌, ℕ, List, IfOk, OnOk};
ghost use Rattle.std.specs.Io.KnownBytes.{Appends};
ghost use Rattle.law_logs.specs.Logs.{happened};
ghost use Rattle.rbc_log.specs.Entries.{entry_of};
ghost use Rattle.rbc_log.specs.Merge.{IsMerged, MakesOneRun};
ghost use Rattle.text_script.specs.rbc_world.Views.{event_of};
ghost use Rattle.serve_control.specs.Events.{IsCommitted};
ghost use Rattle.serve_control.specs.Prints.{IsEntryPrint, IsPrintOfEntries, IsPrintOfLogs};

use crate::fault::ServeFault;
use rbc_line::Line;
use rbc_log::{CentreLog, Entry, merge};
use rbc_msgs::encode_train;
use rbc_node::Family;
use std::alloc::Global;
use std::io::Write;
use text_script::print::{name_of, print_event, print_line, print_outcome};
use text_script::status::Fault;
use text_script::{Answer, Event, StepFault, World, WorldEvent};

/// Prints the events of all logs in the order of their stamps, each with its effects from its log, and the line at the
/// end. It writes line by line, so the writer needs a buffer.
pub fn print_family<O: Write>(
    alloc: Global,
    line: &Line,
    family: &Family,
    out: &mut O,
) -> Result<(), ServeFault>
    ensures { OnOk result ((text : List ℕ) × IsPrintOfLogs line.now family.now text
        × Appends (O.contents out.old) (O.contents out.new) text) }
{
    let entries = merged(alloc, family.logs())?;
    Ok(print_entries(alloc, line, &entries, out)?)
}

// The entries of all logs, merged.
fn merged(alloc: Global, logs: &[CentreLog]) -> Result<Vec<Entry>, ServeFault>
    ensures merged { IfOk result (λ es. IsMerged logs.now es.items) }
    ensures run { IfOk result (λ es. MakesOneRun logs.now es.items) }
{
    let mut lent: Vec<&CentreLog> = Vec::new(alloc);
    for log in logs {
        lent.push(log)?;
    }
    Ok(merge(alloc, &lent)?)
}

// Prints the events of merged entries in order, each with the outcome in its log, and the line at the end.
fn print_entries<O: Write>(
    alloc: Global,
    line: &Line,
    entries: &[Entry],
    out: &mut O,
) -> Result<(), Fault<'static>>
    ensures { OnOk result ((text : List ℕ) × IsPrintOfEntries line.now entries.now text
        × Appends (O.contents out.old) (O.contents out.new) text) }
{
    let mut world = World::new(alloc, line)?;
    let mut answer = Answer::nothing();
    for entry in entries {
        let event = print_entry(alloc, line, entry, out)?;
        world.step_to(&event, &mut answer)?;
    }
    Ok(print_line(alloc, out, line, &world)?)
}

// Prints the event of an entry and its outcome, and returns the event.
fn print_entry<O: Write>(
    alloc: Global,
    line: &Line,
    entry: &Entry,
    out: &mut O,
) -> Result<WorldEvent, Fault<'static>>
    ensures happened { IfOk result (λ event. event_of event ≡ happened (entry_of entry.now)) }
    ensures print { OnOk result ((text : List ℕ) × IsEntryPrint line.now entry.now text
        × Appends (O.contents out.old) (O.contents out.new) text) }
{
    let event = world_event(alloc, entry)?;
    print_event(alloc, out, line, &event)?;
    let name = name_of(line, entry.centre);
    print_outcome(alloc, out, line, name, &entry.outcome)?;
    Ok(event)
}

/// The event of an entry as its centre received it. The bytes of a train's message spell the whole message.
pub fn world_event(alloc: Global, entry: &Entry) -> Result<WorldEvent, Fault<'static>>
    ensures happened { IfOk result (λ event. event_of event ≡ happened (entry_of entry.now)) }
    ensures whole { IfOk result (IsCommitted entry.now.centre entry.now.event) }
{
    let centre = entry.centre;
    match &entry.event {
        Event::Train(message) => match encode_train(alloc, message) {
            Ok(bytes) => Ok(WorldEvent::Train { centre, bytes }),
            Err(_) => Err(Fault::Step(StepFault::Memory)),
        },
        Event::Set(section) => Ok(WorldEvent::Set {
            centre,
            section: *section,
        }),
        Event::Unset(section) => Ok(WorldEvent::Unset {
            centre,
            section: *section,
        }),
        Event::Deliver { from, frame } => Ok(WorldEvent::Deliver {
            from: *from,
            to: centre,
            number: frame.number(),
        }),
    }
}
