//! The events of a print: the lines that begin with `> `.

ghost use Rattle.std.specs.Prelude.{◌≡◌, IfOk, is_some};
ghost use Rattle.rbc_spec.specs.World.{centre_of};
ghost use Rattle.text_script.specs.rbc_world.Views.{event_of};

use rbc_line::Line;
use std::alloc::Global;
use text_script::WorldEvent;
use text_script::script::{Entry, ScriptFault, script_of};
use text_script::status::Fault;

/// The beginning of an event's line in a print.
pub(crate) const EVENT: &str = "> ";

/// The place in the line file of the train of this NID_ENGINE, if one is named. An error if it is not of the line.
pub fn train_in(line: &Line, train: Option<u32>) -> Result<Option<u8>, Fault<'static>>
    ensures { IfOk result (λ place. is_some place ≡ is_some train) }
{
    let Some(nid_engine) = train else {
        return Ok(None);
    };
    match line.train_number(nid_engine) {
        Some(train) => Ok(Some(train)),
        None => Err(Fault::NoTrain(nid_engine)),
    }
}

/// The events of a print, in order. An error names the first line that has no form of a script.
pub fn events_in(
    alloc: Global,
    line: &Line,
    printed: &str,
) -> Result<Vec<WorldEvent>, Fault<'static>> {
    let mut events = Vec::new(alloc);
    for (r, row) in printed.split('\n').enumerate() {
        if let Some(text) = row.strip_prefix(EVENT) {
            add_event(alloc, line, r.saturating_add(1), text, &mut events)?;
        }
    }
    Ok(events)
}

// Adds the event of a line; `row` is the line's number. `show` is not an event.
fn add_event(
    alloc: Global,
    line: &Line,
    row: usize,
    text: &str,
    events: &mut Vec<WorldEvent>,
) -> Result<(), Fault<'static>> {
    match script_of(alloc, line, text) {
        Ok(entries) => {
            for entry in entries {
                if let Entry::Event(event) = entry {
                    events.push(event)?;
                }
            }
            Ok(())
        }
        Err(ScriptFault::Form(_)) => Err(Fault::Script(row)),
        Err(fault) => Err(fault.into()),
    }
}

/// The centre at which an event happens.
pub(crate) fn centre_of(event: &WorldEvent) -> u8
    ensures { result ≡ centre_of (event_of event.now) }
{
    match event {
        WorldEvent::Train { centre, .. }
        | WorldEvent::Set { centre, .. }
        | WorldEvent::Unset { centre, .. } => *centre,
        WorldEvent::Deliver { to, .. } => *to,
    }
}
