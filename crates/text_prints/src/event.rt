//! The event of a line of a print.

ghost use Rattle.std.specs.Prelude.{◌≡◌, IfErr, IfOk, None, option_map, Some};
ghost use Rattle.rbc_watch.specs.Events.{event_of};
ghost use Rattle.text_script.specs.Entries.{asked_of};
ghost use Rattle.text_script.specs.Entries as entries;
ghost use Rattle.text_script.specs.Script.{row_asks};
ghost use Rattle.text_prints.specs.declared.fault.RowFault.TheVariants as refused;
ghost use Rattle.text_prints.specs.Events.{event_asked};

use crate::fault::RowFault;
use rbc_line::Line;
use rbc_watch::Event;
use std::alloc::{AllocError, Global};
use text_script::WorldEvent;
use text_script::script::{Entry, EntryFault, entry_of};

/// The event of a line of a script; `show` is none.
pub(crate) fn event_in(alloc: Global, line: &Line, text: &str) -> Result<Option<Event>, RowFault>
    ensures event { IfOk result (λ event.
        option_map event_asked (row_asks line.now text.now) ≡ Some (option_map event_of event)) }
    ensures fault { IfErr result (λ fault. fault ≡ refused.Event → row_asks line.now text.now ≡ None) }
{
    match entry_of(alloc, line, text) {
        Ok(entry) => Ok(event_of_entry(alloc, &entry)?),
        Err(EntryFault::Memory) => Err(RowFault::Memory),
        Err(EntryFault::Form) => Err(RowFault::Event),
    }
}

/// The event of an entry; `show` is none.
fn event_of_entry(alloc: Global, entry: &Entry) -> Result<Option<Event>, AllocError>
    ensures { IfOk result (λ event. event_asked (asked_of entry.now) ≡ option_map event_of event) }
{
    match entry {
        Entry::Show => Ok(None),
        Entry::Event(event) => Ok(Some(event_from(alloc, event)?)),
    }
}

/// The event as a monitor takes it.
fn event_from(alloc: Global, event: &WorldEvent) -> Result<Event, AllocError>
    ensures { IfOk result (λ x. event_asked (entries.event_of event.now) ≡ Some (event_of x)) }
{
    match event {
        WorldEvent::Train { centre, bytes } => Event::from_bytes(alloc, *centre, bytes),
        WorldEvent::Set { centre, section } => Ok(Event::Set {
            centre: *centre,
            section: *section,
        }),
        WorldEvent::Unset { centre, section } => Ok(Event::Unset {
            centre: *centre,
            section: *section,
        }),
        WorldEvent::Deliver { from, to, number } => Ok(Event::Delivery {
            from: *from,
            to: *to,
            number: *number,
        }),
    }
}
