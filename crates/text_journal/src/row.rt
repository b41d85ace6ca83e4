ghost use Rattle.std.specs.Prelude.{◌≡◌, ◌↔◌, ℕ, ◌<◌, ◌^◌, ◌∷◌, ◌++◌, [], true, length, slice_index, IsTrue};
ghost use Rattle.rbc_spec.specs.Line.{IsLine, is_centre};
ghost use Rattle.text_script.specs.Entries.{event_of};
ghost use Rattle.text_journal.specs.Reading.{ArePartsOf, AreTimeAndWords, Finds, Guesses, IsAt, Tells};

use crate::entry::Entry;
use crate::writing::entry_line;
use rbc_line::Line;
use std::alloc::Global;
use text_script::WorldEvent;
use text_script::script::{self, EntryFault, entry_of};

/// Reads the entry of this line of the centre's journal. The line is given without its line feed.
pub(crate) fn entry_in(
    alloc: Global,
    line: &Line,
    centre: u8,
    row: &str,
) -> Result<Entry, EntryFault>
    requires line { IsLine line.now }
    requires centre { is_centre line.now centre ≡ true }
    ensures { Finds line.now centre row.now result }
{
    match guessed(alloc, line, row) {
        Ok(entry) => told(alloc, line, centre, row, entry),
        Err(why) => Err(why),
    }
}

// Reads the entry, if the centre's journal may contain it and this is its line.
fn told(
    alloc: Global,
    line: &Line,
    centre: u8,
    row: &str,
    entry: Entry,
) -> Result<Entry, EntryFault>
    requires { is_centre line.now centre ≡ true }
    ensures { Tells line.now centre row.now entry result }
{
    if !is_at(line, centre, &entry.event) {
        return Err(EntryFault::Form);
    }
    match entry_line(alloc, line, &entry) {
        Ok(spelled) => {
            if is_ended(&spelled, row) {
                Ok(entry)
            } else {
                Err(EntryFault::Form)
            }
        }
        Err(_) => Err(EntryFault::Memory),
    }
}

// Reads the entry that a line has, if it has one. The checksum is not compared.
fn guessed(alloc: Global, line: &Line, row: &str) -> Result<Entry, EntryFault>
    requires { IsLine line.now }
    ensures { Guesses line.now row.now result }
{
    let Some((stamp, time_ms, words)) = parts(row) else {
        return Err(EntryFault::Form);
    };
    match entry_of(alloc, line, words) {
        Ok(script::Entry::Event(event)) => Ok(Entry {
            stamp,
            time_ms,
            event,
        }),
        Ok(script::Entry::Show) => Err(EntryFault::Form),
        Err(why) => Err(why),
    }
}

// The stamp, the time and the words of the event: they follow the checksum.
fn parts(row: &str) -> Option<(u32, Option<u64>, &str)>
    ensures { ArePartsOf row.now result }
{
    let (_, told) = row.split_once(' ')?;
    let (digits, rest) = told.split_once(' ')?;
    let Ok(stamp) = digits.parse() else {
        return None;
    };
    let (time_ms, words) = time_and_words(rest)?;
    Some((stamp, time_ms, words))
}

// The time, if the text begins with one, and the words of the event: they follow the sign of an event.
fn time_and_words(text: &str) -> Option<(Option<u64>, &str)>
    ensures { AreTimeAndWords text.now result }
{
    if let Some(words) = text.strip_prefix("> ") {
        return Some((None, words));
    }
    let (digits, event) = text.split_once(' ')?;
    let Ok(ms) = digits.parse() else {
        return None;
    };
    let words = event.strip_prefix("> ")?;
    Some((Some(ms), words))
}

// Whether the text is the line with its line feed.
fn is_ended(text: &[u8], row: &str) -> bool
    ensures { IsTrue result ↔ (text.now ≡ row.now ++ 10 ∷ []) }
{
    match text.split_last() {
        Some((last, front)) => *last == b'\n' && front == row.as_bytes(),
        None => false,
    }
}

// Whether the event reaches this centre, and a line of a script can ask for it.
fn is_at(line: &Line, centre: u8, event: &WorldEvent) -> bool
    ensures { IsTrue result ↔ IsAt line.now centre (event_of event.now) }
{
    match event {
        WorldEvent::Train { centre: at, bytes } => *at == centre && are_bytes(bytes),
        WorldEvent::Set {
            centre: at,
            section,
        } => is_section_at(*at, *section, centre),
        WorldEvent::Unset {
            centre: at,
            section,
        } => is_section_at(*at, *section, centre),
        WorldEvent::Deliver { from, to, number } => {
            *to == centre && is_frame_from(line, *from, *number)
        }
    }
}

// Whether there is a byte.
fn are_bytes(bytes: &[u8]) -> bool
    ensures { IsTrue result ↔ ((0 < length bytes.now) × ((i : ℕ) → slice_index bytes.now i < 256)) }
{
    !bytes.is_empty()
}

// Whether the event of this section reaches the centre.
fn is_section_at(at: u8, section: u16, centre: u8) -> bool
    ensures { IsTrue result ↔ ((at ≡ centre) × (section < 2 ^ 16)) }
{
    at == centre
}

// Whether a centre of the line may send a frame of this number.
fn is_frame_from(line: &Line, from: u8, number: u32) -> bool
    ensures { IsTrue result ↔ ((is_centre line.now from ≡ true) × (number < 2 ^ 32)) }
{
    from < line.centre_count()
}
