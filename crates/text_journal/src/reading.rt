ghost use Rattle.std.specs.Prelude.{◌≡◌, ◌≢◌, map, true, List, IfOk, IfErr};
ghost use Rattle.rbc_spec.specs.Line.{IsLine, is_centre};
ghost use Rattle.text_journal.specs.Journal.{Version};
ghost use Rattle.text_journal.specs.Reading.{Begins, Follows, noted_of};
ghost use Rattle.text_journal.specs.declared.entry.Entry.{Entry};
ghost use Rattle.text_journal.specs.declared.fault.JournalFault.TheVariants.{Memory};

use crate::entry::Entry;
use crate::fault::JournalFault;
use crate::first::{begins_first_line, is_first_line};
use crate::row::entry_in;
use rbc_line::Line;
use std::alloc::Global;
use text_script::script::EntryFault;

/// Reads the entries of a centre's journal, which may be of version 1 or 2, and may end anywhere. A last line without a
/// line feed is left out. In both versions a line may have a time or none. The first line has a digest. In
/// version 1 it is that of `file`, the text of the line file. In version 2 it is that of all values of the line.
pub fn read_journal(
    alloc: Global,
    line: &Line,
    centre: u8,
    file: &str,
    text: &str,
) -> Result<Vec<Entry>, JournalFault>
    requires { is_centre line.now centre ≡ true }
    ensures found { IfOk result (λ read. (v : Version) × Begins v line.now centre file.now text.now read.items) }
    ensures only { IfOk result (λ read. (v : Version) (es : List Entry)
        → Begins v line.now centre file.now text.now es → map noted_of read.items ≡ map noted_of es) }
    ensures refused { IfErr result (λ why. why ≢ Memory → (v : Version) (es : List Entry)
        → Begins v line.now centre file.now text.now es → ⊥) }
{
    known_line(line);
    match text.split_once('\n') {
        Some((row, rest)) => {
            if is_first_line(alloc, line, centre, file, row)? {
                entries_in(alloc, line, centre, rest)
            } else {
                Err(JournalFault::Foreign)
            }
        }
        None => {
            if begins_first_line(alloc, line, centre, file, text)? {
                Ok(Vec::new(alloc))
            } else {
                Err(JournalFault::Foreign)
            }
        }
    }
}

// Reads the entries after the first line.
fn entries_in(
    alloc: Global,
    line: &Line,
    centre: u8,
    text: &str,
) -> Result<Vec<Entry>, JournalFault>
    requires line { IsLine line.now }
    requires centre { is_centre line.now centre ≡ true }
    ensures found { IfOk result (λ read. Follows line.now centre text.now read.items) }
    ensures refused { IfErr result (λ why. why ≢ Memory → (es : List Entry)
        → Follows line.now centre text.now es → ⊥) }
{
    let mut entries = Vec::new(alloc);
    let mut rest = text;
    while let Some((row, others)) = rest.split_once('\n') {
        match entry_in(alloc, line, centre, row) {
            Ok(entry) => entries.push(entry)?,
            Err(EntryFault::Memory) => return Err(JournalFault::Memory),
            Err(EntryFault::Form) => return Err(JournalFault::Damaged(entries.len() + 2)),
        }
        rest = others;
    }
    Ok(entries)
}

// States that each line keeps the rules of a line.
fn known_line(line: &Line)
    ensures { IsLine line.now }
{
    line.nid_c();
}
