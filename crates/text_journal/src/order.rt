ghost use Rattle.std.specs.Prelude.{◌≡◌, IfOk};
ghost use Rattle.std.specs.List.{flat_map};
ghost use Rattle.std.specs.List.Sorted.{IsPermutation};
ghost use Rattle.text_journal.specs.Order.{AreInOrder, AreInTimeOrder};

use crate::entry::Entry;
use std::alloc::{AllocError, Global};

/// Merges the centres' journals, given by the centres' numbers, into one list. It is ordered by stamp, and entries of
/// one stamp by centre. So a journal whose stamps rise keeps its order.
pub fn in_order(alloc: Global, journals: Vec<Vec<Entry>>) -> Result<Vec<Entry>, AllocError>
    ensures once { IfOk result (λ es. IsPermutation (flat_map (λ j. j.items) journals.items) es.items) }
    ensures in_order { IfOk result (λ es. AreInOrder es.items) }
{
    let mut all = all_entries(alloc, journals)?;
    all.sort_by_key(|entry| (entry.stamp, entry.centre()))?;
    Ok(all)
}

/// Puts entries into the order of their times. Entries of one time are ordered by stamp, and those of one stamp by
/// centre. Entries without a time come first.
pub fn in_time_order(mut entries: Vec<Entry>) -> Result<Vec<Entry>, AllocError>
    ensures once { IfOk result (λ es. IsPermutation entries.items es.items) }
    ensures in_order { IfOk result (λ es. AreInTimeOrder es.items) }
{
    entries.sort_by_key(|entry| (entry.time_ms.unwrap_or(0), entry.stamp, entry.centre()))?;
    Ok(entries)
}

// All entries, journal by journal.
fn all_entries(alloc: Global, journals: Vec<Vec<Entry>>) -> Result<Vec<Entry>, AllocError>
    ensures { IfOk result (λ es. es.items ≡ flat_map (λ j. j.items) journals.items) }
{
    let mut all = Vec::new(alloc);
    for mut journal in journals {
        all.append(&mut journal)?;
    }
    Ok(all)
}
