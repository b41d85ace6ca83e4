ghost use Rattle.std.specs.Prelude.{◌≡◌, ◌<◌, ◌↔◌, ◌∷◌, [], IsTrue, All, IfOk, OnErr, length, map};
ghost use Rattle.rbc_log.specs.Merge.{all_entries};
ghost use Rattle.rbc_node.specs.Counted.{counted};
ghost use Rattle.rbc_node.specs.Gather.{places_in, places_of, HasEachOnce};

use crate::receipt::Receipt;
use crate::share::Share;
use rbc_log::CentreLog;
use std::alloc::{AllocError, Global};

/// Whether each entry of each log is named by exactly one receipt of its shares.
pub(crate) fn have_each_once(
    alloc: Global,
    logs: &[CentreLog],
    shares: &[Share],
) -> Result<bool, AllocError>
    ensures exact { IfOk result (λ answer. IsTrue answer ↔ All (HasEachOnce shares.now) logs.now) }
    ensures memory { OnErr result (0 < length (all_entries logs.now)) }
{
    for log in logs {
        if !has_each_once(alloc, log, shares)? {
            return Ok(false);
        }
    }
    Ok(true)
}

// Whether each entry of the log is named by exactly one receipt. For an empty log it takes no memory.
fn has_each_once(alloc: Global, log: &CentreLog, shares: &[Share]) -> Result<bool, AllocError>
    ensures exact { IfOk result (λ answer. IsTrue answer ↔ HasEachOnce shares.now log.now) }
    ensures memory { OnErr result (0 < length log.now.entries) }
{
    if log.entries().is_empty() {
        return Ok(true);
    }
    let mut counts = vec![in alloc; 0u8; log.entries().len()]?;
    count_shares(&mut counts, log.number(), shares);
    Ok(are_ones(counts.as_slice()))
}

// Counts the places that the receipts of one centre's shares name.
fn count_shares(counts: &mut Vec<u8>, centre: u8, shares: &[Share])
    ensures { counts.new.items ≡ counted counts.old.items (places_of centre shares.now) }
{
    for share in shares {
        count_share(counts, centre, share);
    }
}

// Counts the positions that the receipts of a share name, if it is of this centre.
fn count_share(counts: &mut Vec<u8>, centre: u8, share: &Share)
    ensures { counts.new.items ≡ counted counts.old.items (places_in centre share.now) }
{
    if share.centre() == centre {
        count_places(counts, share.receipts());
    }
}

fn count_places(counts: &mut Vec<u8>, receipts: &[Receipt])
    ensures { counts.new.items ≡ counted counts.old.items (map (λ r. r.place) receipts.now) }
{
    for receipt in receipts {
        count_place(counts, receipt.place);
    }
}

// Counts one place, up to two. A place past the end is not counted.
fn count_place(counts: &mut Vec<u8>, place: usize)
    ensures { counts.new.items ≡ counted counts.old.items (place ∷ []) }
{
    if let Some(count) = counts.get_mut(place) {
        if *count < 2 {
            *count += 1;
        } else {
            *count = 2;
        }
    }
}

// Whether each place was named once.
fn are_ones(counts: &[u8]) -> bool
    ensures { IsTrue result ↔ All (λ c. c ≡ 1) counts.now }
{
    counts.iter().all(|count| *count == 1)
}
