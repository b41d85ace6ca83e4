ghost use Rattle.text_journal.specs.Order.{IsFirstFallen, stamps_of};

use crate::entry::Entry;

/// The place of the first entry whose stamp is not above the one before it. The stamps of a centre rise, so a journal
/// with such an entry comes from no run.
pub fn first_fallen(entries: &[Entry]) -> Option<usize>
    ensures { IsFirstFallen (stamps_of entries.now) result }
{
    for at in 1..entries.len() {
        if entries[at].stamp <= entries[at - 1].stamp {
            return Some(at);
        }
    }
    None
}
