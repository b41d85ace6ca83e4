use text_journal::Entry;
use text_script::{Answer, WorldEvent};

/// The place of an unfit entry: the centre of its journal, and its line in that journal, from 1.
#[derive(Clone, Copy)]
pub struct Place {
    pub centre: u8,
    pub row: usize,
    /// The centre that has not sent the frame of the entry, if the entry is unfit for this reason.
    pub sender: Option<u8>,
}

/// The sender of an event's frame, if the answer is that the frame was not sent.
pub(crate) fn missing_sender(answer: &Answer, event: &WorldEvent) -> Option<u8> {
    match (answer, event) {
        (Answer::NotSent, WorldEvent::Deliver { from, .. }) => Some(*from),
        _ => None,
    }
}

/// The line of a centre's journal that follows its entries among the first `at` entries of all centres. The first
/// line of a journal is not an entry.
pub(crate) fn next_row(entries: &[Entry], at: usize, centre: u8) -> usize {
    entries
        .iter()
        .take(at)
        .filter(|entry| entry.centre() == centre)
        .count()
        .saturating_add(2)
}
