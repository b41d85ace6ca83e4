ghost use Rattle.std.specs.Prelude.{◌↔◌, IsTrue};
ghost use Rattle.rbc_node.specs.Receipts.{Has};

use rbc_centre::{Event, Outcome};
use rbc_log::Entry;

/// The record of a committed event: the event, its outcome, and the position of its entry in the centre's log.
#[derive(Debug, Drop)]
pub struct Receipt {
    pub event: Event,
    pub outcome: Outcome,
    /// The place, from 0.
    pub place: usize,
}

impl Receipt {
    /// Whether an entry of the log at its place has its event and its outcome.
    pub(crate) fn is_in(&self, entries: &[Entry]) -> bool
        ensures { IsTrue result ↔ Has entries.now self.now }
    {
        match entries.get(self.place) {
            Some(entry) => {
                entry.event.is_same(&self.event) && entry.outcome.is_same(&self.outcome)
            }
            None => false,
        }
    }
}
