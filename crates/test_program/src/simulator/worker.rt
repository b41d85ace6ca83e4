//! A thread that commits events at a centre, and hands the answers in.

use crate::simulator::journal::Reach;
use rbc_centre::Saying;
use rbc_node::Share;

/// A thread that commits events: its receipts, and how far it has handed the answers in.
#[derive(Drop)]
pub struct Worker {
    pub share: Share,
    // The number of receipts whose answers were handed in.
    handed: usize,
    // The number of messages of the next receipt that were handed in.
    said: usize,
    /// Whether it hands no answer in for now.
    pub is_held: bool,
}

/// The next part of an answer.
#[derive(Clone, Copy)]
pub enum Part {
    /// A message to a train, and the stamp of its event.
    Message(Saying, u32),
    /// No message is left.
    End,
}

impl Worker {
    /// A thread that has committed nothing.
    pub fn new(share: Share) -> Worker {
        Worker {
            share,
            handed: 0,
            said: 0,
            is_held: false,
        }
    }

    /// Whether each answer was handed in.
    pub fn is_idle(&self) -> bool {
        self.handed >= self.share.receipts().len()
    }

    /// Whether the next answer has a reply to the interlocking.
    pub fn has_word(&self) -> bool {
        match self.share.receipts().get(self.handed) {
            Some(receipt) => receipt.outcome.word.is_some(),
            None => false,
        }
    }

    /// Hands in the next part of an answer, if that may leave. An answer to the interlocking waits for its event here.
    pub fn hand_in(&mut self, reach: &Reach) -> Option<Part> {
        let outcome = &self.share.receipts().get(self.handed)?.outcome;
        let stamp = outcome.stamp;
        if self.is_held || reach.holds_up(stamp, outcome.word.is_some()) {
            return None;
        }
        match outcome.sayings.as_slice().get(self.said) {
            Some(saying) if !reach.is_closed => {
                self.said = self.said.saturating_add(1);
                Some(Part::Message(*saying, stamp))
            }
            _ => {
                self.handed = self.handed.saturating_add(1);
                self.said = 0;
                Some(Part::End)
            }
        }
    }
}
