//! Judges each message and text that leaves the centres, at that time.

use crate::simulator::connection::{Connection, Leaving};
use crate::simulator::control::{JOURNAL_FAULT, SCRIPT_FAULT};
use crate::simulator::judge::{Judge, Said};
use crate::simulator::run::Run;
use rbc_msgs::TrackBody;

const TOO_EARLY: &str = "an answer left before its event was durable";

impl Judge {
    /// A message of a centre left over a connection to a train.
    pub fn to_train(&mut self, run: &Run, leaving: &Leaving) {
        if !self.has_said(&leaving.said) {
            self.catch_up(run);
            run.must(self.has_said(&leaving.said), TOO_EARLY);
        }
        let message = &leaving.said.message;
        let is_next = match leaving.before {
            Some(last) => message.t_train() == last.saturating_add(1),
            None => message.body() == TrackBody::SystemVersion,
        };
        run.must(is_next, "a message was left out, or came out of order");
    }

    // Whether an event of a journal has this message.
    fn has_said(&self, said: &Said) -> bool {
        self.said.iter().any(|it| it == said)
    }

    /// Whether the last message of a centre to a train left over this connection, or none did.
    pub fn is_complete(&self, connection: &Connection) -> bool {
        let mut last = None;
        for said in &self.said {
            if said.centre == connection.centre && said.nid_engine == connection.nid_engine {
                last = Some(said.message.t_train());
            }
        }
        connection.heard.is_none() || connection.heard == last
    }

    /// A text left over a control connection.
    pub fn to_control(&mut self, run: &Run, text: &[u8]) {
        if !self.may_leave(text) {
            self.catch_up(run);
            run.must(self.may_leave(text), TOO_EARLY);
        }
    }

    // Whether the text shows a line that the journals had, or answers an event that they have, or is a fault. An answer
    // leaves once.
    fn may_leave(&mut self, text: &[u8]) -> bool {
        if let Some(shown) = text.strip_prefix("> show\n".as_bytes()) {
            return self.is_shown(shown);
        }
        for place in 0..self.answers.len() {
            if let Some(answer) = self.answers.get(place)
                && answer.as_slice() == text
            {
                let _ = self.answers.swap_remove(place);
                return true;
            }
        }
        text == JOURNAL_FAULT.as_bytes() || text == SCRIPT_FAULT.as_bytes()
    }

    // Whether each centre's part of a shown line is one that its journal had.
    fn is_shown(&self, text: &[u8]) -> bool {
        let mut rest = text;
        for known in &self.known {
            match after_one_of(&known.shown, rest) {
                Some(after) => rest = after,
                None => return false,
            }
        }
        true
    }
}

// The bytes after one of these texts, if a text begins with it.
fn after_one_of<'a>(texts: &[Vec<u8>], bytes: &'a [u8]) -> Option<&'a [u8]> {
    for text in texts {
        if let Some(after) = bytes.strip_prefix(text.as_slice()) {
            return Some(after);
        }
    }
    None
}
