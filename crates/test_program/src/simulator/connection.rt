//! The connection of a train: one thread reads and commits, one writes.

use crate::simulator::journal::Reach;
use crate::simulator::judge::Said;
use crate::simulator::run::Run;
use crate::simulator::worker::Worker;
use rbc_centre::Event;
use rbc_log::CentreLog;
use rbc_msgs::{TrackMsg, decode_train};
use rbc_node::Share;
use serve_workers::writing::Reply;
use std::alloc::Global;

/// The number of bytes of the first fields of a message.
const HEAD: usize = 10;

/// The most replies that wait for one connection.
const REPLIES: usize = 6;

/// The connection of a train, as its centre has it.
#[derive(Drop)]
pub struct Connection {
    pub centre: u8,
    /// NID_ENGINE of the train at its other end.
    pub nid_engine: u32,
    /// The thread that reads it.
    pub worker: Worker,
    /// The bytes that its train sent.
    inbox: Vec<u8>,
    // The number of bytes that were read.
    done: usize,
    // The replies that wait for its writer.
    replies: Vec<Reply>,
    /// Whether a thread reads it.
    pub is_read: bool,
    /// Whether the centre ended it.
    pub is_shut: bool,
    /// Whether its train has closed it.
    is_closed: bool,
    /// Whether its train reads nothing now.
    pub is_slow: bool,
    /// T_TRAIN of the last message that left over it.
    pub heard: Option<u32>,
}

impl Connection {
    /// A connection over which nothing has come.
    pub fn new(alloc: Global, share: Share, nid_engine: u32) -> Connection {
        Connection {
            centre: share.centre(),
            nid_engine,
            worker: Worker::new(share),
            inbox: Vec::new(alloc),
            done: 0,
            replies: Vec::new(alloc),
            is_read: true,
            is_shut: false,
            is_closed: false,
            is_slow: false,
            heard: None,
        }
    }

    /// Its train sends bytes.
    pub fn send(&mut self, run: &Run, bytes: &[u8]) {
        run.extend(&mut self.inbox, bytes);
    }

    /// It is lost: of the bytes that were not read only these come. Its centre may not see its end.
    pub fn lose(&mut self, rest: usize, is_closed: bool) {
        self.inbox.truncate(self.done.saturating_add(rest));
        self.is_closed = is_closed;
    }

    /// Whether no message can come any more, though a thread reads it.
    pub fn is_over(&self) -> bool {
        self.is_shut || self.is_closed
    }

    // The bytes that were not read.
    fn rest(&self) -> &[u8] {
        self.inbox.get(self.done..).unwrap_or_default()
    }

    /// The length of the next message, and its engine, if all of it has come.
    pub fn next(&self) -> Option<(usize, u32)> {
        let rest = self.rest();
        let &[_, first, second, _, _, _, a, b, c, d, ..] = rest else {
            return None;
        };
        let length = usize::from(u16::from_be_bytes([first, second]) >> 6).max(HEAD);
        let nid_engine = (u32::from_be_bytes([a, b, c, d]) >> 6) & 0xFF_FFFF;
        (length <= rest.len() && !self.is_shut).then_some((length, nid_engine))
    }

    /// Whether its thread has read each message, or waits to hand in a reply to the interlocking.
    pub fn has_read_all(&self) -> bool {
        !self.is_read || self.next().is_none() || self.worker.has_word()
    }

    /// Commits the message of the next bytes. The result is whether the session goes on.
    pub fn commit(&mut self, run: &Run, log: &mut CentreLog, length: usize) -> bool {
        let bytes = self.rest().get(..length).unwrap_or_default();
        let read = decode_train(run.alloc, bytes);
        self.done = self.done.saturating_add(length);
        match read {
            Ok(message) => self.worker.share.commit(log, Event::Train(message)).is_ok(),
            Err(_) => false,
        }
    }

    /// A reply waits for the writer. If too many wait, the connection is cut.
    pub fn take(&mut self, run: &Run, reply: Reply) {
        if self.replies.len() < REPLIES {
            run.add(&mut self.replies, reply);
        } else {
            self.is_shut = true;
        }
    }

    /// The message of the next reply, once the journal has its event. None waits if the writer ends.
    pub fn due(&mut self, reach: &Reach) -> Option<TrackMsg> {
        if self.is_shut || reach.is_closed {
            self.is_shut = true;
            self.replies.clear();
        }
        let reply = self.replies.first()?;
        let message = reply.message();
        let is_kept = reach.kept.shows(reply.centre(), reply.stamp());
        if self.is_slow || !is_kept || self.replies.is_empty() {
            return None;
        }
        self.replies.remove(0);
        Some(message)
    }

    /// Its thread writes the next reply, if its event is in the journal.
    pub fn write(&mut self, reach: &Reach) -> Option<Leaving> {
        let message = self.due(reach)?;
        let before = self.heard.replace(message.t_train());
        let said = Said {
            centre: self.centre,
            nid_engine: self.nid_engine,
            message,
        };
        Some(Leaving { said, before })
    }
}

/// A message that leaves over a connection.
#[derive(Clone, Copy)]
pub struct Leaving {
    pub said: Said,
    /// T_TRAIN of the message before it over this connection.
    pub before: Option<u32>,
}

/// The centre ends a connection.
pub fn shut(connections: &mut [Connection], ended: Option<usize>) {
    if let Some(number) = ended
        && let Some(connection) = connections.get_mut(number)
    {
        connection.is_shut = true;
    }
}
