//! A running centre: its log, its journal, and its ways to trains.

use crate::simulator::connection::{Connection, shut};
use crate::simulator::journal::Journal;
use crate::simulator::resumed::Resumed;
use crate::simulator::run::Run;
use crate::simulator::worker::{Part, Worker};
use rbc_centre::Saying;
use rbc_msgs::TrackBody;
use serve_workers::reading::{Bucket, Rate};
use serve_workers::writing::{Lane, Reply};

/// The rate of the messages of a train, and of all other engines together.
pub const RATE: Rate = Rate {
    per_second: 4,
    burst: 8,
};

/// The way to a train, or to all engines together that are not of the line.
#[derive(Drop)]
pub struct Way {
    lane: Lane,
    pub bucket: Bucket,
}

/// A centre with its journal.
#[derive(Drop)]
pub struct Site {
    pub own: Resumed,
    pub journal: Journal,
    /// By the trains' numbers. The last one is that of all other engines.
    pub ways: Vec<Way>,
    /// The threads that commit the commands of the interlocking, by the control connections' numbers.
    pub desks: Vec<Worker>,
}

impl Site {
    /// A centre that has resumed opens its journal after its first `length` bytes.
    pub fn open(run: &Run, own: Resumed, length: usize) -> Option<Site> {
        let journal = Journal::open(run, &own.log, length)?;
        let mut site = Site {
            own,
            journal,
            ways: Vec::new(run.alloc),
            desks: Vec::new(run.alloc),
        };
        site.add_ways(run);
        Some(site)
    }

    fn add_ways(&mut self, run: &Run) {
        for _ in 0..=run.line.train_count() {
            let way = Way {
                lane: Lane::new(run.alloc),
                bucket: Bucket::new(RATE),
            };
            run.add(&mut self.ways, way);
        }
    }

    // The way to an engine.
    fn way(&mut self, run: &Run, nid_engine: u32) -> Option<&mut Way> {
        let others = run.line.train_count();
        let place = run.line.train_number(nid_engine).unwrap_or(others);
        self.ways.get_mut(usize::from(place))
    }

    /// The thread that reads a connection reads the next message, if its train may send one, and commits it. At the end
    /// of the bytes the connection ends. The result is whether it took a step.
    pub fn read(&mut self, run: &Run, connection: &mut Connection, number: usize) -> bool {
        if let Some((length, nid_engine)) = connection.next() {
            if !self.admits(run, nid_engine) {
                return false;
            }
            if connection.commit(run, &mut self.own.log, length) {
                return true;
            }
        } else if !connection.is_over() {
            return false;
        }
        connection.is_read = false;
        self.leave(run, connection.nid_engine, number);
        true
    }

    // Whether an engine may send a message now.
    fn admits(&mut self, run: &Run, nid_engine: u32) -> bool {
        match self.way(run, nid_engine) {
            Some(way) => way.bucket.ask(run.now_ms()).is_ok(),
            None => false,
        }
    }

    // A connection serves its train no more.
    fn leave(&mut self, run: &Run, nid_engine: u32, number: usize) {
        if let Some(way) = self.way(run, nid_engine) {
            way.lane.leave(number);
        }
    }

    /// A thread has handed in a part of an answer, if that may leave. `own` is the connection that it reads. The result
    /// is whether it took a step.
    pub fn go_on(
        &mut self,
        run: &Run,
        connections: &mut [Connection],
        part: Option<Part>,
        own: Option<usize>,
    ) -> bool {
        let Some(Part::Message(saying, stamp)) = part else {
            return part.is_some();
        };
        let begins = beginning(connections, &saying, own);
        let centre = self.own.number;
        if let Ok(reply) = Reply::new(run.alloc, saying.message)
            && let Some(way) = self.way(run, saying.nid_engine)
        {
            way.say(run, begins, reply.answering(centre, stamp), connections);
        }
        true
    }
}

// The connection that begins to serve a train, if the message is an answer to its initiation. It was not ended.
fn beginning(connections: &[Connection], saying: &Saying, own: Option<usize>) -> Option<usize> {
    let number = own?;
    let connection = connections.get(number)?;
    let is_open = connection.is_read && !connection.is_shut;
    let is_version = matches!(saying.message.body(), TrackBody::SystemVersion);
    (is_open && is_version).then_some(number)
}

impl Way {
    // Submits a reply, and releases those whose turn has come. `begins` is the connection that begins to serve the
    // train.
    fn say(
        &mut self,
        run: &Run,
        begins: Option<usize>,
        reply: Reply,
        connections: &mut [Connection],
    ) {
        let is_again = begins.is_some() && self.lane.serving() == begins;
        let said = self.lane.say(begins, reply);
        let is_right = !is_again || said.ended.is_none();
        run.must(is_right, "a second initiation ended its connection");
        shut(connections, said.ended);
        if said.taken.is_err() {
            shut(connections, self.lane.serving());
        }
        self.release(run, connections);
    }

    // Sends each message whose turn it is to the writer of the connection that serves the train. If there is none,
    // they are dropped.
    fn release(&mut self, run: &Run, connections: &mut [Connection]) {
        let serving = self.lane.serving().unwrap_or(usize::MAX);
        for _ in 0..u32::MAX {
            let Some(reply) = self.lane.release() else {
                return;
            };
            if let Some(to) = connections.get_mut(serving) {
                to.take(run, reply);
            }
        }
    }
}
