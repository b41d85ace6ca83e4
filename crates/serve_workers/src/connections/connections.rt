ghost use Rattle.std.specs.Prelude.{◌≡◌, length, IfErr, IfNone, IfOk, IfSome, IsTrue, None, Some};
ghost use Rattle.serve_workers.specs.Writing.Lane.{early_after, kept, serving_after, turn_after};

use crate::AnswerSink;
use crate::connections::connection::Connection;
use crate::connections::releasing::{release, rest};
use crate::connections::route::{Route, route_of};
use crate::connections::routing_table::RoutingTable;
use crate::writing::{Lane, Reply};
use rbc_centre::{Outcome, Saying};
use rbc_line::Line;
use rbc_msgs::EncodeFault;
use std::alloc::{AllocError, Global};
use std::sync::{Arc, Mutex, Wait};
use std::thread::Parker;

/// The connections of trains at a centre, and the wakers of the links that carry its frames.
#[derive(Drop)]
pub struct TrainConnections<'a> {
    alloc: Global,
    line: &'a Line,
    board: Mutex<RoutingTable<Arc<Connection, Global>>>,
    // In the order of the trains in the line file.
    lanes: Vec<Mutex<Lane>>,
    links: &'a [Parker],
    // The centre whose journal keeps the event of each reply before it leaves. `None` if no reply waits.
    journal: Option<u8>,
}

impl<'a> TrainConnections<'a> {
    /// Places for this many connections; there is no connection yet. The replies wait for no event.
    pub fn new(
        alloc: Global,
        line: &'a Line,
        connections: usize,
        links: &'a [Parker],
    ) -> Result<TrainConnections<'a>, AllocError>
        ensures lanes { IfOk result (λ c. length c.lanes.items ≡ length line.now.trains) }
        ensures journal { IfOk result (λ c. c.journal ≡ None) }
    {
        let board = RoutingTable::new(alloc, connections)?;
        Ok(TrainConnections {
            alloc,
            line,
            board: Mutex::new(board),
            lanes: lanes_of(alloc, line.train_count())?,
            links,
            journal: None,
        })
    }

    /// The same connections. Each reply leaves once the journal of this centre keeps its event, and at once if there is
    /// none.
    pub fn held(self, journal: Option<u8>) -> TrainConnections<'a>
        ensures { result.journal ≡ journal }
    {
        let mut connections = self;
        connections.journal = journal;
        connections
    }

    /// Registers a connection under this number. It serves no train yet.
    pub fn enter<R: Wait>(
        &self,
        rt: &R,
        number: usize,
        connection: Connection,
    ) -> Result<(), AllocError> {
        let connection = Arc::new(self.alloc, connection.held(self.journal.is_some()))?;
        self.board.lock(rt).enter(number, connection);
        Ok(())
    }

    /// Removes the connection of this number. It serves no train any more. It returns false if the connection was cut,
    /// since its train was too slow, or is not registered.
    pub fn leave<R: Wait>(&self, rt: &R, number: usize) -> bool {
        let train = self.board.lock(rt).train_of(number);
        self.leave_lane(rt, number, train);
        let connection = self.board.lock(rt).leave(number);
        connection.is_some_and(|connection| !connection.is_cut())
    }

    // The connection of this number serves this train no more.
    fn leave_lane<R: Wait>(&self, rt: &R, number: usize, train: Option<usize>) {
        let Some(train) = train else {
            return;
        };
        if let Some(place) = self.lanes.get(train) {
            place.lock(rt).leave(number);
        }
    }

    /// Whether the connection of this number serves a train.
    pub fn is_serving<R: Wait>(&self, rt: &R, number: usize) -> bool {
        let train = self.board.lock(rt).train_of(number);
        match train {
            Some(train) => self.is_served_by(rt, train, number),
            None => false,
        }
    }

    /// Whether the connection of this number serves the train of this engine.
    pub fn serves<R: Wait>(&self, rt: &R, number: usize, nid_engine: u32) -> bool {
        match self.line.train_number(nid_engine) {
            Some(train) => self.is_served_by(rt, train as usize, number),
            None => false,
        }
    }

    // Whether the connection of this number serves this train.
    fn is_served_by<R: Wait>(&self, rt: &R, train: usize, number: usize) -> bool {
        match self.lanes.get(train) {
            Some(place) => place.lock(rt).serves(number),
            None => false,
        }
    }

    // Submits a message to the lane of its train, and releases the messages whose turn has come. `own` is the number of
    // the connection that the calling thread reads, and `stamp` that of the event.
    fn say<R: Wait>(&self, rt: &R, own: Option<usize>, saying: &Saying, stamp: u32) {
        let Some(route) = route_of(self.line, own, saying) else {
            return;
        };
        let Some(place) = self.lanes.get(route.train) else {
            return;
        };
        self.leave_other(rt, &route);
        let reply = reply_to(self.alloc, saying, self.journal, stamp);
        let mut lane = place.lock(rt);
        let begins = self.open(rt, route.begins);
        let is_taken = self.submit(rt, &mut lane, begins, reply);
        let to = self.connection_of(rt, &lane, route.train);
        let is_long = release(rt, own, to, lane, is_taken);
        if is_long && own.is_some() {
            rest(rt, place);
        }
    }

    // The connection whose initiation is answered serves no other train any more.
    fn leave_other<R: Wait>(&self, rt: &R, route: &Route) {
        if let Some(number) = route.begins {
            let before = self.board.lock(rt).serve(number, route.train);
            self.leave_lane(rt, number, before);
        }
    }

    // The connection that begins to serve a train, if it is there and was not ended.
    fn open<R: Wait>(&self, rt: &R, begins: Option<usize>) -> Option<usize>
        ensures { IfSome result (λ number. begins ≡ Some number) }
    {
        let number = begins?;
        let board = self.board.lock(rt);
        if board.connection(number)?.is_ended() {
            return None;
        }
        Some(number)
    }

    // Submits a reply to the lane of its train, and returns whether there was room for it. The connection that the lane
    // ends is shut; so is one whose initiation has no answer, since memory ran out.
    fn submit<R: Wait>(
        &self,
        rt: &R,
        lane: &mut Lane,
        begins: Option<usize>,
        reply: Result<Reply, EncodeFault>,
    ) -> bool
        ensures turn { IfOk reply (λ r. lane.new.next
            ≡ turn_after begins r.message.t_train lane.old.next lane.old.serving) }
        ensures serving { IfOk reply (λ r. lane.new.serving
            ≡ serving_after begins r.message.t_train lane.old.next lane.old.serving) }
        ensures taken { IsTrue result → IfOk reply (λ r. lane.new.early.items
            ≡ kept (turn_after begins r.message.t_train lane.old.next lane.old.serving) r
            (early_after begins r.message.t_train lane.old.next lane.old.serving lane.old.early.items)) }
        ensures err { IfErr reply (λ e. lane.new ≡ lane.old) }
    {
        match reply {
            Ok(reply) => {
                let said = lane.say(begins, reply);
                self.shut(rt, said.ended);
                said.taken.is_ok()
            }
            Err(_) => {
                self.shut(rt, begins);
                false
            }
        }
    }

    // Shuts the connection of this number.
    fn shut<R: Wait>(&self, rt: &R, ended: Option<usize>) {
        let Some(number) = ended else {
            return;
        };
        if let Some(connection) = self.board.lock(rt).connection(number) {
            connection.shut();
        }
    }

    // The connection that serves the train of the lane, with its number, if one does. The routing table is unlocked on
    // return.
    fn connection_of<R: Wait>(
        &self,
        rt: &R,
        lane: &Lane,
        train: usize,
    ) -> Option<(usize, Arc<Connection, Global>)>
        ensures { IfSome result (λ to. lane.now.serving ≡ Some to.0) }
    {
        let number = lane.serving()?;
        let board = self.board.lock(rt);
        let connection = board.connection_for(number, train)?;
        Some((number, Arc::try_clone(connection).ok()?))
    }

    // Sends all messages of an outcome, and rings the wakers if it has frames.
    fn tell<R: Wait>(&self, rt: &R, own: Option<usize>, outcome: &Outcome) {
        for saying in outcome.sayings.as_slice() {
            self.say(rt, own, saying, outcome.stamp);
        }
        if outcome.frames.is_empty() {
            return;
        }
        for waker in self.links {
            waker.unpark();
        }
    }
}

// The reply with a message of the event with this stamp. If a centre's journal is named, it waits for this event there.
fn reply_to(
    alloc: Global,
    saying: &Saying,
    journal: Option<u8>,
    stamp: u32,
) -> Result<Reply, EncodeFault>
    ensures message { IfOk result (λ reply. reply.message ≡ saying.now.message) }
    ensures held { IfOk result (λ reply. IfSome journal (λ centre. (reply.centre ≡ centre) × (reply.stamp ≡ stamp))) }
    ensures free { IfOk result (λ reply. IfNone journal (reply.stamp ≡ 0)) }
{
    let reply = Reply::new(alloc, saying.message)?;
    match journal {
        Some(centre) => Ok(reply.answering(centre, stamp)),
        None => Ok(reply),
    }
}

// The lanes of the trains, before the first message.
fn lanes_of(alloc: Global, trains: u8) -> Result<Vec<Mutex<Lane>>, AllocError>
    ensures { IfOk result (λ lanes. length lanes.items ≡ trains) }
{
    let mut lanes = Vec::new(alloc);
    for _ in 0..trains {
        lanes.push(Mutex::new(Lane::new(alloc)))?;
    }
    Ok(lanes)
}

impl AnswerSink for TrainConnections<'_> {
    fn opened<R: Wait>(&self, _rt: &R, _nid_engine: u32) {}

    fn answered<R: Wait>(&self, rt: &R, outcome: &Outcome) {
        self.tell(rt, None, outcome);
    }
}

/// One connection of a centre's connections, as its session sees it.
#[derive(Clone, Copy)]
pub struct ConnectionSink<'a> {
    pub connections: &'a TrainConnections<'a>,
    /// The number of the connection.
    pub number: usize,
}

impl AnswerSink for ConnectionSink<'_> {
    // The connection serves the train from the answer on, message 32.
    fn opened<R: Wait>(&self, _rt: &R, _nid_engine: u32) {}

    fn answered<R: Wait>(&self, rt: &R, outcome: &Outcome) {
        self.connections.tell(rt, Some(self.number), outcome);
    }
}
