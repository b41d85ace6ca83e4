ghost use Rattle.std.specs.Prelude.{◌≡◌, ◌⊎◌, false, IfNone, IfSome, None, option_map, slice_get, true};
ghost use Rattle.rbc_log.specs.Log.{LogValue};
ghost use Rattle.rbc_node.specs.Node.{centre_of, IsLogOf};
ghost use Rattle.serve_journal.specs.Shown.{shows};
ghost use Rattle.serve_line.specs.Journaling.Waiting.{awaited};
ghost use Rattle.serve_line.specs.Stamps.{last_stamp};
ghost use Rattle.serve_line.specs.Peers.{about_centre, at_peer, peer_centre, peer_name};

use crate::journaling::Journal;
use crate::stamps::last_stamp;
use crate::state::limits::LOG_REST_S;
use crate::state::options::ServeOptions;
use crate::state::peer::{DirectedLink, Peer};
use crate::state::sink::CentreSink;
use crate::state::slots::Endpoint;
use crate::status::MentionOrder;
use rbc_line::Line;
use rbc_node::{Node, Open};
use serve_journal::{Kept, Opened, Sealed};
use serve_notes::{About, Kind};
use serve_workers::Committer;
use serve_workers::writing::Release;
use std::alloc::Global;
use std::sync::atomic::{AtomicBool, AtomicU64, Ordering};
use std::sync::{Mutex, Wait};
use std::thread::Parker;
use std::time::Duration;
use text_script::print::name_of;

/// Whether the centres still run.
#[derive(Drop)]
pub struct State {
    /// No further connection is accepted.
    pub is_stopped: AtomicBool,
    /// Trains have no time to end their connections after the stop.
    is_hasty: AtomicBool,
    /// The number of centres' endpoints that are open or still have connections.
    endpoints: AtomicU64,
    /// Counts new connections and received lines; orders slots by last activity.
    heard: AtomicU64,
    /// No connection is left: nothing new arrives at the links.
    pub is_over: AtomicBool,
    /// No worker is left: nothing more is committed.
    pub is_done: AtomicBool,
    /// Rung when nothing more is committed.
    done_waker: Parker,
    /// A journal was given up: it lacks the last committed events.
    has_lost: AtomicBool,
    /// Memory ran out, or a thread could not be made.
    has_failed: AtomicBool,
    /// The control endpoint can take no connection, since the system gives no file.
    is_short_of_files: AtomicBool,
}

impl State {
    /// The state of a line with this many centres, whose endpoints are all open.
    pub fn new(centres: u8) -> State {
        State {
            is_stopped: AtomicBool::new(false),
            is_hasty: AtomicBool::new(false),
            endpoints: AtomicU64::new(u64::from(centres)),
            heard: AtomicU64::new(0),
            is_over: AtomicBool::new(false),
            is_done: AtomicBool::new(false),
            done_waker: Parker::new(),
            has_lost: AtomicBool::new(false),
            has_failed: AtomicBool::new(false),
            is_short_of_files: AtomicBool::new(false),
        }
    }

    /// Whether no further connection is accepted.
    pub fn is_stopped(&self) -> bool {
        self.is_stopped.load(Ordering::SeqCst)
    }

    /// Whether trains have no time to end their connections after the stop.
    pub fn is_hasty(&self) -> bool {
        self.is_hasty.load(Ordering::SeqCst)
    }

    /// Counts a new connection or a received line, and returns the count before it. Slots use it as the time of their
    /// last activity.
    pub fn hear(&self) -> u64 {
        self.heard.fetch_add(1, Ordering::SeqCst)
    }

    /// A centre's endpoint has closed, and its last session has ended.
    pub fn close_endpoint(&self) {
        self.endpoints.fetch_sub(1, Ordering::SeqCst);
    }

    /// Whether all sessions have ended.
    pub fn is_empty(&self) -> bool {
        self.endpoints.load(Ordering::SeqCst) == 0
    }

    /// Nothing new arrives from now on.
    pub fn end(&self) {
        self.is_over.store(true, Ordering::SeqCst);
    }

    /// Whether nothing more is committed.
    pub fn is_done(&self) -> bool {
        self.is_done.load(Ordering::SeqCst)
    }

    /// Rests for a second, or until nothing more is committed.
    pub fn rest_until_done<R: Wait>(&self, rt: &R) {
        self.done_waker
            .park_timeout(rt, Duration::from_secs(LOG_REST_S));
    }

    /// Notes whether the control endpoint can take no connection, since the system gives no file.
    pub fn note_files(&self, is_short: bool) {
        self.is_short_of_files.store(is_short, Ordering::SeqCst);
    }

    /// Whether the control endpoint can take no connection, since the system gives no file.
    pub fn is_short_of_files(&self) -> bool {
        self.is_short_of_files.load(Ordering::SeqCst)
    }

    /// Whether a journal was given up.
    pub fn has_lost(&self) -> bool {
        self.has_lost.load(Ordering::SeqCst)
    }

    /// Whether memory ran out, or a thread could not be made.
    pub fn has_failed(&self) -> bool {
        self.has_failed.load(Ordering::SeqCst)
    }
}

// The stamp of the last event of a centre; 0 if it has none.
fn last_stamp_of<R: Wait>(rt: &R, node: &Node) -> u32
    ensures { (log : LogValue) × IsLogOf (centre_of node.now) log × (result ≡ last_stamp log.entries) }
{
    let look = node.look(rt);
    last_stamp(look.log().entries())
}

// Opens an answer once more, after the journal of the sink's centre has the event with this stamp, if answers wait for
// that event. The second of the pair shows it. `None` if the journal can't be written now.
fn open_again<R: Wait, T: Drop>(
    rt: &R,
    sink: &CentreSink<'_>,
    opened: Opened<T>,
    stamp: u32,
) -> Option<(Opened<T>, Kept)>
    ensures answer { IfSome result (λ next. next.0.answer ≡ opened.answer) }
    ensures kept { IfSome result (λ next. shows next.1 sink.now.centre
        (awaited (option_map (λ j. j.now.begun) sink.now.journal) stamp) ≡ true) }
{
    let sealed = opened.sealed(sink.centre, sink.awaited(stamp));
    let kept = sink.comes_to(rt, sealed.stamp())?;
    let again = sealed.open(&kept)?;
    Some((again, kept))
}

/// The shared state of all workers of a running line.
#[derive(Drop)]
pub struct Server<'a> {
    /// The allocator.
    pub alloc: Global,
    /// The line that is served.
    pub line: &'a Line,
    /// The nodes of the centres, indexed by the centres' numbers.
    pub nodes: &'a [Node],
    /// The sinks of the centres' answers, indexed by the centres' numbers.
    pub sinks: &'a [CentreSink<'a>],
    /// The endpoints of the centres, and after those the control endpoint.
    pub endpoints: &'a [Endpoint],
    /// The links of the line, one for each direction.
    pub links: &'a [DirectedLink],
    /// The wakers of each centre's outgoing links. All wakers of a centre are rung together.
    pub wakers: &'a [Vec<Parker>],
    /// The journals, indexed by the centres' numbers; empty if the centres keep none.
    pub journals: &'a [Journal],
    /// The trains that the logs name, as `show` prints them.
    pub mentions: &'a Mutex<MentionOrder>,
    /// Whether the centres still run.
    pub state: &'a State,
    /// The options of the server.
    pub options: ServeOptions,
}

impl Server<'_> {
    /// The committer of a centre: its node and its sink.
    pub fn committer(&self, centre: u8) -> Option<Committer<'_, Open, CentreSink<'_>>>
        ensures node { IfSome result (λ committer. slice_get self.now.nodes.now centre ≡ Some committer.node.now) }
        ensures sink { IfSome result (λ committer. slice_get self.now.sinks.now centre ≡ Some committer.sink.now) }
        ensures none { IfNone result
            ((slice_get self.now.nodes.now centre ≡ None) ⊎ (slice_get self.now.sinks.now centre ≡ None)) }
    {
        let node = self.nodes.get(centre as usize)?;
        let sink = self.sinks.get(centre as usize)?;
        Some(Committer {
            node,
            gate: &Open,
            sink,
        })
    }

    /// The journal of a centre, if it keeps one.
    pub fn journal(&self, centre: u8) -> Option<&Journal>
        ensures { option_map (λ journal. journal.now) result ≡ slice_get self.now.journals.now centre }
    {
        self.journals.get(centre as usize)
    }

    /// Whether the centre's journal can't be written now. Then the centre takes nothing.
    pub fn is_stuck<R: Wait>(&self, rt: &R, centre: u8) -> bool
        ensures { slice_get self.now.journals.now centre ≡ None → result ≡ false }
    {
        match self.journal(centre) {
            Some(journal) => journal.is_stuck(rt),
            None => false,
        }
    }

    /// Opens an answer about all centres once the journals have each event that the centres have taken so far. `None`
    /// if one of them can't be written now.
    pub fn open_kept<R: Wait, T: Drop>(&self, rt: &R, answer: T) -> Option<Opened<T>>
        ensures { IfSome result (λ opened. opened.answer ≡ answer) }
    {
        let mut opened = Sealed::new(answer, 0, 0).open(&Kept::no_event(0))?;
        for (node, sink) in self.nodes.iter().zip(self.sinks.iter()) {
            let stamp = last_stamp_of(rt, node);
            let (next, _) = open_again(rt, sink, opened, stamp)?;
            opened = next;
        }
        Some(opened)
    }

    /// Gives up the journal of a centre: no event that it lacks is answered.
    pub fn lose<R: Wait>(&self, rt: &R, centre: u8) {
        self.state.has_lost.store(true, Ordering::SeqCst);
        if let Some(journal) = self.journal(centre) {
            journal.close(rt);
        }
    }

    /// Nothing more is committed. The remaining events are written to the journals.
    pub fn finish(&self) {
        self.state.is_done.store(true, Ordering::SeqCst);
        self.state.done_waker.unpark();
        for journal in self.journals {
            journal.ring();
        }
    }

    /// The node of a train endpoint's centre; `None` for the interlocking.
    pub fn node(&self, peer: Peer) -> Option<&Node>
        ensures { option_map (λ node. node.now) result ≡ at_peer self.now.nodes.now peer }
    {
        match peer {
            Peer::Trains(centre) => self.nodes.get(centre as usize),
            Peer::Interlocking => None,
        }
    }

    /// The sink of a train endpoint's centre; `None` for the interlocking.
    pub fn sink(&self, peer: Peer) -> Option<&CentreSink<'_>>
        ensures { option_map (λ sink. sink.now) result ≡ at_peer self.now.sinks.now peer }
    {
        match peer {
            Peer::Trains(centre) => self.sinks.get(centre as usize),
            Peer::Interlocking => None,
        }
    }

    /// Whether the connection with this number serves a train.
    pub fn is_serving<R: Wait>(&self, rt: &R, peer: Peer, number: usize) -> bool
        ensures { at_peer self.now.sinks.now peer ≡ None → result ≡ false }
    {
        match self.sink(peer) {
            Some(sink) => sink.connections.is_serving(rt, number),
            None => false,
        }
    }

    /// The prefix of a peer's notes.
    pub fn name(&self, peer: Peer) -> &str
        ensures { result.now ≡ peer_name self.now.line.now peer }
    {
        match peer {
            Peer::Trains(centre) => name_of(self.line, centre),
            Peer::Interlocking => "control",
        }
    }

    /// The subject of a note of this kind about an endpoint of this peer.
    pub fn about(&self, kind: Kind, peer: Peer) -> About<'_>
        ensures { about_centre result ≡ (kind, peer_centre self.now.line.now peer) }
    {
        match peer {
            Peer::Trains(centre) => About::centre(kind, name_of(self.line, centre)),
            Peer::Interlocking => About::of(kind),
        }
    }

    /// Stops the server: no further connection is accepted.
    pub fn stop(&self) {
        self.state.is_stopped.store(true, Ordering::SeqCst);
        for endpoint in self.endpoints {
            endpoint.waker.unpark();
        }
        for journal in self.journals {
            journal.ring();
        }
    }

    /// Stops the server, and all connections of trains end at once.
    pub fn stop_now(&self) {
        self.state.is_hasty.store(true, Ordering::SeqCst);
        self.stop();
    }

    /// Stops the server after a failure. The centres print nothing.
    pub fn fail(&self) {
        self.state.has_failed.store(true, Ordering::SeqCst);
        self.stop();
    }
}
