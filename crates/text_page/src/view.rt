//! The line and the state of its centres, each seen at its own moment.

use rbc_book::SectionView;
use rbc_line::{Section, SectionRun};
use rbc_session::Phase;

/// The data that do not change while the centres run.
#[derive(Drop)]
pub struct Layout {
    pub nid_c: u16,
    /// The centres' names, by their numbers. A name has only letters and digits.
    pub centres: Vec<String>,
    /// The ports at which the centres listen for trains.
    pub ports: Vec<u16>,
    /// The tracks' names.
    pub tracks: Vec<String>,
    /// By section number. The numbers grow along each track.
    pub sections: Vec<Section>,
}

/// A mission, at the centre that supervises it or on the way between two centres. It has the shown part of its facts
/// (`rbc_mission::MissionFacts`), and no other. So a report that changes nothing shown leaves it as it is, and the page
/// of a print has no line for it.
#[derive(Clone, Copy, PartialEq, Eq)]
pub struct MissionNow {
    pub nid_engine: u32,
    /// The number of the centre. None while the mission is on the way.
    pub supervisor: Option<u8>,
    /// The centre to which a handover is announced.
    pub handover: Option<u8>,
    pub track: u8,
    /// The safe front end, in decimetres from the start of the track.
    pub front: u32,
    /// The safe rear end, if the integrity of the train is confirmed.
    pub rear: Option<u32>,
    /// The sections of the movement authority.
    pub hand: SectionRun,
    /// The lent sections that follow those of the authority.
    pub pool: SectionRun,
    /// The last section to keep, if a request to shorten the authority is pending.
    pub asked: Option<u16>,
    pub is_ended: bool,
}

/// The session of a centre with a train.
#[derive(Clone, Copy, PartialEq, Eq)]
pub struct SessionNow {
    pub nid_engine: u32,
    pub centre: u8,
    pub phase: Phase,
    /// A start of mission waits for the right to supervise the train.
    pub is_waiting: bool,
}

/// The used part of a centre's life and of its slots for connections.
#[derive(Clone, Copy)]
pub struct CentreNow {
    pub entries: u64,
    /// The stamp of the last entry.
    pub clock: u32,
    /// The number of connections that have a slot.
    pub taken: u64,
    /// The number of slots.
    pub seats: u64,
    /// The centre's journal can't be written now.
    pub is_stuck: bool,
    /// The end that the centre has reached. It takes no further event.
    pub end: Option<End>,
    pub limits: Limits,
}

/// The end of a centre's life.
#[derive(Clone, Copy)]
pub enum End {
    /// The log is full.
    Log,
    /// The last stamp is used.
    Clock,
    /// A link to another centre has too few frame numbers left for a step.
    Link,
}

/// The limits of a centre's life.
#[derive(Clone, Copy)]
pub struct Limits {
    /// The most entries of the log.
    pub entries: u64,
    /// The last stamp.
    pub clock: u32,
    /// The most frames of each link to another centre.
    pub frames: u32,
}

/// The used part of a link's life.
#[derive(Clone, Copy)]
pub struct LinkNow {
    pub from: u8,
    pub to: u8,
    pub sent: u32,
    pub taken: u32,
}

/// The true place of a train. The centres do not know it: the program that runs the trains does.
#[derive(Clone, Copy, PartialEq, Eq)]
pub struct TruePlace {
    pub nid_engine: u32,
    /// The number of its track.
    pub track: u8,
    /// The rear end, in decimetres from the start of the track; 0 if it is before the start.
    pub rear: u32,
    /// The front end, in decimetres from the start of the track.
    pub front: u32,
}

/// An event in words.
#[derive(Drop)]
pub struct EventNow {
    /// The time of its write to the journal of its centre, in milliseconds since 1970 in UTC. None if it is not known,
    /// as of centres without journals.
    pub time_ms: Option<u64>,
    pub words: String,
}

/// The line as its centres reported it.
#[derive(Drop)]
pub struct LineNow {
    /// The sum of the lengths of the logs: it grows with each event.
    pub events: u64,
    /// No new connection is accepted.
    pub is_stopped: bool,
    /// By section number.
    pub sections: Vec<SectionView>,
    /// By the trains' places in the line file.
    pub missions: Vec<Option<MissionNow>>,
    pub sessions: Vec<SessionNow>,
    /// By the centres' numbers.
    pub centres: Vec<CentreNow>,
    pub links: Vec<LinkNow>,
    /// The true places of trains that run in the same process. Empty if there are none.
    pub true_places: Vec<TruePlace>,
    /// The last events, the newest first.
    pub last: Vec<EventNow>,
}

/// The counts of running centres since they began, and the events that their journals do not have yet. Only the metrics
/// show them.
#[derive(Drop)]
pub struct LineCounts {
    /// By the centres' numbers.
    pub centres: Vec<CentreCounts>,
    /// The refusals that were noted: lines of the interlocking, connections, connections that got no thread, and times
    /// that the system gave no connection.
    pub refusals: [u64; 4],
    /// The notes that were lost.
    pub lost_notes: u64,
}

/// The counts of a centre.
#[derive(Clone, Copy)]
pub struct CentreCounts {
    /// The messages of trains that were left without an answer, for each reason at its printed number less 1.
    pub silent: [u64; 10],
    /// The events that the journal of the centre does not have yet.
    pub unwritten: u64,
    /// The answers that waited for that journal for a second or more.
    pub late: u64,
}

impl CentreCounts {
    /// Nothing was counted yet.
    pub const NOTHING: CentreCounts = CentreCounts {
        silent: [0; 10],
        unwritten: 0,
        late: 0,
    };
}
