//! The data of a run in a diagram. Events are numbered from 0, from the first drawn one. Sections and tracks have the
//! numbers of the line, and trains their place in the line file.

ghost use Rattle.std.specs.Prelude.{◌≡◌, ◌==◌, ◌+◌, ◌-◌, ◌≤◌, ◌^◌, None, Some, if◌then◌else◌, is_some, length, min};
ghost use Rattle.std.specs.Prelude.{nat_lt, option_and_then, option_map, slice_get, true, unwrap_or};
ghost use Rattle.std.specs.Option.{option_map_or};
ghost use Rattle.rbc_line.specs.Views.{listed_train, placed_section};

use crate::time::TimeAxis;
use rbc_line::Line;
use rbc_place::Place;
use text_replay::{SectionChanges, Turn, Turns};
use text_script::{LineView, MissionView};

/// The kind of an event.
#[derive(Clone, Copy)]
pub enum Kind {
    Set { centre: u8, section: u16 },
    Unset { centre: u8, section: u16 },
    /// A message of a train, by its NID_MESSAGE.
    Message { number: u64, nid_engine: u32 },
    /// Bytes that are not a message.
    NoMessage,
    /// A frame of a centre reaches another one.
    Delivery { from: u8, to: u8, number: u32 },
    /// The beginning of an axis of time. It is not an event of the run.
    Beginning,
}

/// A train at a place that it has reported.
#[derive(Clone, Copy)]
pub struct Report {
    pub train: u8,
    pub place: Place,
}

/// A border at which a train is ordered to change its centre, in metres from the start of the track.
#[derive(Clone, Copy)]
pub struct Border {
    pub train: u8,
    pub track: u8,
    pub metres: u32,
}

/// An event, with the messages of trains in it and the messages to trains.
#[derive(Clone, Copy)]
pub struct Event {
    pub kind: Kind,
    /// Whether it changes nothing: a message without an answer, bytes that are not a message, or a frame that was
    /// never sent.
    pub is_silent: bool,
    /// The report in a message that is not silent, of a train that does not ask for a start of mission.
    pub report: Option<Report>,
    /// Message 24 with packet 131.
    pub border: Option<Border>,
}

/// The drawn events, and the state of the line after each.
#[derive(Drop)]
pub struct Run<'a> {
    pub line: &'a Line,
    /// The number of events of the run, and the number of events before the drawn ones.
    pub event_count: usize,
    pub skipped: usize,
    /// The only drawn train, if one is named.
    pub only: Option<u8>,
    /// The axis, if it is time. Event 0 is then its beginning.
    pub axis: Option<TimeAxis<'a>>,
    pub events: Vec<Event>,
    /// The line before the first drawn event.
    pub before: LineView,
    /// The views of the sections after the drawn events.
    pub sections: SectionChanges,
    /// The missions after the drawn events, by train.
    pub missions: Turns<Option<MissionView>>,
    /// The places of starts of mission that wait after the drawn events, by train, and then by centre.
    pub waits: Turns<Option<Place>>,
}

impl Run<'_> {
    /// Whether a train may be drawn.
    pub fn wants(&self, train: u8) -> bool
        ensures { result ≡ option_map_or (λ only. only == train) self.now.only true }
    {
        match self.only {
            Some(only) => only == train,
            None => true,
        }
    }

    /// The number of events of the run that are drawn.
    pub fn drawn(&self) -> usize
        ensures { result ≡ (if is_some self.now.axis then length self.now.events.items - 1
            else length self.now.events.items) }
    {
        match self.axis {
            Some(_) => self.events.len().saturating_sub(1),
            None => self.events.len(),
        }
    }

    /// Whether an event is drawn.
    pub fn has(&self, event: usize) -> bool
        ensures { result ≡ nat_lt event (length self.now.events.items) }
    {
        event < self.events.len()
    }

    /// The number of an event in the run, from 1.
    pub fn number(&self, event: usize) -> usize
        ensures { result ≡ min (2 ^ 64 - 1) (event + self.now.skipped + 1) }
    {
        event.saturating_add(self.skipped).saturating_add(1)
    }

    /// The reported place of a train in an event.
    pub fn report(&self, event: usize, train: u8) -> Option<Place>
        ensures { result ≡ option_and_then (λ r. if r.train == train then Some r.place else None)
            (option_and_then (λ e. e.report) (slice_get self.now.events.items event)) }
    {
        let report = self.events.get(event)?.report?;
        if report.train == train {
            Some(report.place)
        } else {
            None
        }
    }

    /// The mission of a train before an event and after it.
    pub fn missions(&self, event: usize, train: u8) -> (Option<MissionView>, Option<MissionView>) {
        let before = self.mission_before(event, train);
        (before, self.mission_after(event, train))
    }

    fn mission_before(&self, event: usize, train: u8) -> Option<MissionView> {
        match event.checked_sub(1) {
            Some(before) => self.mission_after(before, train),
            None => self.before.trains.get(usize::from(train))?.mission,
        }
    }

    fn mission_after(&self, event: usize, train: u8) -> Option<MissionView>
        ensures { length self.now.events.items ≤ event → result ≡ None }
    {
        if event < self.events.len() {
            self.missions.at(train.into(), event)?
        } else {
            None
        }
    }

    /// The places of a train's starts of mission that wait at a centre.
    pub fn waits_at(&self, train: u8, centre: u8) -> &[Turn<Option<Place>>] {
        let first = usize::from(train).saturating_mul(self.line.centre_count().into());
        self.waits.of(first.saturating_add(centre.into()))
    }
}

/// The NID_ENGINE of a train by its place in the line file.
pub fn nid_engine_of(line: &Line, train: u8) -> u32
    ensures { result ≡ unwrap_or (option_map (λ t. t.nid_engine) (listed_train line.now train)) 0 }
{
    match line.train(train) {
        Some(train) => train.nid_engine,
        None => 0,
    }
}

/// The track of a section.
pub fn track_of(line: &Line, section: u16) -> u8
    ensures { result ≡ unwrap_or (option_map (λ s. s.track) (placed_section line.now section)) 0 }
{
    match line.section(section) {
        Some(section) => section.track,
        None => 0,
    }
}
