ghost use Rattle.std.specs.List.{list_any};
ghost use Rattle.std.specs.Prelude.{◌≡◌, ℕ, [], false, IfOk, length, OnErr, OnOk, replicate, slice_get, slice_set};
ghost use Rattle.std.specs.Prelude.{◌≤◌, map, option_map, string_bytes};
ghost use Rattle.rbc_msgs.specs.StepMessage.{step_body};
ghost use Rattle.text_script.specs.rbc_centre.States.{number_of};
ghost use Rattle.text_script.specs.rbc_centre.Views.{event_of};
ghost use Rattle.serve_line.specs.Lists.{Continues};
ghost use Rattle.serve_line.specs.News as spec;

use crate::journaling::Journal;
use rbc_line::Line;
use rbc_log::{CentreLog, Entry};
use rbc_msgs::TrainBody;
use serve_control::world_event;
use std::alloc::{AllocError, Global};
use std::sync::Wait;
use text_page::EventNow;
use text_replay::rows_in_words;
use text_script::print::{name_of, print_event, print_outcome};
use text_script::status::Fault;
use text_script::{Body, Event, Frame, FrameRoom, SentFrame, StepFault};

/// The number of events on the page.
const TOLD: usize = 24;

/// The most entries at the end of a log that are read for them, under its centre's lock.
const OLDEST: usize = 256;

/// The last notable events, in words.
#[derive(Drop)]
pub(crate) struct News {
    // Indexed by the centres' numbers: the number of log entries read so far.
    looked: Vec<usize>,
    // Copies of the notable entries since the last call of `tell`.
    fresh: Vec<Fresh>,
    room: FrameRoom,
    told: Vec<Told>,
}

// A copy of an entry.
#[derive(Drop)]
struct Fresh {
    // Its place in the log of its centre.
    place: usize,
    entry: Entry,
}

// An event in words.
#[derive(Drop)]
struct Told {
    centre: u8,
    // Its place in the log of its centre.
    place: usize,
    // The time of its write to the journal, once it is known.
    time_ms: Option<u64>,
    words: String,
}

impl News {
    /// No event of any centre was looked at yet.
    pub fn new(alloc: Global, line: &Line) -> Result<News, AllocError>
        ensures looked { IfOk result (λ news. news.looked.items ≡ replicate (length line.now.centres) 0) }
        ensures fresh { IfOk result (λ news. news.fresh.items ≡ []) }
        ensures told { IfOk result (λ news. news.told.items ≡ []) }
    {
        Ok(News {
            looked: vec![in alloc; 0usize; line.centre_count() as usize]?,
            fresh: Vec::new(alloc),
            room: FrameRoom::new(alloc),
            told: Vec::new(alloc),
        })
    }

    /// Copies the last notable events of a centre since the last call. If memory runs out, the next call reads the same
    /// events again.
    pub fn read_on(&mut self, alloc: Global, log: &CentreLog) -> Result<(), AllocError>
        ensures ok { OnOk result (self.new.looked.items
            ≡ slice_set self.old.looked.items (number_of log.now.core) (length log.now.entries)) }
        ensures err { OnErr result ((self.new.looked.items ≡ self.old.looked.items)
            × (self.new.fresh.items ≡ self.old.fresh.items)) }
    {
        let number = log.number() as usize;
        let Some(looked) = self.looked.get(number) else {
            return Ok(());
        };
        let (looked, before) = (*looked, self.fresh.len());
        if let Err(error) = self.copy_news(alloc, log.entries(), looked) {
            self.fresh.truncate(before);
            return Err(error);
        }
        self.mark(number, log.entries().len());
        Ok(())
    }

    // Marks as many entries of a centre's log as read.
    fn mark(&mut self, number: usize, count: usize)
        ensures looked { self.new.looked.items ≡ slice_set self.old.looked.items number count }
        ensures fresh { self.new.fresh.items ≡ self.old.fresh.items }
    {
        if let Some(looked) = self.looked.get_mut(number) {
            *looked = count;
        }
    }

    // Copies the last notable ones of these entries, but none of the first `looked`.
    fn copy_news(
        &mut self,
        alloc: Global,
        entries: &[Entry],
        looked: usize,
    ) -> Result<(), AllocError>
        ensures looked { self.new.looked.items ≡ self.old.looked.items }
        ensures fresh { Continues self.old.fresh.items self.new.fresh.items }
    {
        let from = looked.max(entries.len().saturating_sub(OLDEST));
        let Some(entries) = entries.get(from..) else {
            return Ok(());
        };
        let mut copied = 0usize;
        for (i, entry) in entries.iter().enumerate().rev() {
            if copied < TOLD && is_news(entry) {
                copied = copied.saturating_add(1);
                self.room.reserve()?;
                let entry = entry.copied(alloc, &mut self.room)?;
                let place = from.saturating_add(i);
                self.fresh.push(Fresh { place, entry })?;
            }
        }
        Ok(())
    }

    /// Puts the copied events into words, and returns the last events, the newest first. Those that were put into words
    /// now have no time yet. No lock is held meanwhile.
    pub fn tell(&mut self, alloc: Global, line: &Line) -> Result<Vec<EventNow>, Fault<'static>>
        ensures words { IfOk result (λ last. map (λ e. string_bytes e.words) last.items
            ≡ map (λ t. string_bytes t.words) self.new.told.items) }
        ensures count { OnOk result (length self.new.told.items ≤ 24) }
        ensures fresh { OnOk result (self.new.fresh.items ≡ []) }
    {
        self.fresh.sort_by_key(|fresh| fresh.entry.outcome.stamp)?;
        let mut newest = self.newest(alloc, line)?;
        newest.append(&mut self.told)?;
        newest.truncate(TOLD);
        self.told = newest;
        self.fresh.clear();
        Ok(self.events(alloc)?)
    }

    // The last events as the page shows them.
    fn events(&self, alloc: Global) -> Result<Vec<EventNow>, AllocError>
        ensures { IfOk result (λ last. map (λ e. string_bytes e.words) last.items
            ≡ map (λ t. string_bytes t.words) self.now.told.items) }
    {
        let mut last = Vec::new(alloc);
        for told in self.told.iter() {
            let event = told.event(alloc)?;
            last.push(event)?;
        }
        Ok(last)
    }

    // The last copied events in words, the newest first.
    fn newest(&self, alloc: Global, line: &Line) -> Result<Vec<Told>, Fault<'static>> {
        let mut newest = Vec::new(alloc);
        for fresh in self.fresh.iter().rev().take(TOLD) {
            newest.push(Told::new(alloc, line, fresh)?)?;
        }
        Ok(newest)
    }

    /// Adds the times of writes to the result of the last `tell`, as far as the journals keep them. Returns whether a
    /// time there has changed.
    pub fn add_times<R: Wait>(
        &mut self,
        rt: &R,
        journals: &[Journal],
        last: &mut [EventNow],
    ) -> bool
        ensures times { (i : ℕ) → option_map (λ e. e.time_ms) (slice_get last.new i)
            ≡ spec.time_at self.new.told.items i (slice_get last.old i) }
        ensures same { result ≡ false → last.new ≡ last.old }
    {
        for told in self.told.iter_mut() {
            told.find_time(rt, journals);
        }
        set_times(&self.told, last)
    }
}

// Sets the times of these events. Returns whether one has changed.
fn set_times(told: &[Told], last: &mut [EventNow]) -> bool
    ensures times { (i : ℕ) → option_map (λ e. e.time_ms) (slice_get last.new i)
        ≡ spec.time_at told.now i (slice_get last.old i) }
    ensures same { result ≡ false → last.new ≡ last.old }
{
    let mut has_changed = false;
    for i in 0..last.len() {
        if let Some(told) = told.get(i) {
            if differs(&last[i], told) {
                last[i].time_ms = told.time_ms;
                has_changed = true;
            }
        }
    }
    has_changed
}

// Whether an event on the page has another time.
fn differs(event: &EventNow, told: &Told) -> bool
    ensures { result ≡ false → event.now.time_ms ≡ told.now.time_ms }
{
    event.time_ms != told.time_ms
}

impl Told {
    fn new(alloc: Global, line: &Line, fresh: &Fresh) -> Result<Told, Fault<'static>>
        ensures place { IfOk result
            (λ told. (told.centre ≡ fresh.now.entry.centre) × (told.place ≡ fresh.now.place)) }
        ensures time { IfOk result (λ told. told.time_ms ≡ None) }
    {
        Ok(Told {
            centre: fresh.entry.centre,
            place: fresh.place,
            time_ms: None,
            words: in_words(alloc, line, &fresh.entry)?,
        })
    }

    // The event as the page shows it.
    fn event(&self, alloc: Global) -> Result<EventNow, AllocError>
        ensures time { IfOk result (λ event. event.time_ms ≡ self.now.time_ms) }
        ensures words { IfOk result (λ event. string_bytes event.words ≡ string_bytes self.now.words) }
    {
        Ok(EventNow {
            time_ms: self.time_ms,
            words: String::from_str(alloc, self.words.as_str())?,
        })
    }

    // Reads the time of its write, if it is not known yet.
    fn find_time<R: Wait>(&mut self, rt: &R, journals: &[Journal])
        ensures { spec.KeepsEvent self.old self.new }
    {
        if self.time_ms.is_some() {
            return;
        }
        if let Some(journal) = journals.get(self.centre as usize) {
            self.time_ms = journal.time_of(rt, self.place);
        }
    }
}

// An event and its effects, in words, after its stamp.
fn in_words(alloc: Global, line: &Line, entry: &Entry) -> Result<String, Fault<'static>> {
    let mut printed: Vec<u8> = Vec::new(alloc);
    print_event(alloc, &mut printed, line, &world_event(alloc, entry)?)?;
    let name = name_of(line, entry.centre);
    print_outcome(alloc, &mut printed, line, name, &entry.outcome)?;
    let stamp = entry.outcome.stamp;
    let words = rows_in_words(alloc, line, printed.as_slice())?;
    Ok(format!(in alloc; "{stamp} · {words}")?)
}

// Whether an event is notable: it is silent, it led to a frame of a handover, or its kind is notable.
fn is_news(entry: &Entry) -> bool
    ensures { result ≡ spec.is_news entry.now }
{
    entry.outcome.silence.is_some()
        || announces(entry.outcome.frames.as_slice())
        || is_notable(&entry.event)
}

// Whether the kind of an event is notable. Routine reports and requests of a train are not. Of the frames, only those
// of handovers are.
fn is_notable(event: &Event) -> bool
    ensures { result ≡ spec.is_notable (event_of event.now) }
{
    match event {
        Event::Set(_) | Event::Unset(_) => true,
        Event::Train(message) => !is_routine(message.body()),
        Event::Deliver { frame, .. } => is_of_handover(frame),
    }
}

// Whether a message is a routine one.
fn is_routine(body: &TrainBody) -> bool
    ensures { result ≡ spec.is_routine (step_body body.now) }
{
    matches!(
        body,
        TrainBody::TrainData { .. }
            | TrainBody::Request { .. }
            | TrainBody::Report { .. }
            | TrainBody::SessionEstablished
    )
}

// Whether one of these frames is of a handover.
fn announces(frames: &[SentFrame]) -> bool
    ensures { result ≡ list_any spec.is_sent_for_handover frames.now }
{
    frames.iter().any(|sent| is_of_handover(&sent.frame))
}

fn is_of_handover(frame: &Frame) -> bool
    ensures { result ≡ spec.is_of_handover frame.now.body }
{
    matches!(
        frame.body(),
        Body::Announce { .. } | Body::Cancel { .. } | Body::TakingOver { .. } | Body::Yield { .. }
    )
}
