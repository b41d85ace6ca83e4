//! The thread that writes the journal of a centre.

use crate::simulator::disk::Disk;
use crate::simulator::run::{MEMORY, Run};
use rbc_log::CentreLog;
use serve_control::world_event;
use serve_journal::{JournalFile, Kept};
use text_journal::{Entry, first_line};

/// The most events of one write.
const MOST_AT_ONCE: usize = 256;

/// The reach of a centre's journal. A step that has to wait for an event is taken once the journal has the event.
#[derive(Drop)]
pub struct Reach {
    // The stamp of the last event that the journal had at the start.
    begun: u32,
    /// Shows the events that were written since.
    pub kept: Kept,
    /// Whether the journal can't be written now.
    pub is_stuck: bool,
    /// Whether it was given up: nothing more is written.
    pub is_closed: bool,
}

impl Reach {
    /// The stamp that a step waits for, if it has to wait for this event: 0 if the journal had it at the start.
    pub fn awaited(&self, stamp: u32) -> u32 {
        if stamp <= self.begun { 0 } else { stamp }
    }

    /// Whether an answer with this stamp may not be handed in yet. It waits for its event if it has a reply to the
    /// interlocking, or if the journal can't be written.
    pub fn holds_up(&self, stamp: u32, has_word: bool) -> bool {
        let waits = !self.is_closed && (has_word || self.is_stuck);
        waits && self.kept.stamp() < self.awaited(stamp)
    }
}

/// The journal of a centre, with the events that are being written.
#[derive(Drop)]
pub struct Journal {
    file: JournalFile<Disk>,
    pub reach: Reach,
    /// Whether the centres are to end.
    pub is_ending: bool,
    // The number of the centre's events in the journal.
    written: usize,
    // The events that were copied from the log.
    copied: Vec<Entry>,
    // Shows that they were written.
    shown: Option<Kept>,
}

impl Journal {
    /// The journal of a centre that has resumed, opened after its first `length` bytes. Its first line is written if it
    /// has none. `None` if a step fails.
    pub fn open(run: &Run, log: &CentreLog, length: usize) -> Option<Journal> {
        let platter = run.platters.get(usize::from(log.number()))?;
        let platter = platter.clone().ok()?;
        let mut file = JournalFile::open(Disk { platter }, length as u64).ok()?;
        if length == 0 && !add_first_line(run, log.number(), &mut file) {
            return None;
        }
        let reach = Reach {
            begun: last_stamp(log),
            kept: Kept::no_event(log.number()),
            is_stuck: false,
            is_closed: false,
        };
        Some(Journal {
            file,
            reach,
            is_ending: false,
            written: log.entries().len(),
            copied: Vec::new(run.alloc),
            shown: None,
        })
    }

    /// Whether the journal has all events of the log, or was given up.
    pub fn has_ended(&self, log: &CentreLog) -> bool {
        self.reach.is_closed || self.written >= log.entries().len()
    }

    /// The thread copies the next events, writes them, or reports that they are written. After an error none of them
    /// counts as written; after `stop` the journal is given up then. The result is whether it took a step.
    pub fn step(&mut self, run: &Run, log: &CentreLog) -> bool {
        if self.reach.is_closed {
            return false;
        }
        if let Some(kept) = self.shown.take() {
            self.report(kept);
        } else if self.copied.is_empty() {
            self.copy(run, log);
            return !self.copied.is_empty();
        } else {
            self.write(run);
        }
        true
    }

    fn report(&mut self, kept: Kept) {
        self.reach.kept = kept;
        self.reach.is_stuck = false;
        self.written = self.written.saturating_add(self.copied.len());
        self.copied.clear();
    }

    fn write(&mut self, run: &Run) {
        match self.file.keep(run.alloc, &run.line, &self.copied) {
            Ok(kept) => self.shown = kept,
            Err(_) => {
                self.copied.clear();
                self.reach.is_stuck = true;
                self.reach.is_closed = self.is_ending;
            }
        }
    }

    // Copies the events that the journal lacks.
    fn copy(&mut self, run: &Run, log: &CentreLog) {
        let entries = log.entries().get(self.written..).unwrap_or_default();
        for entry in entries.iter().take(MOST_AT_ONCE) {
            match world_event(run.alloc, entry) {
                Ok(event) => run.add(
                    &mut self.copied,
                    Entry {
                        stamp: entry.outcome.stamp,
                        time_ms: Some(run.now_ms()),
                        event,
                    },
                ),
                Err(_) => run.note(MEMORY),
            }
        }
    }
}

fn add_first_line(run: &Run, centre: u8, file: &mut JournalFile<Disk>) -> bool {
    match first_line(run.alloc, &run.line, centre) {
        Ok(mut line) => line.push('\n').is_ok() && file.add(line.as_bytes()).is_ok(),
        Err(_) => false,
    }
}

/// The stamp of the last event of a log; 0 if it has none.
pub fn last_stamp(log: &CentreLog) -> u32 {
    match log.entries().last() {
        Some(entry) => entry.outcome.stamp,
        None => 0,
    }
}
