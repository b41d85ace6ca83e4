use crate::about::About;
use crate::counts::Counts;
use crate::form::NoteForm;
use crate::kinds::{KINDS, Kind};
use crossbeam_channel::{Receiver, RecvTimeoutError, Sender, TrySendError};
use jiff::Timestamp;
use std::alloc::{AllocError, Global};
use std::fmt::Display;
use std::io::Eprint;
use std::sync::atomic::{AtomicU64, Ordering};
use std::sync::{Mutex, Wait};
use std::thread;
use std::time::{Clock, Duration};

/// The offers of a note to the writing thread before it is lost.
const OFFERS: u32 = 20;

/// The longest wait of the writing thread for a note before it reports omitted notes, in seconds.
const REST_S: u64 = 1;

/// Receives notes of the running centres.
pub trait Notes {
    /// Takes one note: a text without a line feed. Of a kind that may occur many times, further notes of a second are
    /// only counted.
    fn note<D: Display + Drop>(&self, about: About<'_>, text: D);

    /// Takes a note that has its form: a line without the line feed that ends it.
    fn line(&self, line: String);

    /// Counts notes that could not be made.
    fn lose(&self, count: u64);

    /// The counts of notes so far; 0 if nobody counts them.
    fn counts(&self) -> NoteCounts;
}

/// The counts of notes.
#[derive(Clone, Copy)]
pub struct NoteCounts {
    /// The refusals: lines of the interlocking, connections, connections that got no thread, and times that the system
    /// gave no connection.
    pub refusals: [u64; 4],
    /// The notes that were lost.
    pub lost: u64,
}

impl NoteCounts {
    /// Nothing is counted.
    pub const NOTHING: NoteCounts = NoteCounts {
        refusals: [0; 4],
        lost: 0,
    };
}

/// Writes each note as a line on standard error. A note that can't be written is lost.
#[derive(Clone, Copy)]
pub struct StderrNotes<'a, R> {
    /// The handle by which it writes.
    pub rt: &'a R,
    /// The form of each line. A note has a time only as JSON.
    pub form: NoteForm,
}

impl<R: Eprint + Clock + AllocGlobal> Notes for StderrNotes<'_, R> {
    fn note<D: Display + Drop>(&self, about: About<'_>, text: D) {
        let alloc = self.rt.alloc();
        let time = if self.form.is_json {
            utc(self.rt, alloc)
        } else {
            None
        };
        if let Ok(line) = line_of(self.form, alloc, time, about, text) {
            self.line(line);
        }
    }

    fn line(&self, line: String) {
        let _ = self.rt.eprintln(line.as_str());
    }

    fn lose(&self, _count: u64) {}

    fn counts(&self) -> NoteCounts {
        NoteCounts::NOTHING
    }
}

/// The state shared by the threads that send notes and the thread that writes them.
#[derive(Drop)]
pub struct Backlog {
    alloc: Global,
    form: NoteForm,
    // The number of notes lost so far.
    lost: AtomicU64,
    // The number of those that were reported.
    told: AtomicU64,
    counts: Mutex<Counts>,
}

impl Backlog {
    /// A backlog before the first note. Notes have this form.
    pub fn new(alloc: Global, form: NoteForm) -> Backlog {
        Backlog {
            alloc,
            form,
            lost: AtomicU64::new(0),
            told: AtomicU64::new(0),
            counts: Mutex::new(Counts::new()),
        }
    }

    // The line of a note at the time of the clock.
    fn line<T: Clock, D: Display + Drop>(
        &self,
        clock: &T,
        about: About<'_>,
        text: D,
    ) -> Result<String, AllocError> {
        line_of(self.form, self.alloc, utc(clock, self.alloc), about, text)
    }
}

/// Sends each note to a thread that writes it, so that nobody waits for the reader of the notes. A note is lost if too
/// many wait.
#[derive(Drop)]
pub struct QueuedNotes<'a, R> {
    /// The handle by which it may wait.
    pub rt: &'a R,
    /// The queue of lines to be written.
    pub queue: Sender<String>,
    /// The state shared with the writing thread.
    pub backlog: &'a Backlog,
}

impl<R: Wait + Clock> QueuedNotes<'_, R> {
    // Sends a note, or counts it as lost.
    fn send<D: Display + Drop>(&self, about: About<'_>, text: D) {
        match self.backlog.line(self.rt, about, text) {
            Ok(line) => self.line(line),
            Err(_) => self.lose(1),
        }
    }

    // Offers a line to the writing thread, and returns whether it was taken.
    fn offer(&self, line: String) -> bool {
        let mut left = line;
        for _ in 0..OFFERS {
            match self.queue.try_send(self.rt, left) {
                Ok(()) => return true,
                Err(TrySendError::Full(back)) => left = back,
                Err(_) => return false,
            }
            thread::yield_now();
        }
        false
    }
}

impl<R: Wait + Clock> Notes for QueuedNotes<'_, R> {
    fn note<D: Display + Drop>(&self, about: About<'_>, text: D) {
        let second = second_of(self.rt);
        let taken = self.backlog.counts.lock(self.rt).take(about.kind, second);
        if taken.left_out > 0 {
            let (count, words) = (taken.left_out, about.kind.words());
            self.send(About::of(about.kind), format_args!("{count} more {words}"));
        }
        if taken.is_written {
            self.send(about, text);
        }
    }

    fn line(&self, line: String) {
        if !self.offer(line) {
            self.lose(1);
        }
    }

    fn lose(&self, count: u64) {
        self.backlog.lost.fetch_add(count, Ordering::SeqCst);
    }

    fn counts(&self) -> NoteCounts {
        NoteCounts {
            refusals: self.backlog.counts.lock(self.rt).refusals(),
            lost: self.backlog.lost.load(Ordering::SeqCst),
        }
    }
}

// The line of a note at this time.
fn line_of<D: Display + Drop>(
    form: NoteForm,
    alloc: Global,
    time: Option<String>,
    about: About<'_>,
    text: D,
) -> Result<String, AllocError> {
    let time = time.as_ref().map(|time| time.as_str());
    form.line(alloc, time, about, text)
}

// The time in whole seconds; `None` if the clock fails.
fn utc<T: Clock>(clock: &T, alloc: Global) -> Option<String> {
    let now = Timestamp::now(clock).ok()?;
    let time = Timestamp::from_second(now.as_second()).ok()?;
    format!(in alloc; "{time}").ok()
}

// The second by the monotonic clock; 0 if the clock fails.
fn second_of<T: Clock>(clock: &T) -> u64 {
    match clock.monotonic() {
        Ok(now) => now.as_secs(),
        Err(_) => 0,
    }
}

/// Writes the received notes until no more can arrive. Before each note it reports the number of lost notes. After a
/// second without a note, and at the end, it also reports the omitted notes of each kind.
pub fn write_notes<R: Wait + Clock, N: Notes>(
    rt: &R,
    notes: &N,
    queue: &Receiver<String>,
    backlog: &Backlog,
) {
    for _ in rt.forever() {
        match queue.recv_timeout(rt, Duration::from_secs(REST_S)) {
            Ok(line) => {
                tell_lost(rt, notes, backlog);
                notes.line(line);
            }
            Err(RecvTimeoutError::Timeout) => {
                tell_lost(rt, notes, backlog);
                tell_left_out(rt, notes, backlog, second_of(rt));
            }
            Err(RecvTimeoutError::Disconnected) => break,
        }
    }
    tell_lost(rt, notes, backlog);
    tell_left_out(rt, notes, backlog, second_of(rt).saturating_add(1));
}

fn tell_lost<R: Clock, N: Notes>(rt: &R, notes: &N, backlog: &Backlog) {
    let lost = backlog.lost.load(Ordering::SeqCst);
    let count = lost.saturating_sub(backlog.told.swap(lost, Ordering::SeqCst));
    if count > 0 {
        let about = About::of(Kind::Lost);
        if let Ok(line) = backlog.line(rt, about, format_args!("{count} notes were lost")) {
            notes.line(line);
        }
    }
}

// Reports the notes of each kind that were omitted before this second.
fn tell_left_out<R: Wait + Clock, N: Notes>(rt: &R, notes: &N, backlog: &Backlog, second: u64) {
    for kind in KINDS {
        let count = backlog.counts.lock(rt).left_out(kind, second);
        if count > 0 {
            let (about, words) = (About::of(kind), kind.words());
            if let Ok(line) = backlog.line(rt, about, format_args!("{count} more {words}")) {
                notes.line(line);
            }
        }
    }
}

/// Drops all notes.
#[derive(Clone, Copy, Debug)]
pub struct NoNotes;

impl Notes for NoNotes {
    fn note<D: Display + Drop>(&self, _about: About<'_>, _text: D) {}

    fn line(&self, _line: String) {}

    fn lose(&self, _count: u64) {}

    fn counts(&self) -> NoteCounts {
        NoteCounts::NOTHING
    }
}
