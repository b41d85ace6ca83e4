ghost use Rattle.std.specs.Prelude.{◌≡◌, ◌-◌, IfOk, length, OnErr, option_and_then, slice_get};
ghost use Rattle.rbc_node.specs.Node.{centre_of};
ghost use Rattle.serve_line.specs.Journaling.Keeping.{HasKept, IsTurn, TriesWrite, Writes};

use crate::journaling::batch::next_entries;
use crate::journaling::journal::Journal;
use crate::journaling::writer_steps::{WriterStep, step_after};
use crate::moments::seconds_between;
use rbc_line::Line;
use rbc_node::Node;
use serve_journal::{DurableFile, JournalFile};
use serve_notes::{About, Kind, Notes};
use std::alloc::Global;
use std::io::ErrorKind;
use std::sync::Wait;
use std::sync::atomic::{AtomicBool, Ordering};
use std::time::{Clock, Duration, Instant};
use std::{io, thread};
use text_journal::Entry;

/// The rest of the writing thread after a failed write, in milliseconds.
const STUCK_REST_MS: u64 = 500;

/// The time of a write after which its events are counted as late, in seconds.
const LATE_S: u64 = 1;

/// The writer of a centre's journal.
#[derive(Drop)]
pub struct JournalWriter<'a, N> {
    pub alloc: Global,
    pub line: &'a Line,
    /// The name of the centre.
    pub name: &'a str,
    pub node: &'a Node,
    pub journal: &'a Journal,
    pub notes: &'a N,
    /// Whether the centres are to stop. Then a journal that can't be written is given up.
    pub is_stopped: &'a AtomicBool,
    /// Whether nothing more is committed.
    pub is_over: &'a AtomicBool,
}

/// Writes the centre's events after those at the start of the journal, in the order of its log. It returns true when
/// nothing more is committed and all events are written. It returns false when the journal is given up before that.
pub fn keep_journal<R: Wait + Clock, N: Notes, F: DurableFile + Drop>(
    rt: &R,
    writer: &JournalWriter<'_, N>,
    file: &mut JournalFile<F>,
) -> bool
    ensures { HasKept writer.now.line.now (centre_of writer.now.node.now) writer.now.journal.now.begins file.old
        file.new result }
{
    let mut progress = Progress {
        written: writer.journal.begins(),
        is_stuck: false,
        taken_at: None,
    };
    for _ in rt.forever() {
        if let Some(is_whole) = progress.turn(rt, writer, file) {
            return is_whole;
        }
    }
    unreachable!()
}

/// The progress of the writing thread.
#[derive(Clone, Copy)]
struct Progress {
    // The number of the centre's events in the journal.
    written: usize,
    // Whether the last write failed.
    is_stuck: bool,
    // The time at which the next events were taken first.
    taken_at: Option<Instant>,
}

impl Progress {
    // Writes the next events, and rests if none wait, or if the write failed. The result is `None` if the thread goes
    // on. Else it is whether all events are written.
    fn turn<R: Wait + Clock, N: Notes, F: DurableFile + Drop>(
        &mut self,
        rt: &R,
        writer: &JournalWriter<'_, N>,
        file: &mut JournalFile<F>,
    ) -> Option<bool>
        ensures { IsTurn writer.now.line.now (centre_of writer.now.node.now) self.old.written self.new.written
            file.old file.new result }
    {
        let is_over = writer.is_over.load(Ordering::SeqCst);
        self.taken_at = self.taken_at.or(Instant::now(rt).ok());
        let count = writer.try_next(rt, file, self.written, self.is_stuck);
        match step_after(count, is_over, writer.is_stopped.load(Ordering::SeqCst)) {
            WriterStep::Done => Some(true),
            WriterStep::GiveUp => Some(false),
            WriterStep::Retry => {
                self.is_stuck = true;
                thread::sleep(rt, Duration::from_millis(STUCK_REST_MS));
                None
            }
            WriterStep::Rest => {
                self.taken_at = None;
                writer.journal.rest(rt);
                None
            }
            WriterStep::Go(count) => {
                self.written = self.written.saturating_add(count);
                writer.count_late(rt, self.taken_at, count);
                writer.note_written(self.is_stuck);
                self.is_stuck = false;
                self.taken_at = None;
                None
            }
        }
    }
}

// The time of the events of a write. They all have the same.
fn time_of(entries: &[Entry]) -> Option<u64>
    ensures { result ≡ option_and_then (λ entry. entry.time_ms) (slice_get entries.now (length entries.now - 1)) }
{
    entries.last()?.time_ms
}

impl<N: Notes> JournalWriter<'_, N> {
    // Writes the next events, and returns their count. After an error none of them counts as written.
    fn write_next<R: Wait + Clock, F: DurableFile + Drop>(
        &self,
        rt: &R,
        file: &mut JournalFile<F>,
        written: usize,
    ) -> io::Result<usize>
        ensures ok { IfOk result
            (λ count. Writes self.now.line.now (centre_of self.now.node.now) written count file.old file.new) }
        ensures err { OnErr result (file.new ≡ file.old) }
    {
        let Ok(entries) = next_entries(rt, self.alloc, self.node, written) else {
            return Err(io::Error::from(ErrorKind::OutOfMemory));
        };
        let kept = file.keep(self.alloc, self.line, &entries)?;
        if let Some(kept) = kept {
            self.journal
                .reached(rt, kept, entries.len(), time_of(&entries));
        }
        Ok(entries.len())
    }

    // Writes the next events, and returns their count. If that fails, the journal is marked as stuck: `None`.
    fn try_next<R: Wait + Clock, F: DurableFile + Drop>(
        &self,
        rt: &R,
        file: &mut JournalFile<F>,
        written: usize,
        was_stuck: bool,
    ) -> Option<usize>
        ensures { TriesWrite self.now.line.now (centre_of self.now.node.now) written result file.old file.new }
    {
        match self.write_next(rt, file, written) {
            Ok(count) => Some(count),
            Err(error) => {
                self.note_stuck(rt, was_stuck, &error);
                None
            }
        }
    }

    // Counts written events as late, if they were taken at least `LATE_S` ago.
    fn count_late<R: Clock>(&self, rt: &R, taken_at: Option<Instant>, count: usize) {
        let (Some(taken_at), Ok(now)) = (taken_at, Instant::now(rt)) else {
            return;
        };
        if seconds_between(taken_at, now) >= LATE_S {
            self.journal.add_late(count);
        }
    }

    fn note_written(&self, was_stuck: bool) {
        if was_stuck {
            let name = self.name;
            self.notes.note(
                About::centre(Kind::JournalWritten, name),
                format_args!("{name}: the journal is written again"),
            );
        }
    }

    // Marks the journal as stuck. The first of consecutive failures is noted.
    fn note_stuck<R: Wait>(&self, rt: &R, was_stuck: bool, error: &io::Error) {
        self.journal.stick(rt);
        if !was_stuck {
            let name = self.name;
            self.notes.note(
                About::centre(Kind::JournalStuck, name),
                format_args!(
                    "{name}: the journal can't be written, and nothing more is answered until it can: {error}"
                ),
            );
        }
    }
}
