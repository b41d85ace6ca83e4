ghost use Rattle.std.specs.Prelude.{◌≡◌, ◌+◌, ◌-◌, ◌^◌, false, true, if◌then◌else◌};
ghost use Rattle.std.specs.Prelude.{IfNone, IfSome, min, nat_le, Some};
ghost use Rattle.serve_journal.specs.Shown.{shows};
ghost use Rattle.serve_line.specs.Journaling.Waiting.{awaited};

use crate::journaling::write_times::{TimedWrite, WriteTimes};
use serve_journal::Kept;
use std::sync::atomic::{AtomicU64, Ordering};
use std::sync::{Condvar, Mutex, MutexGuard, Wait};
use std::thread::Parker;
use std::time::Duration;

/// The most events that may wait to be written before the centre's peers wait for them, whatever the answer.
const MOST_UNWRITTEN: u32 = 4_096;

/// The rest of the writing thread before it looks for events again, in milliseconds.
const REST_MS: u64 = 50;

/// The reach of a centre's journal. Each thread that releases an answer checks it first.
#[derive(Drop)]
pub struct Journal {
    /// The number of the centre.
    centre: u8,
    /// The number of the centre's events in the journal at the start.
    begins: usize,
    /// The stamp of the last of these; 0 if there are none.
    begun: u32,
    /// Rung when there may be something to write.
    waker: Parker,
    reach: Mutex<Reach>,
    /// Notified when the reach changes.
    moved: Condvar,
    /// The number of events that were written a second or more after the writing thread took them.
    late: AtomicU64,
}

/// The reach of a journal.
#[derive(Drop)]
struct Reach {
    /// Shows the events that were written since the start.
    kept: Kept,
    /// The number of the centre's events in the journal.
    written: usize,
    /// The times of the last of these.
    times: WriteTimes,
    /// Whether the journal can't be written now.
    is_stuck: bool,
    /// Whether the journal is closed: nothing more is written.
    is_closed: bool,
}

impl Reach {
    // Shows the events that the journal keeps, if that of this centre with this stamp is one of them.
    fn shows(&self, centre: u8, stamp: u32) -> Option<Kept>
        ensures some { IfSome result (λ kept. (kept ≡ self.now.kept) × (shows kept centre stamp ≡ true)) }
        ensures none { IfNone result (shows self.now.kept centre stamp ≡ false) }
    {
        if self.kept.shows(centre, stamp) {
            Some(self.kept.again())
        } else {
            None
        }
    }

    // The journal has the events that `kept` shows: this many more, written at this time. The time is lost if memory
    // runs out.
    fn add(&mut self, kept: Kept, count: usize, time_ms: Option<u64>)
        ensures kept { self.new.kept ≡ kept }
        ensures written { self.new.written ≡ min (self.old.written + count) (2 ^ 64 - 1) }
        ensures stuck { self.new.is_stuck ≡ false }
        ensures closed { self.new.is_closed ≡ self.old.is_closed }
    {
        let first = self.written;
        let after = first.saturating_add(count);
        let _ = self.times.add(TimedWrite {
            first,
            after,
            time_ms,
        });
        self.kept = kept;
        self.written = after;
        self.is_stuck = false;
    }
}

impl Journal {
    /// The journal of a centre. It has the first `begins` events of the centre, the last with this stamp; 0 if it has
    /// none. The last of them were written at these times.
    pub fn new(centre: u8, begins: usize, stamp: u32, times: WriteTimes) -> Journal
        ensures centre { result.centre ≡ centre }
        ensures begins { result.begins ≡ begins }
        ensures begun { result.begun ≡ stamp }
    {
        Journal {
            centre,
            begins,
            begun: stamp,
            waker: Parker::new(),
            reach: Mutex::new(Reach {
                kept: Kept::no_event(centre),
                written: begins,
                times,
                is_stuck: false,
                is_closed: false,
            }),
            moved: Condvar::new(),
            late: AtomicU64::new(0),
        }
    }

    /// The number of the centre's events in the journal at the start.
    pub(crate) fn begins(&self) -> usize
        ensures { result ≡ self.now.begins }
    {
        self.begins
    }

    /// The stamp that the journal has to keep before an answer to the event with this stamp leaves. It is 0 for an
    /// event that the journal had at the start.
    pub fn awaited(&self, stamp: u32) -> u32
        ensures { result ≡ (if nat_le stamp self.now.begun then 0 else stamp) }
    {
        if stamp <= self.begun { 0 } else { stamp }
    }

    /// Waits until the journal keeps the event of this centre with this stamp. `None` if it was closed first, or is the
    /// journal of another centre.
    pub fn reaches<R: Wait>(&self, rt: &R, centre: u8, stamp: u32) -> Option<Kept>
        ensures { IfSome result (λ kept. shows kept centre stamp ≡ true) }
    {
        self.waker.unpark();
        self.wait_for(rt, centre, stamp)
    }

    /// Waits after a commit of this centre with this stamp whose answer need not wait for its event. It waits only if
    /// the journal is 4096 stamps late, or can't be written. `None` if the journal was closed, or is that of another
    /// centre.
    pub fn keeps_up<R: Wait>(&self, rt: &R, centre: u8, stamp: u32) -> Option<Kept>
        ensures { IfSome result (λ kept. shows kept centre (awaited (Some self.now.begun) (stamp - 4096)) ≡ true) }
    {
        self.waker.unpark();
        let is_stuck = self.reach.lock(rt).is_stuck;
        self.wait_for(rt, centre, self.needed(stamp, is_stuck))
    }

    // The stamp that the journal has to keep before an answer leaves that need not wait for its event. The event has
    // this stamp.
    fn needed(&self, stamp: u32, is_stuck: bool) -> u32
        ensures { result ≡ awaited (Some self.now.begun) (if is_stuck then stamp else stamp - 4096) }
    {
        if is_stuck {
            self.awaited(stamp)
        } else {
            self.awaited(stamp.saturating_sub(MOST_UNWRITTEN))
        }
    }

    /// As `reaches`. It is also `None` if the journal can't be written now.
    pub fn comes_to<R: Wait>(&self, rt: &R, centre: u8, stamp: u32) -> Option<Kept>
        ensures { IfSome result (λ kept. shows kept centre stamp ≡ true) }
    {
        self.waker.unpark();
        let mut reach = self.reach.lock(rt);
        for _ in rt.forever() {
            if let Some(kept) = reach.shows(centre, stamp) {
                return Some(kept);
            }
            if self.centre != centre || reach.is_closed || reach.is_stuck {
                return None;
            }
            reach = self.moved.wait(rt, reach);
        }
        unreachable!()
    }

    /// Whether the journal can't be written now, or is closed.
    pub fn is_stuck<R: Wait>(&self, rt: &R) -> bool {
        let reach = self.reach.lock(rt);
        reach.is_stuck || reach.is_closed
    }

    fn wait_for<R: Wait>(&self, rt: &R, centre: u8, stamp: u32) -> Option<Kept>
        ensures { IfSome result (λ kept. shows kept centre stamp ≡ true) }
    {
        let mut reach = self.reach.lock(rt);
        for _ in rt.forever() {
            if let Some(kept) = reach.shows(centre, stamp) {
                return Some(kept);
            }
            if self.centre != centre || reach.is_closed {
                return None;
            }
            reach = self.moved.wait(rt, reach);
        }
        unreachable!()
    }

    /// Rings the writing thread.
    pub fn ring(&self) {
        self.waker.unpark();
    }

    /// Rests until the journal is rung, or for `REST_MS`.
    pub(crate) fn rest<R: Wait>(&self, rt: &R) {
        self.waker.park_timeout(rt, Duration::from_millis(REST_MS));
    }

    /// The number of the centre's events in the journal.
    pub(crate) fn written<R: Wait>(&self, rt: &R) -> usize {
        self.reach.lock(rt).written
    }

    /// The time of the write of the centre's event at this place in its log, in milliseconds since 1970 in UTC. `None`
    /// if the journal does not have the event, 256 writes followed it, or the clock failed.
    pub(crate) fn time_of<R: Wait>(&self, rt: &R, place: usize) -> Option<u64> {
        self.reach.lock(rt).times.time_of(place)
    }

    /// The number of events that were written a second or more after the writing thread took them.
    pub(crate) fn late(&self) -> u64 {
        self.late.load(Ordering::SeqCst)
    }

    /// Counts events that were written a second or more after the writing thread took them.
    pub(crate) fn add_late(&self, count: usize) {
        self.late.fetch_add(count as u64, Ordering::SeqCst);
    }

    /// Reports that the journal has the events that `kept` shows, which are this many more, written at this time. The
    /// time is lost if memory runs out.
    pub(crate) fn reached<R: Wait>(&self, rt: &R, kept: Kept, count: usize, time_ms: Option<u64>) {
        let mut reach = self.reach.lock(rt);
        reach.add(kept, count, time_ms);
        self.tell(reach);
    }

    /// Reports that the journal can't be written now.
    pub(crate) fn stick<R: Wait>(&self, rt: &R) {
        let mut reach = self.reach.lock(rt);
        reach.is_stuck = true;
        self.tell(reach);
    }

    /// Closes the journal: nothing more is written.
    pub fn close<R: Wait>(&self, rt: &R) {
        let mut reach = self.reach.lock(rt);
        reach.is_closed = true;
        self.tell(reach);
    }

    // Notifies the waiting threads that the reach has changed.
    fn tell(&self, reach: MutexGuard<'_, Reach>) {
        drop(reach);
        self.moved.notify_all();
    }
}
