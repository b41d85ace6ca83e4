use std::sync::Wait;
use std::sync::atomic::{AtomicBool, Ordering};
use std::thread::Parker;
use std::time::Duration;

/// The longest rest of a worker before it looks again, in milliseconds.
const REST_MS: u64 = 50;

/// The most consecutive rests of a worker at the end, while the worker at the other end of its link does nothing: 5
/// seconds.
const LAST_RESTS: u32 = 100;

/// The signals between the two workers of a directed link.
#[derive(Drop)]
pub struct LinkEnds {
    /// Rung when a frame was put on the link.
    put: Parker,
    has_sender_ended: AtomicBool,
    has_receiver_ended: AtomicBool,
}

impl LinkEnds {
    /// The signals of a link whose workers have not ended.
    pub fn new() -> LinkEnds {
        LinkEnds {
            put: Parker::new(),
            has_sender_ended: AtomicBool::new(false),
            has_receiver_ended: AtomicBool::new(false),
        }
    }

    /// The signals of the sending worker. Its waker is rung when its centre has a frame for the link, and when there is
    /// room again.
    pub fn of_sender<'a>(&'a self, waker: &'a Parker, is_over: &'a AtomicBool) -> Signals<'a> {
        Signals {
            own: waker,
            next: &self.put,
            is_over,
            has_ended: &self.has_sender_ended,
            has_other_ended: &self.has_receiver_ended,
        }
    }

    /// The signals of the receiving worker. It rings the waker of the sending worker.
    pub fn of_receiver<'a>(&'a self, waker: &'a Parker, is_over: &'a AtomicBool) -> Signals<'a> {
        Signals {
            own: &self.put,
            next: waker,
            is_over,
            has_ended: &self.has_receiver_ended,
            has_other_ended: &self.has_sender_ended,
        }
    }
}

/// The signals to a worker of a link: there may be something to do, or the centres are to end.
#[derive(Clone, Copy)]
pub struct Signals<'a> {
    /// Rung when there may be something for this worker to do.
    own: &'a Parker,
    /// Rung by this worker, for the worker at the other end of the link.
    next: &'a Parker,
    /// No session is left: nothing new arrives.
    is_over: &'a AtomicBool,
    has_ended: &'a AtomicBool,
    has_other_ended: &'a AtomicBool,
}

/// The stage of a worker's end.
#[derive(Clone, Copy, PartialEq, Eq)]
pub(crate) enum Stage {
    /// Sessions are left: something new may arrive.
    Running,
    /// No session is left, and the worker at the other end of the link continues.
    Ending,
    /// No session is left, and the worker at the other end of the link has ended.
    Alone,
}

impl Signals<'_> {
    /// The stage of the end. A worker reads it before it looks at the link. If the other worker has ended, a frame that
    /// is not found then will not arrive.
    pub(crate) fn stage(&self) -> Stage {
        if !self.is_over.load(Ordering::SeqCst) {
            Stage::Running
        } else if self.has_other_ended.load(Ordering::SeqCst) {
            Stage::Alone
        } else {
            Stage::Ending
        }
    }

    /// Rests until the worker is rung, or for `REST_MS`.
    fn rest<R: Wait>(&self, rt: &R) {
        self.own.park_timeout(rt, Duration::from_millis(REST_MS));
    }

    /// Rings the worker at the other end of the link.
    pub(crate) fn pass_on(&self) {
        self.next.unpark();
    }

    /// Notifies the worker at the other end of the link that this one has ended.
    pub(crate) fn end(&self) {
        self.has_ended.store(true, Ordering::SeqCst);
        self.pass_on();
    }
}

/// The remaining patience of a worker with the other end of its link.
#[derive(Drop)]
pub(crate) struct Patience {
    rests: u32,
}

impl Patience {
    pub(crate) fn new() -> Patience {
        Patience { rests: LAST_RESTS }
    }

    /// Rests until the worker is rung, or for `REST_MS`, and returns whether it did. At the end it rests only while the
    /// other worker continues, and at most `LAST_RESTS` times.
    pub(crate) fn rests<R: Wait>(&mut self, rt: &R, signals: &Signals<'_>, stage: Stage) -> bool {
        match stage {
            Stage::Running => {}
            Stage::Ending if self.rests > 0 => self.rests -= 1,
            Stage::Ending | Stage::Alone => return false,
        }
        signals.rest(rt);
        true
    }
}
