use crate::clients::admission::{Admission, admission_of};
use crate::moments::milliseconds_of;
use crate::state::{Paces, Slot};
use rbc_line::Line;
use std::sync::Wait;
use std::thread;
use std::time::{Clock, Duration};

/// Delays the thread that reads a train's connection if messages arrive too fast.
#[derive(Drop)]
pub(crate) struct RateLimit<'a, R> {
    pub rt: &'a R,
    pub line: &'a Line,
    pub paces: &'a Paces,
    pub slot: &'a Slot,
}

impl<R: Wait + Clock> RateLimit<'_, R> {
    /// Waits until a message of this engine may pass. It returns false if the connection has to leave its slot first.
    pub fn admits(&self, nid_engine: u32) -> bool {
        let bucket = self.paces.bucket(self.line, nid_engine);
        for _ in self.rt.forever() {
            let Some(now) = now_of(self.rt) else {
                return true;
            };
            let asked = bucket.lock(self.rt).ask(now);
            match admission_of(asked, self.slot.is_leaving()) {
                Admission::Pass => return true,
                Admission::Leave => return false,
                Admission::Wait(time) => thread::sleep(self.rt, Duration::from_millis(time)),
            }
        }
        unreachable!()
    }
}

// The monotonic time in milliseconds, if the clock gives it.
fn now_of<T: Clock>(clock: &T) -> Option<u64> {
    Some(milliseconds_of(clock.monotonic().ok()?))
}
