//! The parts of the page's view that a look at the centres leaves as they are. These are the marks of the endpoints and
//! the true places of trains.

ghost use Rattle.std.specs.Prelude.{◌<◌, ◌≡◌, ℕ, length, slice_get, slice_set};
ghost use Rattle.serve_line.specs.Marks.{marked, TakesMarks, with_marks, with_silent};

use text_page::{CentreCounts, CentreNow, LineNow};

/// Takes the marks of the endpoints and the true places of trains from the earlier view.
pub(crate) fn copy_marks(before: &mut LineNow, now: &mut LineNow)
    ensures { TakesMarks before.old now.old now.new }
{
    now.is_stopped = before.is_stopped;
    std::mem::swap(&mut now.true_places, &mut before.true_places);
    copy_places(before.centres.as_slice(), &mut now.centres);
}

// Takes the marks of each endpoint.
fn copy_places(before: &[CentreNow], now: &mut [CentreNow])
    ensures { (c : ℕ) → slice_get now.new c ≡ marked before.now c (slice_get now.old c) }
{
    for c in 0..now.len() {
        if let Some(old) = before.get(c) {
            now[c] = with_marks(*old, now[c]);
        }
    }
}

// The centre with the marks of its endpoint in the earlier view.
fn with_marks(old: CentreNow, now: CentreNow) -> CentreNow
    ensures { result ≡ with_marks old now }
{
    CentreNow {
        taken: old.taken,
        seats: old.seats,
        is_stuck: old.is_stuck,
        ..now
    }
}

/// Sets the counts of the silent messages of each centre.
pub(crate) fn copy_silent(silent: &[[u64; 10]], counts: &mut [CentreCounts])
    ensures { (c : ℕ) → slice_get counts.new c ≡ with_silent silent.now c (slice_get counts.old c) }
{
    for c in 0..counts.len() {
        if let Some(count) = silent.get(c) {
            counts[c].silent = *count;
        }
    }
}
