//! The time between two moments, and the length of a time.

ghost use Rattle.std.specs.Duration.{as_nanos};
ghost use Rattle.std.specs.Prelude.{◌≡◌, ◌-◌, ◌/◌, ◌^◌, min};
ghost use Rattle.std.specs.Time.{instant_nanos};

use std::time::{Duration, Instant};

/// The whole seconds from one moment to another.
pub(crate) fn seconds_between(since: Instant, now: Instant) -> u64
    ensures { result ≡ (instant_nanos now - instant_nanos since) / 1_000_000_000 }
{
    now.duration_since(since).as_secs()
}

/// The whole milliseconds of a time; the greatest number if there are more.
pub(crate) fn milliseconds_of(time: Duration) -> u64
    ensures { result ≡ min (as_nanos time / 1_000_000) (2 ^ 64 - 1) }
{
    match u64::try_from(time.as_millis()) {
        Ok(milliseconds) => milliseconds,
        Err(_) => u64::MAX,
    }
}
