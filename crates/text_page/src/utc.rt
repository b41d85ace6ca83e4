use jiff::Timestamp;
use std::fmt;
use std::fmt::Formatter;

/// A time in milliseconds since 1970 in UTC. It is printed as `2026-11-29T08:00:00.000Z`, and after the year 9999 as
/// the number.
#[derive(Clone, Copy)]
pub struct Utc(pub u64);

impl fmt::Display for Utc {
    fn fmt<W: fmt::Write>(&self, f: &mut Formatter<W>) -> fmt::Result {
        let time_ms = self.0;
        match timestamp_of(time_ms) {
            Some(time) => write!(f, "{time:.3}"),
            None => write!(f, "{time_ms}"),
        }
    }
}

fn timestamp_of(time_ms: u64) -> Option<Timestamp> {
    Timestamp::from_millisecond(i64::try_from(time_ms).ok()?).ok()
}
