//! The options that are times.

ghost use Rattle.std.specs.Prelude.{◌≡◌, Bool, codes, option_and_then};
ghost use Rattle.cli_commands.specs.Times.{axis, range_in, since_1970, spelled_ms};
ghost use Rattle.cli_commands.specs.Words.{IsFlag, value};

use crate::requests::TimeRange;
use clap::ArgMatches;
use jiff::Timestamp;

/// The range of `--since` and `--until`.
pub fn range_of(words: &ArgMatches<'_>) -> TimeRange
    ensures { result ≡ range_in words.now }
{
    TimeRange {
        since_ms: time_of(words, "since"),
        until_ms: time_of(words, "until"),
    }
}

/// The range that `picture` draws over time; none if it draws events by their numbers.
pub fn axis_of(words: &ArgMatches<'_>) -> Option<TimeRange>
    ensures { (is_asked : Bool) × IsFlag words.now (codes "time") is_asked
        × (result ≡ axis is_asked (range_in words.now)) }
{
    axis(words.get_flag("time"), range_of(words))
}

// The range that is drawn over time, if time is asked for or the range has a bound.
fn axis(is_asked: bool, range: TimeRange) -> Option<TimeRange>
    ensures { result ≡ axis is_asked range }
{
    if is_asked || range.is_bounded() {
        Some(range)
    } else {
        None
    }
}

// The time of the option of this name.
fn time_of(words: &ArgMatches<'_>, name: &str) -> Option<u64>
    ensures { result ≡ option_and_then spelled_ms (value words.now name.now) }
{
    spelled_ms(words.get_str(name)?)
}

// The time that a text spells, in milliseconds since 1970.
fn spelled_ms(text: &str) -> Option<u64>
    ensures { result ≡ spelled_ms text.now }
{
    let time: Timestamp = text.parse().ok()?;
    Some(since_1970(time.as_millisecond()))
}

// 0 for a time before 1970.
fn since_1970(ms: i64) -> u64
    ensures { result ≡ since_1970 ms }
{
    u64::try_from(ms).unwrap_or(0)
}
