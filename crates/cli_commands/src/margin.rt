//! The chosen events of a print, and the margin of their lines: numbers and times.

ghost use Rattle.std.specs.Prelude.{◌≡◌, ◌↔◌, ◌+◌, ◌-◌, ◌^◌, IfOk, IfSome, IsTrue, None, min};
ghost use Rattle.cli_commands.specs.Times.{IsWithin, time_at};

use crate::requests::{Listing, TimeRange};
use jiff::Timestamp;
use std::io;
use std::io::Write;

/// The width of an event's number, with the blanks after it.
const NUMBER_WIDTH: usize = 8;

/// The width of an event's time, with the blanks after it.
const TIME_WIDTH: usize = 26;

/// The place in a print, line by line. The lines of an event begin with the one that begins with `> `.
#[derive(Drop)]
pub struct Margin {
    is_numbered: bool,
    is_timed: bool,
    range: TimeRange,
    /// The time of each event, in milliseconds since 1970 in UTC, if it is known.
    times_ms: Vec<Option<u64>>,
    /// The number of events so far. `show` does not count.
    events: usize,
    /// The lines of the last event are shown.
    is_shown: bool,
}

impl Margin {
    /// The place before the first line of a print, whose events have these times.
    pub fn new(listing: &Listing<'_>, times_ms: Vec<Option<u64>>) -> Margin
        ensures events { result.events ≡ 0 }
        ensures range { result.range ≡ listing.now.range }
    {
        Margin {
            is_numbered: listing.is_numbered,
            is_timed: listing.is_timed,
            range: listing.range,
            times_ms,
            events: 0,
            is_shown: true,
        }
    }

    /// Reads the next line. Prints its margin if the line is shown, and returns whether it is.
    pub fn begin<W: Write>(&mut self, out: &mut W, row: &str) -> io::Result<bool>
        ensures { IfOk result (λ is_shown. is_shown ≡ self.new.is_shown) }
    {
        let number = self.take(row);
        if self.is_shown {
            self.print(out, number)?;
        }
        Ok(self.is_shown)
    }

    // Takes the next line. Returns the number of the event that it begins. The event is shown if its time is within
    // the range, and so are the lines after it.
    fn take(&mut self, row: &str) -> Option<usize>
        ensures next { IfSome result (λ number. (number ≡ self.new.events)
            × (self.new.events ≡ min (self.old.events + 1) (2 ^ 64 - 1))) }
        ensures shown { IfSome result (λ number. IsTrue self.new.is_shown
            ↔ IsWithin self.new.range (time_at self.new.times_ms.items self.new.events)) }
        ensures range { self.new.range ≡ self.old.range }
        ensures kept { result ≡ None → self.new ≡ self.old }
    {
        let number = self.number_of(row)?;
        self.is_shown = self.range.contains(self.time_ms());
        Some(number)
    }

    // Counts the event whose first line this is, and returns its number, from 1.
    fn number_of(&mut self, row: &str) -> Option<usize>
        ensures number { IfSome result (λ number. number ≡ self.new.events) }
        ensures next { IfSome result (λ number. number ≡ min (self.old.events + 1) (2 ^ 64 - 1)) }
        ensures kept { result ≡ None → self.new ≡ self.old }
        ensures others { (self.new.range ≡ self.old.range) × (self.new.times_ms ≡ self.old.times_ms) }
    {
        if !row.starts_with("> ") || row == "> show" {
            return None;
        }
        self.events = self.events.saturating_add(1);
        Some(self.events)
    }

    // The time of the last event.
    fn time_ms(&self) -> Option<u64>
        ensures { result ≡ time_at self.now.times_ms.items self.now.events }
    {
        *self.times_ms.get(self.events.checked_sub(1)?)?
    }

    // Prints the number and the time of the event whose first line this is, or blanks before another line.
    fn print<W: Write>(&self, out: &mut W, number: Option<usize>) -> io::Result<()> {
        if self.is_numbered {
            print_number(out, number)?;
        }
        if self.is_timed {
            print_time(
                out,
                if number.is_some() {
                    self.time_ms()
                } else {
                    None
                },
            )?;
        }
        Ok(())
    }
}

fn print_number<W: Write>(out: &mut W, number: Option<usize>) -> io::Result<()> {
    match number {
        Some(number) => write!(out, "{number:>6}  "),
        None => out.write_all(&[b' '; NUMBER_WIDTH]),
    }
}

fn print_time<W: Write>(out: &mut W, time_ms: Option<u64>) -> io::Result<()> {
    match time_ms.and_then(timestamp_of) {
        Some(time) => write!(out, "{time:.3}  "),
        None => out.write_all(&[b' '; TIME_WIDTH]),
    }
}

// The time of this many milliseconds after the start of 1970 in UTC.
fn timestamp_of(time_ms: u64) -> Option<Timestamp> {
    Timestamp::from_millisecond(i64::try_from(time_ms).ok()?).ok()
}
