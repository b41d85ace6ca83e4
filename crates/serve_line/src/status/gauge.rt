ghost use Rattle.std.specs.Prelude.{◌≡◌, ◌<◌, ◌↔◌, IsTrue, max};
ghost use Rattle.serve_line.specs.Usage.{has_reached, mark_of};

use serve_notes::{About, Kind, Notes};

/// The last noted usage of a thing, in percent.
#[derive(Clone, Copy)]
pub(crate) struct Gauge {
    noted: u64,
}

impl Gauge {
    /// Nothing was noted yet.
    pub fn new() -> Gauge
        ensures { result.noted ≡ 0 }
    {
        Gauge { noted: 0 }
    }

    /// Whether the usage is to be noted: it has reached a higher one of 50, 90 and 99 percent than was noted last.
    pub fn rises(&mut self, used: u64, most: u64) -> bool
        ensures rises { IsTrue result ↔ (self.old.noted < mark_of used most) }
        ensures noted { self.new.noted ≡ max self.old.noted (mark_of used most) }
    {
        let mark = mark_of(used, most);
        if mark <= self.noted {
            return false;
        }
        self.noted = mark;
        true
    }

    /// Notes the usage when it first reaches 50, 90 or 99 percent.
    pub fn tell<N: Notes>(&mut self, notes: &N, name: &str, thing: &str, used: u64, most: u64)
        ensures { self.new.noted ≡ max self.old.noted (mark_of used most) }
    {
        if self.rises(used, most) {
            notes.note(
                About::centre(Kind::Usage, name),
                format_args!("{name}: {used} of {most} of its {thing} are used"),
            );
        }
    }
}

// The highest of 0, 50, 90 and 99 percent that the usage has reached.
fn mark_of(used: u64, most: u64) -> u64
    ensures { result ≡ mark_of used most }
{
    if has_reached(used, most, 99) {
        99
    } else if has_reached(used, most, 90) {
        90
    } else if has_reached(used, most, 50) {
        50
    } else {
        0
    }
}

// Whether the usage has reached this percentage.
fn has_reached(used: u64, most: u64, percent: u8) -> bool
    ensures { result ≡ has_reached percent used most }
{
    u128::from(used) * 100 >= u128::from(most) * u128::from(percent)
}
