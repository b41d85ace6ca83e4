ghost use Rattle.std.specs.Prelude.{◌≡◌, ◌≤◌};
ghost use Rattle.rbc_spec.specs.SectionRuns.{passing};
ghost use Rattle.rbc_spec.specs.Place as spec;
ghost use Rattle.rbc_line.specs.SectionRuns.{run_of};
ghost use Rattle.rbc_place.specs.Places.{place_of};

use crate::place::Place;
use crate::sections::section_end;
use rbc_line::{Line, SectionRun};

/// The number of the first sections of a train's hand that it has cleared: those that end at or before its safe rear
/// end (3.6.5). 0 if the rear end is not known.
pub fn cleared(line: &Line, hand: SectionRun, place: &Place) -> u16
    ensures value { result ≡ passing (spec.is_cleared line.now (place_of place.now)) (run_of hand) }
    ensures bound { result ≤ hand.count }
{
    for k in 0..hand.count {
        if !is_cleared(line, place, u32::from(hand.first) + u32::from(k)) {
            return k;
        }
    }
    hand.count
}

/// Whether the section ends at or before the safe rear end.
fn is_cleared(line: &Line, place: &Place, s: u32) -> bool
    ensures { result ≡ spec.is_cleared line.now (place_of place.now) s }
{
    match place.rear {
        Some(rear) => 10 * section_end(line, s) as i32 <= rear,
        None => false,
    }
}
