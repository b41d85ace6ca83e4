ghost use Rattle.std.specs.Prelude.{◌≡◌, ◌≤◌};
ghost use Rattle.rbc_spec.specs.Place as spec;
ghost use Rattle.rbc_place.specs.Places.{place_of};

use crate::place::Place;
use crate::sections::section_start;
use rbc_line::Line;

/// The start of the section whose balise group the place refers to, in metres from the start of the track. 0 if the
/// group is not of the line.
#[inline(always)]
pub fn group_start(line: &Line, place: &Place) -> u32
    ensures value { result ≡ spec.group_start line.now (place_of place.now) }
    ensures bound { result ≤ 1024000 }
{
    match line.section_of_group(place.group) {
        Some(s) => section_start(line, s),
        None => 0,
    }
}
