//! Whether a train that another centre hands over has its front in this centre's area.

ghost use Rattle.std.specs.Prelude.{◌≡◌, ◌&&◌};
ghost use Rattle.std.specs.List.{list_any, range_with_len};
ghost use Rattle.rbc_spec.specs.Maps.{has};
ghost use Rattle.rbc_spec.specs.Line as track;
ghost use Rattle.rbc_spec.specs.Sections as sections;
ghost use Rattle.rbc_spec.specs.Place.{extent as extent_of, has_front};
ghost use Rattle.rbc_msgs.specs.StepMessage.{position_of};
ghost use Rattle.rbc_line.specs.SectionRuns.{run_of};
ghost use Rattle.rbc_place.specs.Places.{place_of};

use rbc_line::{Line, SectionRun};
use rbc_packets::Position;
use rbc_place::{Place, extent, is_on, section_end, section_start};

/// Whether a report places the safe front end of its train in a section of this centre's home.
pub(crate) fn is_in_area(line: &Line, centre: u8, position: &Position) -> bool
    ensures { result ≡ has
        (λ p. list_any (λ s. track.is_home line.now centre s && has_front line.now p s)
        (range_with_len 0 (sections.section_count line.now))) (extent_of line.now (position_of position.now)) }
{
    match extent(line, position) {
        Some(place) => has_front_home(line, centre, place),
        None => false,
    }
}

// Whether the safe front end is in a section of this home.
fn has_front_home(line: &Line, centre: u8, place: Place) -> bool
    ensures { result ≡ list_any (λ s. track.is_home line.now centre s && has_front line.now (place_of place) s)
        (range_with_len 0 (sections.section_count line.now)) }
{
    for s in 0..line.section_count() {
        if is_front_at(line, centre, &place, s) {
            return true;
        }
    }
    false
}

// Whether the section is of this home, and has the safe front end in it, or at its end.
fn is_front_at(line: &Line, centre: u8, place: &Place, s: u16) -> bool
    ensures { result ≡ (track.is_home line.now centre s && has_front line.now (place_of place.now) s) }
{
    line.is_home(centre, s)
        && (is_on(line, place.track, u32::from(s))
            && 10 * section_start(line, s) < place.front
            && place.front <= 10 * section_end(line, u32::from(s)))
}

/// Whether all sections of the run are on this track.
pub(crate) fn is_on_track(line: &Line, track: u8, run: SectionRun) -> bool
    ensures { result ≡ sections.is_on_track line.now track (run_of run) }
{
    for k in 0..run.count {
        if !is_on(line, track, u32::from(run.first) + u32::from(k)) {
            return false;
        }
    }
    true
}

/// Whether the group of the place is of its track.
pub(crate) fn has_group_on_track(line: &Line, place: &Place) -> bool
    ensures { result ≡ has (sections.is_on line.now place.now.track) (track.section_of_group line.now place.now.group) }
{
    match line.section_of_group(place.group) {
        Some(s) => is_on(line, place.track, u32::from(s)),
        None => false,
    }
}
