//! The first section in advance of a rear end, found by halving: sections are numbered track by track, and rise on
//! each.

ghost use Rattle.std.specs.Prelude.{◌≡◌, ◌*◌, ◌<◌, ◌≤◌, ℕ, pos, int_le, true, false, length};
ghost use Rattle.std.specs.Option.{option_map_or};
ghost use Rattle.rbc_spec.specs.Line.{IsLine, end};
ghost use Rattle.rbc_place.specs.Places.{is_in_rear};

use crate::sections::section_end;
use rbc_line::Line;

/// The first section of the line that is not in rear of the rear end, in decimetres from the start of this track. It is
/// of a later track, or of this one and ends past the rear end. If the rear end is not known, it is the first of a
/// later track.
pub(crate) fn first_ahead(line: &Line, track: u8, rear: Option<i32>) -> u16
    ensures bound { result ≤ length line.now.sections }
    ensures in_rear { (s : ℕ) → s < result → is_in_rear line.now track rear s ≡ true }
    ensures ahead { (s : ℕ) → result ≤ s → is_in_rear line.now track rear s ≡ false }
    ensures line { IsLine line.now }
{
    let mut low = 0;
    let mut high = line.section_count();
    while low < high {
        let middle = low + (high - low) / 2;
        if is_in_rear(line, track, rear, middle) {
            low = middle + 1;
        } else {
            high = middle;
        }
    }
    low
}

// Whether the section is in rear of the rear end.
fn is_in_rear(line: &Line, track: u8, rear: Option<i32>, s: u16) -> bool
    ensures { result ≡ is_in_rear line.now track rear s }
{
    match line.section(s) {
        Some(section) => {
            section.track < track || section.track == track && ends_by(line, rear, s)
        }
        None => false,
    }
}

// Whether the section ends at or before the rear end, or that is not known.
fn ends_by(line: &Line, rear: Option<i32>, s: u16) -> bool
    ensures { result ≡ option_map_or (λ r. int_le (pos (10 * end line.now s)) r) rear true }
{
    match rear {
        Some(rear) => 10 * section_end(line, u32::from(s)) as i32 <= rear,
        None => true,
    }
}
