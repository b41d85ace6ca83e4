//! The sections under a train, by its true ends.

ghost use Rattle.std.specs.Prelude.{◌≡◌, position};
ghost use Rattle.train_unit.specs.Standing.{has_front, stands_on};

use crate::ends::Ends;
use rbc_line::Section;

/// Whether some part of a train with these true ends is on the section.
pub fn covers(section: &Section, ends: Ends) -> bool
    ensures { result ≡ stands_on section.now ends }
{
    let start = 10 * u64::from(section.start);
    let end = start + 10 * u64::from(section.metres);
    section.track == ends.track
        && start < u64::from(ends.front)
        && i64::from(ends.rear) < end as i64
}

/// The index of the section with the front end of a train. `None` if the front end is past the end of its track.
pub fn section_of(sections: &[Section], ends: Ends) -> Option<usize>
    ensures { result ≡ position (λ section. has_front section ends) sections.now }
{
    sections.iter().position(|section| has_front(section, ends))
}

// Whether the front end of a train is on the section.
fn has_front(section: &Section, ends: Ends) -> bool
    ensures { result ≡ has_front section.now ends }
{
    let start = 10 * u64::from(section.start);
    let front = u64::from(ends.front);
    section.track == ends.track && start < front && front <= start + 10 * u64::from(section.metres)
}
