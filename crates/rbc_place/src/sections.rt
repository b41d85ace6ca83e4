//! Sections of the line by their numbers.

ghost use Rattle.std.specs.Prelude.{◌≡◌, ◌≤◌};
ghost use Rattle.rbc_spec.specs.Line.{start, end, IsLine};
ghost use Rattle.rbc_spec.specs.Sections as spec;

use crate::ahead::first_ahead;
use rbc_line::Line;

/// The start of the section, in metres from the start of its track; 0 if the line has no such section.
#[tactic(auto, unfolding(rbc_spec::specs::Line::start))]
pub fn section_start(line: &Line, s: u16) -> u32
    ensures value { result ≡ start line.now s }
    ensures bound { result ≤ 1024000 }
{
    match line.section(s) {
        Some(section) => section.start,
        None => 0,
    }
}

/// The end of the section, in metres from the start of its track; 0 if the line has no such section.
#[tactic(auto, unfolding(rbc_spec::specs::Line::end))]
pub fn section_end(line: &Line, s: u32) -> u32
    ensures value { result ≡ end line.now s }
    ensures bound { result ≤ 1024000 }
    ensures line { IsLine line.now }
{
    if s >= u32::from(line.section_count()) {
        return 0;
    }
    match line.section(s as u16) {
        Some(section) => section.start + u32::from(section.metres),
        None => 0,
    }
}

/// Whether the section is of the line, and of this track.
pub fn is_on(line: &Line, track: u8, s: u32) -> bool
    ensures { result ≡ spec.is_on line.now track s }
{
    if s >= u32::from(line.section_count()) {
        return false;
    }
    match line.section(s as u16) {
        Some(section) => section.track == track,
        None => false,
    }
}

/// The end of a track, which is that of its last section, in metres; 0 if the line has no such track.
pub fn track_end(line: &Line, track: u8) -> u32
    ensures value { result ≡ spec.track_end line.now track }
    ensures bound { result ≤ 1024000 }
{
    let in_rear = u32::from(first_ahead(line, track, None));
    if in_rear > 0 && is_on(line, track, in_rear - 1) {
        section_end(line, in_rear - 1)
    } else {
        0
    }
}
