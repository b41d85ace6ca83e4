ghost use Rattle.std.specs.Prelude.{◌≡◌, ◌<◌, ◌&&◌, ◌∷◌, [], ℕ, IfSome, is_none};
ghost use Rattle.std.specs.Option.{option_map_or};
ghost use Rattle.rbc_spec.specs.Line.{IsLine, is_home};
ghost use Rattle.rbc_spec.specs.SectionRuns.{longest, all_of, is_empty};
ghost use Rattle.rbc_spec.specs.Frame.{RouteReturn, HasRunRange};
ghost use Rattle.rbc_spec.specs.Centre.{Centre};
ghost use Rattle.rbc_spec.specs.Acts.{returned, part_at};
ghost use Rattle.rbc_spec.specs.Links.{is_of_line};
ghost use Rattle.rbc_line.specs.SectionRuns.{run_of};
ghost use Rattle.rbc_border.specs.Homes.{is_of};

use rbc_line::{Line, SectionRun};

/// Whether the section is of this home and on this track.
pub(crate) fn is_of(line: &Line, home: u8, track: u8, s: u32) -> bool
    ensures value { result ≡ is_of line.now home track s }
    ensures line { IsLine line.now }
{
    if s >= u32::from(line.section_count()) {
        return false;
    }
    match line.section(s as u16) {
        Some(section) => section.home == home && section.track == track,
        None => false,
    }
}

/// The length of the longest run of sections from the first on that are of this home and on this track, up to the
/// limit.
pub(crate) fn stretch(line: &Line, home: u8, track: u8, first: u16, most: u16) -> u16
    ensures { result ≡ longest (is_of line.now home track) first most }
{
    for k in 0..most {
        if !is_of(line, home, track, u32::from(first) + u32::from(k)) {
            return k;
        }
    }
    most
}

/// Whether the sections are of the line, on one track, and all of this home. The first has to be so even if the run is
/// empty.
pub(crate) fn is_of_one_home(line: &Line, home: u8, sections: SectionRun) -> bool
    ensures value { result
        ≡ ((is_of_line line.now (run_of sections) && is_home line.now home sections.first) && all_of
        (is_home line.now home) (run_of sections)) }
    ensures line { IsLine line.now }
{
    match line.section(sections.first) {
        Some(section) => {
            section.home == home
                && stretch(line, home, section.track, sections.first, sections.count)
                    == sections.count
        }
        None => false,
    }
}

/// The part of these sections that is of this home and on this track; it is a run. `None` if and only if it is empty.
pub fn part_at(line: &Line, home: u8, track: u8, sections: SectionRun) -> Option<SectionRun>
    ensures none { is_none result ≡ is_empty (part_at line.now home track (run_of sections)) }
    ensures part { IfSome result (λ part. run_of part ≡ part_at line.now home track (run_of sections)) }
    ensures range { IfSome result (λ part. HasRunRange 1 sections.count (run_of part)) }
{
    for k in 0..sections.count {
        let s = u32::from(sections.first) + u32::from(k);
        if is_of(line, home, track, s) {
            let first = s as u16;
            let count = stretch(line, home, track, first, sections.count - k);
            return Some(SectionRun { first, count });
        }
    }
    None
}

/// The part of these lent sections that returns to a centre: it is of its home and on the track, and is a run. `None`
/// if it is empty, and for the centre itself that returns them.
pub fn part_of(
    line: &Line,
    centre: u8,
    to: u8,
    track: u8,
    sections: SectionRun,
) -> Option<SectionRun>
    ensures exact { (t : ℕ) (k : Centre) → (returned line.now centre t track (run_of sections) k).frames to
        ≡ option_map_or (λ part. RouteReturn t (run_of part) ∷ []) result [] }
    ensures range { IfSome result (λ part. HasRunRange 1 sections.count (run_of part)) }
{
    if to == centre {
        return None;
    }
    part_at(line, to, track, sections)
}
