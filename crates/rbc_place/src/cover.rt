ghost use Rattle.std.specs.Prelude.{◌≡◌, ◌<◌, ◌≤◌, length};
ghost use Rattle.rbc_spec.specs.Line.{IsLine};
ghost use Rattle.rbc_spec.specs.SectionRuns.{next_after};
ghost use Rattle.rbc_spec.specs.Place as spec;
ghost use Rattle.rbc_line.specs.SectionRuns.{run_of};
ghost use Rattle.rbc_place.specs.Places.{place_of, with_last};

use crate::ahead::first_ahead;
use crate::place::Place;
use crate::sections::{is_on, section_end, section_start};
use rbc_line::{Line, SectionRun};

/// Whether the train may occupy the section. On its track, the section starts before the safe front end, and ends past
/// the safe rear end. A place whose rear end is not known covers no section.
pub fn covers(line: &Line, place: &Place, s: u16) -> bool
    ensures { result ≡ spec.covers line.now (place_of place.now) s }
{
    match place.rear {
        Some(rear) => {
            is_on(line, place.track, u32::from(s))
                && 10 * section_start(line, s) < place.front
                && rear < 10 * section_end(line, u32::from(s)) as i32
        }
        None => false,
    }
}

/// The run of sections that the train may occupy.
#[inline(always)]
pub fn covered(line: &Line, place: &Place) -> SectionRun
    ensures value { run_of result ≡ spec.covered line.now (place_of place.now) }
    // Each of them is a section of the line.
    ensures bound { next_after (run_of result) ≤ length line.now.sections }
    ensures line { IsLine line.now }
{
    let mut run = SectionRun { first: 0, count: 0 };
    // Sections in rear of the rear end are not covered, nor are those after the first section ahead that is not.
    for s in first_ahead(line, place.track, place.rear)..line.section_count() {
        if !covers(line, place, s) {
            return run;
        }
        run = longer(run, s);
    }
    run
}

/// The run with one more section; an empty run then begins with it.
fn longer(run: SectionRun, s: u16) -> SectionRun
    requires { run.count < 65535 }
    ensures { run_of result ≡ with_last (run_of run) s }
{
    if run.is_empty() {
        SectionRun { first: s, count: 1 }
    } else {
        SectionRun {
            first: run.first,
            count: run.count + 1,
        }
    }
}
