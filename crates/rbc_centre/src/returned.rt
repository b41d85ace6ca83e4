//! Sections that are not returned to another centre, and the body of a letter to one centre.

ghost use Rattle.std.specs.Prelude.{◌≡◌, ℕ, [], IsTrue};
ghost use Rattle.rbc_line.specs.SectionRuns.{run_of};
ghost use Rattle.rbc_train.specs.Letters.{bodies_in, going_home, letters};

use rbc_line::{Line, SectionRun};
use rbc_linkmsg::Body;
use rbc_train::Letter;

/// Whether all these sections are of the home of the centre that returns them, so that none goes to another.
#[inline(always)]
pub(crate) fn stays(line: &Line, centre: u8, sections: SectionRun) -> bool
    ensures { IsTrue result → (t track d : ℕ) → going_home line.now centre t track (run_of sections) d ≡ [] }
{
    if sections.is_empty() {
        return true;
    }
    all_stay(line, centre, sections)
}

// Whether each of these sections is of the centre's home.
fn all_stay(line: &Line, centre: u8, sections: SectionRun) -> bool
    ensures { IsTrue result → (t track d : ℕ) → going_home line.now centre t track (run_of sections) d ≡ [] }
{
    let end = u32::from(sections.first) + u32::from(sections.count);
    if end > u32::from(line.section_count()) {
        return false;
    }
    for s in sections.first..end as u16 {
        if !line.is_home(centre, s) {
            return false;
        }
    }
    true
}

/// The body of the letter to this centre.
pub(crate) fn letter_to(letter: Option<Letter>, to: u8) -> Option<Body>
    ensures { bodies_in result ≡ letters letter to }
{
    letter?.to_centre(to)
}
