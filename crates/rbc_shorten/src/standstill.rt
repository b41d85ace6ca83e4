ghost use Rattle.std.specs.Prelude.{◌≡◌, ◌*◌, ◌≤◌};
ghost use Rattle.rbc_spec.specs.SectionRuns.{passing};
ghost use Rattle.rbc_spec.specs.Line.{start};
ghost use Rattle.rbc_line.specs.SectionRuns.{run_of};
ghost use Rattle.rbc_shorten.specs.Standstill.{ahead_of, begins_before};

use crate::answer::Cut;
use rbc_line::{Line, SectionRun};
use rbc_place::section_start;

/// The cut of the hand of a train that ends its mission at standstill, with its safe front end in decimetres (5.5). If
/// the train has reached its hand, the sections that begin at the front or past it are cut off.
pub fn cut_at_standstill(line: &Line, hand: SectionRun, front: u32) -> Cut
    ensures { result ≡ ahead_of line.now (run_of hand) front }
{
    let keep = reached(line, hand, front);
    if keep == 0 || keep == hand.count {
        return Cut::Nothing;
    }
    Cut::Keep(keep)
}

// How many of the first sections of the hand begin before the front.
fn reached(line: &Line, hand: SectionRun, front: u32) -> u16
    ensures value { result ≡ passing (begins_before line.now front) (run_of hand) }
    ensures bound { result ≤ hand.count }
{
    for k in 0..hand.count {
        if !is_reached(line, u32::from(hand.first) + u32::from(k), front) {
            return k;
        }
    }
    hand.count
}

// Whether the section begins before the front.
#[tactic(auto, unfolding(rbc_spec::specs::Line::start))]
fn is_reached(line: &Line, s: u32, front: u32) -> bool
    ensures { result ≡ begins_before line.now front s }
{
    if s >= u32::from(line.section_count()) {
        return 0 < front;
    }
    10 * section_start(line, s as u16) < front
}
