ghost use Rattle.std.specs.Prelude.{◌≡◌, ℕ, ◌+◌, ◌-◌, ◌<◌, ◌≤◌, true};
ghost use Rattle.rbc_spec.specs.SectionRuns.{next_after, longest};
ghost use Rattle.rbc_spec.specs.Line.{end, IsLine};
ghost use Rattle.rbc_spec.specs.Place as spec;
ghost use Rattle.rbc_line.specs.SectionRuns.{run_of};
ghost use Rattle.rbc_place.specs.Places.{place_of};
ghost use Rattle.rbc_grant.specs.Grants as grants;

use crate::follow::{MOST_METRES, following};
use rbc_book::Book;
use rbc_line::{Line, SectionRun};
use rbc_place::{Place, group_start, section_end};

/// The answer to a request: by how many sections the hand is extended, and L_ENDSECTION of the authority.
#[derive(Clone, Copy, Debug, PartialEq, Eq)]
pub struct Grant {
    /// The number of sections that extend the hand; 0 if none may.
    pub sections: u16,
    /// The end of the extended hand, in metres from the balise group of the train's place.
    pub end: u32,
}

/// The end of the last section of the hand, in metres from the start of its track.
pub fn hand_end(line: &Line, hand: SectionRun) -> u32
    ensures value { result ≡ end line.now (next_after (run_of hand) - 1) }
    ensures bound { result ≤ 1024000 }
{
    section_end(line, hand.next_after().saturating_sub(1))
}

/// Whether a request from this place may be answered. The safe front end is not past the hand's end, which is at most
/// 32 767 metres past the balise group of the place.
#[inline(always)]
pub fn may_request(line: &Line, hand: SectionRun, place: &Place) -> bool
    ensures { result ≡ grants.may_request line.now (run_of hand) (place_of place.now) }
{
    let end = hand_end(line, hand);
    place.front <= 10 * end && end <= group_start(line, place) + MOST_METRES
}

/// The answer to a request: message 3 to message 132. The hand is extended by the longest run of sections that follow
/// it on the train's track. Each of them is open in this centre's book or is in the train's pool. The hand has at most
/// 32 sections then, and its end is at most 32 767 metres past the balise group of the place.
#[inline(always)]
pub fn answer_request(
    line: &Line,
    book: &Book,
    pool: SectionRun,
    hand: SectionRun,
    place: &Place,
) -> Grant
    ensures sections { result.sections
        ≡ longest (grants.may_follow line.now book.now (run_of pool) (place_of place.now)) (next_after (run_of hand))
        (32 - hand.count) }
    // No more than there is room for.
    ensures room { result.sections ≤ 32 - hand.count }
    // Each of them may follow.
    ensures each { (k : ℕ) → k < result.sections
        → grants.may_follow line.now book.now (run_of pool) (place_of place.now) (next_after (run_of hand) + k) ≡ true }
    ensures end { result.end
        ≡ end line.now (next_after (run_of hand) + result.sections - 1)
        - spec.group_start line.now (place_of place.now) }
    ensures line { IsLine line.now }
    // The end is in the range of L_ENDSECTION, if the request may be answered.
    ensures fits { grants.may_request line.now (run_of hand) (place_of place.now) ≡ true → result.end ≤ 32767 }
{
    let start = group_start(line, place);
    let sections = following(line, book, pool, hand, place, start);
    let last = (hand.next_after() + u32::from(sections)).saturating_sub(1);
    Grant {
        sections,
        end: section_end(line, last).saturating_sub(start),
    }
}
