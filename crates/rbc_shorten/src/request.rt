ghost use Rattle.std.specs.Prelude.{◌≡◌, ◌-◌, ◌+◌, ◌*◌, ◌≤◌, ℕ, true, Some, None, if◌then◌else◌};
ghost use Rattle.rbc_spec.specs.Line.{start};
ghost use Rattle.rbc_spec.specs.Place.{group_start};
ghost use Rattle.rbc_spec.specs.Centre as spec;
ghost use Rattle.rbc_spec.specs.Acts.{may_propose};
ghost use Rattle.rbc_line.specs.SectionRuns.{run_of};
ghost use Rattle.rbc_shorten.specs.Facts.{AreFactsOf};
ghost use Rattle.rbc_shorten.specs.Requests.{may_shorten, may_shorten_at, shortening, shortening_at, is_free};
ghost use Rattle.rbc_shorten.specs.Requests.{is_cut_after_first};

use crate::facts::{Shortening, ShorteningFacts};
use rbc_line::{Line, SectionRun};
use rbc_place::section_start;

/// The farthest end that L_ENDSECTION can give, in metres.
const FARTHEST: u64 = 32_767;

/// A request for co-operative shortening of MA, to the end of the section before `s` (3.8.6). It is sent if and only if
/// all of this holds. The session is up, the mission is not ended, and no request is pending. `s` is in the hand and
/// not its first section. The front is not past the start of `s`, and this start is at most 32 767 m past the group.
pub fn propose(line: &Line, facts: ShorteningFacts, s: u16) -> Option<Shortening>
    ensures exact { result ≡ (if may_shorten line.now facts s then Some (shortening line.now facts s) else None) }
    // The same for the mission of a centre's state: when it may propose, the message that it sends, and the request
    // that it keeps.
    ensures rules { (t : ℕ) (n : spec.Mission) (k : spec.Centre) → AreFactsOf line.now t n k facts
        → result ≡ (if may_propose line.now t s n k
        then Some (record {
          l_endsection = start line.now s - group_start line.now n.place;
          last_kept = s - 1;
        }) else None) }
{
    let start = section_start(line, s);
    if !may_be_asked(facts, s, start) {
        return None;
    }
    Some(shortening(facts, s, start))
}

// Whether a request to shorten before a section may be made, which starts there.
#[tactic(auto, unfolding(crate::specs::Requests::may_shorten_at))]
fn may_be_asked(facts: ShorteningFacts, s: u16, start: u32) -> bool
    ensures value { result ≡ may_shorten_at start facts s }
    ensures room { result ≡ true → start ≤ facts.group_start + 32767 }
{
    is_free(facts)
        && is_cut_after_first(facts.hand, s)
        && u64::from(facts.front) <= 10 * u64::from(start)
        && u64::from(start) <= u64::from(facts.group_start) + FARTHEST
}

// Whether the mission may be asked for anything.
fn is_free(facts: ShorteningFacts) -> bool
    ensures { result ≡ is_free facts }
{
    facts.is_up && !facts.is_ended && facts.proposal.is_none()
}

// Whether the section is in the hand, and not its first.
fn is_cut_after_first(hand: SectionRun, s: u16) -> bool
    ensures { result ≡ is_cut_after_first (run_of hand) s }
{
    hand.contains(s) && s != hand.first
}

// The content of a request that keeps the sections before `s`, which begins at `start`.
fn shortening(facts: ShorteningFacts, s: u16, start: u32) -> Shortening
    requires { start ≤ facts.group_start + 32767 }
    ensures { result ≡ shortening_at start facts s }
{
    Shortening {
        l_endsection: start.saturating_sub(facts.group_start) as u16,
        last_kept: s.saturating_sub(1),
    }
}
