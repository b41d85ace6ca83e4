//! A mission and a session on the page.

ghost use Rattle.std.specs.Prelude.{◌≡◌, option_map};

use text_page::{MissionNow, SessionNow};
use text_script::{LineView, MissionFacts, Phase, SectionRun};

/// The mission of a train with this authority and these lent sections, without a known handover.
pub fn mission_now(
    nid_engine: u32,
    supervisor: Option<u8>,
    facts: &MissionFacts,
    hand: SectionRun,
    pool: SectionRun,
) -> MissionNow
    ensures train { (result.nid_engine ≡ nid_engine) × (result.supervisor ≡ supervisor) }
    ensures place { (result.track ≡ facts.now.place.track) × (result.front ≡ facts.now.place.front) }
    ensures hand { result.hand ≡ hand }
    ensures pool { result.pool ≡ pool }
    ensures asked { result.asked ≡ option_map (λ proposal. proposal.last_kept) facts.now.proposal }
    ensures ended { result.is_ended ≡ facts.now.is_ended }
{
    MissionNow {
        nid_engine,
        supervisor,
        handover: None,
        track: facts.place.track,
        front: facts.place.front,
        rear: facts
            .place
            .rear
            .map(|rear| u32::try_from(rear).unwrap_or(0)),
        hand,
        pool,
        asked: facts.proposal.map(|proposal| proposal.last_kept),
        is_ended: facts.is_ended,
    }
}

/// The session of a train with a centre in a view of the line, if there is one. Both are named by their places in the
/// line file.
pub(crate) fn session_of(view: &LineView, train: usize, centre: usize) -> Option<SessionNow> {
    let train = view.trains.get(train)?;
    let session = train.sessions.get(centre)?;
    let centre = u8::try_from(centre).ok()?;
    let is_waiting = session.waiting.is_some();
    session_now(train.nid_engine, centre, session.phase, is_waiting)
}

/// The session of a train with a centre, if there is one. `is_waiting` is whether a start of mission waits at the
/// centre.
pub fn session_now(
    nid_engine: u32,
    centre: u8,
    phase: Phase,
    is_waiting: bool,
) -> Option<SessionNow> {
    match phase {
        Phase::Closed if !is_waiting => None,
        _ => Some(SessionNow {
            nid_engine,
            centre,
            phase,
            is_waiting,
        }),
    }
}
