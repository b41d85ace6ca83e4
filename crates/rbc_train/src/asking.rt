//! A request to shorten (3.8.6), sent by a train's supervisor if the interlocking wishes a section of the hand back.

ghost use Rattle.std.specs.Prelude.{◌≡◌, ◌+◌, ◌<◌, ◌≤◌};
ghost use Rattle.rbc_spec.specs.Acts.{propose_if_so};
ghost use Rattle.rbc_spec.specs.Centre as spec;
ghost use Rattle.rbc_session.specs.SessionStates.{phase_of, session_phase};
ghost use Rattle.rbc_shorten.specs.Facts.{AreFactsOf};
ghost use Rattle.rbc_train.specs.Desk.{last_said};
ghost use Rattle.rbc_train.specs.Guards.{mission_in};
ghost use Rattle.rbc_train.specs.Trains.{asked, HasTrain};
ghost use Rattle.rbc_train.specs.Sayings.{sayings_of};

use crate::saying::Saying;
use crate::train::TrainState;
use rbc_line::Line;
use rbc_mission::MissionFacts;
use rbc_msgs::TrackBody;
use rbc_packets::Authority;
use rbc_place::group_start;
use rbc_session::Phase;
use rbc_shorten::{Proposal, ShorteningFacts, propose};
use rbc_vars::LEndsection;

impl TrainState {
    /// Requests the train to end its movement authority before a section (3.8.6), if that request may be sent.
    #[inline(never)]
    pub fn ask_back(&mut self, line: &Line, s: u16) -> Option<Saying>
        requires count { self.old.said < last_said }
        ensures exact { (k : spec.Centre) → HasTrain k self.old.supervision.engine self.old
            → propose_if_so line.now self.old.supervision.engine s k
            ≡ asked self.old.supervision.engine self.new (sayings_of result) k }
        ensures session_state { self.new.session_state ≡ self.old.session_state }
        ensures heard { self.new.heard ≡ self.old.heard }
        ensures question { self.new.supervision.asked ≡ self.old.supervision.asked }
        ensures hand { self.new.supervision.hand ≡ self.old.supervision.hand }
        ensures number { self.new.supervision.number ≡ self.old.supervision.number }
        ensures engine { self.new.supervision.engine ≡ self.old.supervision.engine }
        ensures waiting { self.new.waiting ≡ self.old.waiting }
        ensures expectations { self.new.expectations ≡ self.old.expectations }
        ensures said { self.new.said ≤ self.old.said + 1 }
    {
        let mission = self.supervision.mission()?;
        let shortening = propose(line, self.facts(line, &mission), s)?;
        self.supervision.propose(Proposal {
            stamp: self.said + 1,
            last_kept: shortening.last_kept,
        });
        let request = TrackBody::ShorteningRequest(Authority {
            l_endsection: LEndsection::new(u64::from(shortening.l_endsection)),
        });
        Some(self.answer(mission.place.group, request))
    }

    // The facts that decide whether a request to shorten may be sent for a section of the mission.
    #[inline(always)]
    fn facts(&self, line: &Line, mission: &MissionFacts) -> ShorteningFacts
        ensures { (k : spec.Centre) → k.phase self.now.supervision.engine ≡ session_phase self.now.session_state
            → AreFactsOf line.now self.now.supervision.engine (mission_in self.now.supervision mission.now) k result }
    {
        ShorteningFacts {
            is_up: is_up(self.session_state.phase()),
            is_ended: mission.is_ended,
            proposal: mission.proposal,
            hand: self.hand(),
            front: mission.place.front,
            group_start: group_start(line, &mission.place),
        }
    }
}

/// Whether the session is up.
pub(crate) fn is_up(phase: Phase) -> bool
    ensures { result ≡ spec.is_up (phase_of phase) }
{
    match phase {
        Phase::Closed | Phase::Opened => false,
        Phase::Up => true,
    }
}
