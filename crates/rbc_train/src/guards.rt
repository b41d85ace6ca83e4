//! The premises of most messages of a train: its session is up, and its mission is at this centre.

ghost use Rattle.rbc_session.specs.SessionStates.{session_phase};
ghost use Rattle.rbc_train.specs.Guards.{TellsUp, TellsMission};

use crate::reason::Reason;
use crate::train::TrainState;
use rbc_mission::MissionFacts;
use rbc_session::Phase;

impl TrainState {
    /// The session is up, or why a message is left without an answer.
    #[inline(always)]
    pub(crate) fn up(&self) -> Result<(), Reason>
        ensures { TellsUp (session_phase self.now.session_state) result }
    {
        match self.session_state.phase() {
            Phase::Closed => Err(Reason::NoSession),
            Phase::Opened => Err(Reason::WrongPhase),
            Phase::Up => Ok(()),
        }
    }

    /// The mission at this centre, or the reason that there is none.
    #[inline(always)]
    pub(crate) fn supervised(&self) -> Result<MissionFacts, Reason>
        ensures { TellsMission self.now.supervision result }
    {
        match self.supervision.mission() {
            Some(mission) => Ok(mission),
            None => Err(Reason::NotSupervised),
        }
    }
}
