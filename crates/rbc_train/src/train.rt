ghost use Rattle.std.specs.Prelude.{◌≡◌, ◌+◌, ◌≤◌, ℕ, length, IfOk, None, false, option_map};
ghost use Rattle.rbc_spec.specs.Message.{is_stale};
ghost use Rattle.rbc_line.specs.SectionRuns.{run_of};
ghost use Rattle.rbc_place.specs.Places.{place_of};
ghost use Rattle.rbc_session.specs.SessionStates.{phase_of, session_phase};
ghost use Rattle.rbc_mission.specs.Supervisions.{hand_of, handing_in, pool_of};
ghost use Rattle.rbc_handover.specs.Expectations.{expected_from};
ghost use Rattle.rbc_pending_start.specs.Waits.{nothing_waits};
ghost use Rattle.rbc_train.specs.Desks.{mission_by};
ghost use Rattle.rbc_train.specs.Trains.{unknown_state};

use rbc_book::Book;
use rbc_handover::Expectations;
use rbc_line::{Line, SectionRun};
use rbc_mission::{MissionFacts, Supervision};
use rbc_pending_start::WaitingStart;
use rbc_place::Place;
use rbc_session::{Phase, SessionState, Sessions};
use std::alloc::{AllocError, Global};

/// A view of a train at a centre.
#[derive(Clone, Copy, Debug, PartialEq, Eq)]
pub struct TrainPage {
    /// The phase of the communication session with it (3.5.3).
    pub phase: Phase,
    /// The last T_TRAIN received.
    pub heard: Option<u32>,
    /// The number of messages sent to the train.
    pub said: u32,
    /// The mission that the centre supervises.
    pub mission: Option<MissionFacts>,
    /// The sections of its movement authority; empty if it has no mission.
    pub hand: SectionRun,
    /// The lent sections in advance of them; empty if it has no mission.
    pub pool: SectionRun,
    /// The place of a start of mission that waits for the right to supervise the train.
    pub waiting: Option<Place>,
}

/// The state that a centre keeps of a train of the line.
#[derive(Debug)]
pub struct TrainState {
    /// Its session.
    pub session_state: SessionState,
    /// The last T_TRAIN received.
    pub heard: Option<u32>,
    /// The number of messages sent to it.
    pub said: u32,
    /// Its mission, if it has one at this centre.
    pub supervision: Supervision,
    /// Its start of mission that waits, and whether its right is asked for.
    pub waiting: WaitingStart,
    /// The handovers of it that other centres have announced.
    pub expectations: Expectations,
}

impl TrainState {
    /// The state of a train of this line from which no message was received, at this position in the line file. If
    /// memory runs out, the book ends the parts already made.
    pub fn unknown(
        alloc: Global,
        line: &Line,
        number: u8,
        nid_engine: u32,
        book: &mut Book,
    ) -> Result<TrainState, AllocError>
        ensures state { IfOk result (λ p. p ≡ unknown_state number nid_engine p.expectations) }
        ensures count { IfOk result (λ p. length p.expectations ≡ length line.now.centres) }
        ensures none { IfOk result (λ p. (d : ℕ) → expected_from p.expectations d ≡ None) }
        ensures book { IfOk result (λ p. book.new ≡ book.old) }
    {
        let supervision = Supervision::new(alloc, number, nid_engine)?;
        match starts_and_handovers(alloc, line, nid_engine, book) {
            Ok((waiting, expectations)) => Ok(TrainState {
                session_state: SessionState::Closed,
                heard: None,
                said: 0,
                supervision,
                waiting,
                expectations,
            }),
            Err(error) => {
                supervision.end(book);
                Err(error)
            }
        }
    }

    /// The train's NID_ENGINE.
    pub(crate) fn nid_engine(&self) -> u32
        ensures { result ≡ self.now.supervision.engine }
    {
        self.supervision.nid_engine()
    }

    /// The sections of its movement authority; empty if it has no mission.
    pub(crate) fn hand(&self) -> SectionRun
        ensures value { run_of result ≡ hand_of self.now.supervision }
        ensures most { result.count ≤ 32 }
        ensures numbers { result.first + result.count ≤ 65535 }
    {
        self.supervision.hand()
    }

    /// The view of its state.
    pub fn page(&self) -> TrainPage
        ensures phase { phase_of result.phase ≡ session_phase self.now.session_state }
        ensures heard { result.heard ≡ self.now.heard }
        ensures said { result.said ≡ self.now.said }
        ensures mission { mission_by result.mission result.hand result.pool (handing_in self.now.supervision)
            ≡ self.now.supervision.mission }
        ensures hand { run_of result.hand ≡ hand_of self.now.supervision }
        ensures pool { run_of result.pool ≡ pool_of self.now.supervision }
        ensures waiting { option_map place_of result.waiting ≡ self.now.waiting.wait }
    {
        TrainPage {
            phase: self.session_state.phase(),
            heard: self.heard,
            said: self.said,
            mission: self.supervision.mission(),
            hand: self.supervision.hand(),
            pool: self.supervision.pool(),
            waiting: self.waiting.place(),
        }
    }

    /// Ends it with its centre: its session ends, and its sections return to the book.
    pub fn end(self, sessions: &mut Sessions, book: &mut Book) {
        let TrainState {
            session_state,
            heard: _,
            said: _,
            supervision,
            waiting,
            expectations,
        } = self;
        sessions.end(session_state);
        supervision.end(book);
        waiting.end(book);
        expectations.end();
    }

    /// Whether a message is late or repeated (3.16.3).
    pub fn is_stale(&self, t_train: u32) -> bool
        ensures { result ≡ is_stale t_train self.now.heard }
    {
        match self.heard {
            Some(last) => t_train <= last,
            None => false,
        }
    }
}

// Room for a start of mission that waits, and for the handovers that other centres announce.
fn starts_and_handovers(
    alloc: Global,
    line: &Line,
    nid_engine: u32,
    book: &mut Book,
) -> Result<(WaitingStart, Expectations), AllocError>
    ensures waiting { IfOk result (λ made. made.0 ≡ nothing_waits nid_engine false) }
    ensures count { IfOk result (λ made. length made.1 ≡ length line.now.centres) }
    ensures none { IfOk result (λ made. (d : ℕ) → expected_from made.1 d ≡ None) }
    ensures book { IfOk result (λ made. book.new ≡ book.old) }
{
    let waiting = WaitingStart::new(alloc, nid_engine)?;
    match Expectations::new(alloc, line) {
        Ok(expectations) => Ok((waiting, expectations)),
        Err(error) => {
            waiting.end(book);
            Err(error)
        }
    }
}
