//! The train opens, confirms and closes its communication session (3.5.3, 3.5.5).

ghost use Rattle.std.specs.Prelude.{◌≡◌, ◌<◌, ℕ};
ghost use Rattle.rbc_spec.specs.Line as track;
ghost use Rattle.rbc_spec.specs.Message.{InitiationOfSession, SessionEstablished, TerminationOfSession};
ghost use Rattle.rbc_book.specs.Book.{Pages, is_own};
ghost use Rattle.rbc_right.specs.Rights.{Rights};
ghost use Rattle.rbc_session.specs.Sessions.{HasRoom};
ghost use Rattle.rbc_session.specs.SessionStates.{session_phase, StandsFor};
ghost use Rattle.rbc_train.specs.Desk.{nothing, DoesMessage, IsReady, KeepsItself};
ghost use Rattle.rbc_train.specs.SessionStates.{Enters};
ghost use Rattle.rbc_train.specs.Written.{written};

use crate::heard::Heard;
use crate::reason::Reason;
use crate::session_state::{close, establish, open};
use crate::train::TrainState;
use rbc_book::Book;
use rbc_msgs::{NID_LRBG_UNKNOWN, TrackBody};
use rbc_session::{Phase, Sessions};

impl TrainState {
    /// Message 155: a session is opened. An earlier session is closed; a pending request to shorten and a waiting start
    /// of mission end with it.
    #[inline(never)]
    pub(crate) fn initiation_of_session(
        &mut self,
        book: &mut Book,
        sessions: &mut Sessions,
        t_train: u32,
        out: &mut Heard,
    ) -> Result<(), Reason>
        requires ready { IsReady self.old out.old }
        requires stands { StandsFor sessions.old self.old.session_state self.old.supervision.engine }
        requires room { HasRoom sessions.old }
        ensures exact { (line : track.Line) (c : ℕ) (rights : Rights) → DoesMessage line c t_train InitiationOfSession
            self.old book.old rights self.new book.new rights (written result out.new) }
        ensures left { self.new ≡ record self.old {
          session_state = self.new.session_state;
          heard = self.new.heard;
          said = self.new.said;
          supervision = record self.old.supervision { mission = self.new.supervision.mission };
          waiting = self.new.waiting;
        } }
        ensures keeps { KeepsItself self.old self.new }
        ensures homes { (s : ℕ) → is_own book.new s ≡ is_own book.old s }
        ensures stands { Enters sessions.old sessions.new self.new.session_state self.old.supervision.engine
            (session_phase self.new.session_state) }
    {
        let nid_engine = self.nid_engine();
        self.heard = Some(t_train);
        open(&mut self.session_state, sessions, nid_engine);
        self.supervision.forget_proposal();
        let told = self.waiting.drop_start(book);
        let saying = self.answer(NID_LRBG_UNKNOWN, TrackBody::SystemVersion);
        out.saying = Some(saying);
        out.told = told;
        Ok(())
    }

    /// Message 159: the session, if it was opened, is up.
    #[inline(never)]
    pub(crate) fn session_established(
        &mut self,
        sessions: &mut Sessions,
        t_train: u32,
    ) -> Result<(), Reason>
        requires stands { StandsFor sessions.old self.old.session_state self.old.supervision.engine }
        ensures exact { (line : track.Line) (c : ℕ) (book : Pages) (rights : Rights) → DoesMessage line c t_train
            SessionEstablished self.old book rights self.new book rights (written result nothing) }
        ensures left { self.new
            ≡ record self.old { session_state = self.new.session_state; heard = self.new.heard } }
        ensures stands { Enters sessions.old sessions.new self.new.session_state self.old.supervision.engine
            (session_phase self.new.session_state) }
    {
        match self.session_state.phase() {
            Phase::Closed => return Err(Reason::NoSession),
            Phase::Opened => {}
            Phase::Up => return Err(Reason::WrongPhase),
        }
        self.heard = Some(t_train);
        let nid_engine = self.nid_engine();
        establish(&mut self.session_state, sessions, nid_engine);
        Ok(())
    }

    /// Message 156: the session is closed. A pending request to shorten and a waiting start of mission end with it.
    #[inline(never)]
    pub(crate) fn termination_of_session(
        &mut self,
        book: &mut Book,
        sessions: &mut Sessions,
        t_train: u32,
        out: &mut Heard,
    ) -> Result<(), Reason>
        requires ready { IsReady self.old out.old }
        requires stands { StandsFor sessions.old self.old.session_state self.old.supervision.engine }
        ensures exact { (line : track.Line) (c : ℕ) (rights : Rights) → DoesMessage line c t_train TerminationOfSession
            self.old book.old rights self.new book.new rights (written result out.new) }
        ensures left { self.new ≡ record self.old {
          session_state = self.new.session_state;
          heard = self.new.heard;
          said = self.new.said;
          supervision = record self.old.supervision { mission = self.new.supervision.mission };
          waiting = self.new.waiting;
        } }
        ensures keeps { KeepsItself self.old self.new }
        ensures homes { (s : ℕ) → is_own book.new s ≡ is_own book.old s }
        ensures stands { Enters sessions.old sessions.new self.new.session_state self.old.supervision.engine
            (session_phase self.new.session_state) }
    {
        match self.session_state.phase() {
            Phase::Closed => return Err(Reason::NoSession),
            Phase::Opened | Phase::Up => {}
        }
        self.heard = Some(t_train);
        let nid_engine = self.nid_engine();
        close(&mut self.session_state, sessions, nid_engine);
        self.supervision.forget_proposal();
        let told = self.waiting.drop_start(book);
        let saying = self.answer(NID_LRBG_UNKNOWN, TrackBody::TerminationAcknowledged);
        out.saying = Some(saying);
        out.told = told;
        Ok(())
    }
}
