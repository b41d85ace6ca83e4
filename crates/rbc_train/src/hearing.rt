//! A message of a train, at a radio block centre.

ghost use Rattle.std.specs.Prelude.{◌≡◌, ◌+◌, ◌<◌, ◌≤◌, true, false, is_none, length};
ghost use Rattle.rbc_spec.specs.Centre as spec;
ghost use Rattle.rbc_spec.specs.Line.{train_number};
ghost use Rattle.rbc_spec.specs.Message.{is_stale};
ghost use Rattle.rbc_spec.specs.Step as step;
ghost use Rattle.rbc_spec.specs.Frame.{last_stamp};
ghost use Rattle.rbc_msgs.specs.StepMessage.{step_message};
ghost use Rattle.rbc_msgs.specs.TrainText.{TrainText};
ghost use Rattle.rbc_msgs.specs.declared.train_body.TrainBody.TheVariants.{InitiationOfSession};
ghost use Rattle.rbc_pending_start.specs.Waits.{IsCovered};
ghost use Rattle.rbc_session.specs.Sessions.{HasRoom};
ghost use Rattle.rbc_session.specs.SessionStates.{session_phase, StandsFor};
ghost use Rattle.rbc_train.specs.Desk.{HasParts, IsKeptAt, IsOnTrack, IsHeld, KeepsTrain, KeepsDesk, with_parts};
ghost use Rattle.rbc_train.specs.Desk.{effect_left};
ghost use Rattle.rbc_handover.specs.Giving.{with_count};
ghost use Rattle.rbc_train.specs.Desks.{IsBookOf};
ghost use Rattle.rbc_train.specs.Letters.{tells_others};
ghost use Rattle.rbc_train.specs.SessionStates.{Enters};
ghost use Rattle.rbc_train.specs.Written.{written};

use crate::heard::Heard;
use crate::reason::Reason;
use crate::train::TrainState;
use rbc_book::Book;
use rbc_handover::HandoverCount;
use rbc_line::Line;
use rbc_msgs::{TrainBody, TrainMsg};
use rbc_right::Registrar;
use rbc_session::Sessions;

impl TrainState {
    /// Takes a message of this train at a centre with this book, these rights, these sessions and this count of
    /// announced handovers. Its effect is written over `out`. Or the reason of its silence is returned: then nothing
    /// changes, and `out` has no meaning. There must be room for a session that it opens.
    #[inline(always)]
    pub fn take(
        &mut self,
        line: &Line,
        centre: u8,
        book: &mut Book,
        registrar: &mut Registrar,
        count: &mut HandoverCount,
        sessions: &mut Sessions,
        message: &TrainMsg,
        out: &mut Heard,
    ) -> Result<(), Reason>
        requires engine { message.now.nid_engine ≡ self.old.supervision.engine }
        requires number { self.old.supervision.number < length registrar.old }
        requires book { IsBookOf line.now centre book.old }
        requires kept { IsKeptAt line.now centre self.old }
        requires on { IsOnTrack line.now self.old }
        requires held { IsHeld line.now centre self.old }
        requires stands { StandsFor sessions.old self.old.session_state self.old.supervision.engine }
        requires room { message.now.body ≡ InitiationOfSession → is_stale message.now.t_train self.old.heard ≡ false
            → HasRoom sessions.old }
        requires count { self.old.said < 4294967293 }
        requires announced { count.old < last_stamp }
        ensures exact { (k : spec.Centre) → HasParts line.now centre k self.old book.old registrar.old
            → is_none (train_number line.now self.old.supervision.engine) ≡ false
            → k.announced ≡ count.old
            → step.effect line.now centre k (step.Train (step_message message.now))
            ≡ effect_left line.now centre self.old.supervision.engine
            (with_count count.new (with_parts self.new book.new registrar.new k)) (written result out.new) }
        ensures kept { KeepsTrain self.old self.new }
        ensures held { IsHeld line.now centre self.new }
        ensures covers { IsCovered line.now self.old.waiting → IsCovered line.now self.new.waiting }
        ensures announced { (count.old ≤ count.new) × (count.new ≤ count.old + 1) }
        ensures expected { length self.new.expectations ≡ length self.old.expectations }
        ensures desk { KeepsDesk self.old.supervision.number book.old book.new registrar.old registrar.new }
        ensures stands { Enters sessions.old sessions.new self.new.session_state self.old.supervision.engine
            (session_phase self.new.session_state) }
    {
        *out = Heard::nothing();
        let t_train = message.t_train();
        if self.is_stale(t_train) {
            return Err(Reason::StaleStamp);
        }
        match message.body() {
            TrainBody::InitiationOfSession => {
                self.initiation_of_session(book, sessions, t_train, out)
            }
            TrainBody::TerminationOfSession => {
                self.termination_of_session(book, sessions, t_train, out)
            }
            TrainBody::SessionEstablished => self.session_established(sessions, t_train),
            TrainBody::StartOfMission { q_status, position } => {
                self.start_of_mission(
                    line, centre, book, registrar, t_train, *q_status, position, out,
                )
            }
            TrainBody::TrainData { .. } => self.train_data(t_train, out),
            TrainBody::Request { position, .. } => {
                self.request(line, centre, book, count, t_train, position, out)
            }
            TrainBody::Report { position } => {
                self.report(line, centre, book, registrar, t_train, position, out)
            }
            TrainBody::ShorteningGranted { request, position } => {
                self.shortening_granted(
                    line, centre, book, registrar, t_train, *request, position, out,
                )
            }
            TrainBody::ShorteningRejected { request, .. } => {
                self.shortening_rejected(t_train, *request)
            }
            TrainBody::EndOfMission { position } => {
                self.end_of_mission(line, centre, book, registrar, t_train, position, out)
            }
        }
    }
}

/// Whether a train's message may cause a frame to another centre. It may ask for the right or for sections, or return
/// them. Or a handover is announced, claimed, cancelled or yielded.
pub fn tells_others(body: &TrainBody) -> bool
    ensures { (m : TrainText) → m.body ≡ body.now → result ≡ tells_others (step_message m).body }
{
    match body {
        TrainBody::StartOfMission { .. }
        | TrainBody::Request { .. }
        | TrainBody::Report { .. }
        | TrainBody::ShorteningGranted { .. }
        | TrainBody::EndOfMission { .. } => true,
        TrainBody::InitiationOfSession
        | TrainBody::TerminationOfSession
        | TrainBody::SessionEstablished
        | TrainBody::TrainData { .. }
        | TrainBody::ShorteningRejected { .. } => false,
    }
}
