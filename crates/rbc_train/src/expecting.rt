//! Handovers that other centres announce to this one (3.15.1).

ghost use Rattle.std.specs.Prelude.{◌≡◌, ◌<◌, ℕ, None, length, nat_lt, if◌then◌else◌};
ghost use Rattle.rbc_spec.specs.Centre as spec;
ghost use Rattle.rbc_spec.specs.Line as track;
ghost use Rattle.rbc_spec.specs.Message.{Report};
ghost use Rattle.rbc_spec.specs.Acts.{rest};
ghost use Rattle.rbc_spec.specs.Links as links;
ghost use Rattle.rbc_msgs.specs.StepMessage.{position_of};
ghost use Rattle.rbc_book.specs.Book.{Pages};
ghost use Rattle.rbc_right.specs.Rights.{Rights};
ghost use Rattle.rbc_session.specs.SessionStates.{session_phase};
ghost use Rattle.rbc_train.specs.Desk.{DoesMessage, nothing, Does};
ghost use Rattle.rbc_train.specs.Written.{written};

use crate::front::is_in_area;
use crate::heard::Heard;
use crate::mail::Notice;
use crate::reason::Reason;
use crate::train::TrainState;
use rbc_line::Line;
use rbc_packets::Position;

impl TrainState {
    /// Announce from a centre: the train is expected from there under this number, unless it is expected from there
    /// already.
    pub(crate) fn announced(&mut self, line: &Line, from: u8, number: u32, track: u8)
        requires { from < length self.old.expectations }
        ensures exact { (c : ℕ) (book : Pages) (rights : Rights) → Does line.now c
            (if nat_lt track (length line.now.tracks) then links.announced from number self.old.supervision.engine
            else rest) self.old book rights self.new book rights nothing }
        ensures same { self.new ≡ record self.old { expectations = self.new.expectations } }
        ensures count { length self.new.expectations ≡ length self.old.expectations }
    {
        if track >= line.track_count() {
            return;
        }
        self.expectations.announced(from, number);
    }

    /// Cancel from a centre: if the train is expected from there under this number, it is not any more.
    pub(crate) fn cancelled(&mut self, from: u8, number: u32)
        ensures exact { (line : track.Line) (c : ℕ) (book : Pages) (rights : Rights) → Does line c
            (links.cancelled from number self.old.supervision.engine)
            self.old book rights self.new book rights nothing }
        ensures same { self.new ≡ record self.old { expectations = self.new.expectations } }
        ensures count { length self.new.expectations ≡ length self.old.expectations }
    {
        self.expectations.cancelled(from, number);
    }

    /// Message 136 of a train that is supervised elsewhere, with its session up. If the train is expected, and its safe
    /// front end is in a section of this home, each centre that announced it gets one TakingOver.
    pub(crate) fn report_elsewhere(
        &mut self,
        line: &Line,
        centre: u8,
        t_train: u32,
        position: &Position,
        out: &mut Heard,
    ) -> Result<(), Reason>
        requires out { out.old ≡ nothing }
        requires up { session_phase self.old.session_state ≡ spec.Up }
        requires none { self.old.supervision.mission ≡ None }
        ensures exact { (book : Pages) (rights : Rights) → DoesMessage line.now centre t_train
            (Report (position_of position.now)) self.old book rights self.new book rights (written result out.new) }
        ensures same { self.new ≡ record self.old { heard = self.new.heard; expectations = self.new.expectations } }
        ensures count { length self.new.expectations ≡ length self.old.expectations }
    {
        if !self.expectations.is_expected() {
            return Err(Reason::NotSupervised);
        }
        if !is_in_area(line, centre, position) {
            return Err(Reason::NotSupervised);
        }
        self.heard = Some(t_train);
        out.mail.notice = Notice::TakingOver(self.expectations.take_over());
        Ok(())
    }
}
