//! The messages that a unit may send.

ghost use Rattle.std.specs.Prelude.{◌≡◌, ◌==◌, ◌&&◌, ℕ, true, is_ok, OnOk, OnErr};
ghost use Rattle.rbc_msgs.specs.StepMessage.{step_body, step_message};
ghost use Rattle.law_trains.specs.Trains as rules;
ghost use Rattle.train_unit.specs.Units.{train_of, verdict, IsWithin};
ghost use Rattle.train_unit.specs.declared.ends.Ends.{Ends as There};

use crate::ends::Ends;
use crate::position::is_true_of;
use crate::refused::Refused;
use crate::unit::OnBoardUnit;
use rbc_line::Line;
use rbc_msgs::{TrainBody, TrainMsg};

impl OnBoardUnit {
    /// The train sends a message to this centre. `ends` are its safe ends then, by its odometry. A message that gives
    /// something back is sent after the unit has done so. An error names the first rule that forbids the message, and
    /// changes nothing.
    pub fn say(
        &mut self,
        line: &Line,
        centre: u8,
        message: &TrainMsg,
        ends: Ends,
    ) -> Result<(), Refused>
        ensures exact { result ≡ verdict line.now self.old.nid_engine centre (step_message message.now)
            (train_of self.old ends) }
        // It is sent if and only if it has the train's name, and the rules allow it wherever the train may be.
        ensures may { is_ok result ≡ ((message.now.nid_engine == self.old.nid_engine)
            && rules.may_say line.now centre (step_message message.now) (train_of self.old ends)) }
        ensures obeys { OnOk result ((there : There) → IsWithin there ends
            → rules.may_say line.now centre (step_message message.now) (train_of self.old there) ≡ true) }
        ensures ok { OnOk result ((there : There) → train_of self.new there
            ≡ rules.says centre (step_message message.now) (train_of self.old there)) }
        ensures name { self.new.nid_engine ≡ self.old.nid_engine }
        ensures err { OnErr result (self.new ≡ self.old) }
    {
        self.look_at(line, centre, message, ends)?;
        self.before_it_says(centre, message.t_train(), message.body());
        self.clock = message.t_train();
        Ok(())
    }

    // Whether the rules allow the message.
    fn look_at(
        &self,
        line: &Line,
        centre: u8,
        message: &TrainMsg,
        ends: Ends,
    ) -> Result<(), Refused>
        ensures { result ≡ verdict line.now self.now.nid_engine centre (step_message message.now)
            (train_of self.now ends) }
    {
        if message.nid_engine() != self.nid_engine {
            return Err(Refused::Name);
        }
        if message.t_train() <= self.clock {
            return Err(Refused::Stamp);
        }
        if !is_true_of(line, ends, message.body()) {
            return Err(Refused::Position);
        }
        if !self.was_asked(centre, message.body()) {
            return Err(Refused::Request);
        }
        Ok(())
    }

    // Whether a message grants no request, or the last one that this centre sent.
    fn was_asked(&self, centre: u8, body: &TrainBody) -> bool
        ensures { (ends : There) → result ≡ rules.was_asked centre (step_body body.now) (train_of self.now ends) }
    {
        match body {
            TrainBody::ShorteningGranted { request, .. } => match self.asked(centre) {
                Some(asked) => u64::from(asked.stamp) == request.value(),
                None => false,
            },
            _ => true,
        }
    }
}
