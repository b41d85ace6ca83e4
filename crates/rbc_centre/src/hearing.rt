//! The step of a train's message: room is made, the train takes the message, and the frames to other centres are sent.

ghost use Rattle.std.specs.Prelude.{◌≡◌, OnOk, OnErr, true, false, Some};
ghost use Rattle.rbc_spec.specs.Line.{train_number};
ghost use Rattle.rbc_spec.specs.Message.{is_stale};
ghost use Rattle.rbc_spec.specs.Step as spec;
ghost use Rattle.rbc_msgs.specs.StepMessage.{step_message};
ghost use Rattle.rbc_msgs.specs.declared.train_body.TrainBody.TheVariants.{InitiationOfSession};
ghost use Rattle.rbc_session.specs.Sessions as sessions;
ghost use Rattle.law_invariants.specs.Ranges.Ranges.{HasMessageRanges};
ghost use Rattle.rbc_train.specs.Letters.{tells_others};
ghost use Rattle.rbc_centre.specs.Answer.{Steps, IsWantedBy, TakesMemory};
ghost use Rattle.rbc_centre.specs.States.{line_of, number_of, state_of, IsSame};
ghost use Rattle.rbc_centre.specs.Taken.{HasRoomToSend, HasTaken, KeepsPlace, MayTake};
ghost use Rattle.rbc_centre.specs.Views.{outcome_of};

use crate::centre::Centre;
use crate::fault::StepFault;
use crate::outcome::Outcome;
use crate::posted::Dispatch;
use crate::ranges::look_at_ranges;
use rbc_msgs::{TrainBody, TrainMsg};
use rbc_train::{Reason, tells_others};
use std::alloc::AllocError;

impl Centre {
    /// The step of a train's message, at a centre that refuses none. Room for a session and for frames is made first.
    #[inline(always)]
    pub(crate) fn take(&mut self, message: &TrainMsg, out: &mut Outcome) -> Result<(), AllocError>
        requires allowed { MayTake self.old (spec.Train (step_message message.now)) }
        ensures place { KeepsPlace self.old self.new }
        ensures exact { OnOk result (HasTaken (spec.Train (step_message message.now)) self.old self.new out.new) }
        ensures memory { OnErr result (TakesMemory (state_of self.old) (spec.Train (step_message message.now))) }
        ensures err { OnErr result (state_of self.new ≡ state_of self.old) }
    {
        let Some(i) = self.line.train_number(message.nid_engine()) else {
            look_at_ranges(message);
            self.clock += 1;
            out.write_nothing(self.clock, None, Some(Reason::ForeignEngine));
            return Ok(());
        };
        self.take_from(i, message, out)
    }

    // The step of a message of train number i of the line, at a centre that refuses none.
    #[inline(always)]
    fn take_from(&mut self, i: u8, message: &TrainMsg, out: &mut Outcome) -> Result<(), AllocError>
        requires allowed { MayTake self.old (spec.Train (step_message message.now)) }
        requires number { train_number (line_of self.old) message.now.nid_engine ≡ Some i }
        ensures place { KeepsPlace self.old self.new }
        ensures exact { OnOk result (HasTaken (spec.Train (step_message message.now)) self.old self.new out.new) }
        ensures memory { OnErr result (TakesMemory (state_of self.old) (spec.Train (step_message message.now))) }
        ensures err { OnErr result (state_of self.new ≡ state_of self.old) }
    {
        look_at_ranges(message);
        self.make_room(i as usize, message)?;
        self.hear_train(i as usize, message, out);
        Ok(())
    }

    // Room for the frames of a message, and for the session that the message of train number i of the line opens.
    // Nothing else changes.
    #[inline(always)]
    fn make_room(&mut self, i: usize, message: &TrainMsg) -> Result<(), AllocError>
        requires number { train_number (line_of self.old) message.now.nid_engine ≡ Some i }
        ensures same { IsSame self.old self.new }
        ensures room { OnOk result (tells_others (step_message message.now).body ≡ true → HasRoomToSend self.new) }
        ensures session { OnOk result
            (message.now.body ≡ InitiationOfSession
            → is_stale message.now.t_train ((state_of self.new).heard message.now.nid_engine) ≡ false
            → sessions.HasRoom self.new.sessions) }
        ensures memory { OnErr result (TakesMemory (state_of self.old) (spec.Train (step_message message.now))) }
    {
        if tells_others(message.body()) {
            self.reserve_frames()?;
            return Ok(());
        }
        let TrainBody::InitiationOfSession = message.body() else {
            return Ok(());
        };
        if self.trains[i].is_stale(message.t_train()) {
            return Ok(());
        }
        self.sessions.reserve()
    }

    // The step of a message of train number i of the line, in its ranges.
    #[inline(always)]
    fn hear_train(&mut self, i: usize, message: &TrainMsg, out: &mut Outcome)
        requires allowed { MayTake self.old (spec.Train (step_message message.now)) }
        requires number { train_number (line_of self.old) message.now.nid_engine ≡ Some i }
        requires ranges { HasMessageRanges (step_message message.now) }
        requires room { tells_others (step_message message.now).body ≡ true → HasRoomToSend self.old }
        requires session { message.now.body ≡ InitiationOfSession
            → is_stale message.now.t_train ((state_of self.old).heard message.now.nid_engine) ≡ false
            → sessions.HasRoom self.old.sessions }
        ensures place { KeepsPlace self.old self.new }
        ensures exact { HasTaken (spec.Train (step_message message.now)) self.old self.new out.new }
    {
        self.clock += 1;
        let train = &mut self.trains[i];
        let taken = train.take(
            &self.line,
            self.number,
            &mut self.book,
            &mut self.desk.registrar,
            &mut self.desk.handovers,
            &mut self.sessions,
            message,
            &mut self.heard,
        );
        match taken {
            Ok(()) => {
                let dispatch = Dispatch {
                    line: &self.line,
                    centre: self.number,
                    nid_engine: message.nid_engine(),
                    stamp: self.clock,
                    expectations: &train.expectations,
                    mail: &self.heard.mail,
                };
                dispatch.post(&mut self.links, &mut self.room, &mut out.frames);
                out.write_heard(self.clock, None, &self.heard);
            }
            Err(why) => out.write_nothing(self.clock, None, Some(why)),
        }
    }
}
