ghost use Rattle.std.specs.Prelude.{◌≡◌, ◌&&◌, int_le, int_lt, nat_le, OnErr, pos};
ghost use Rattle.rbc_msgs.specs.StepMessage.{step_message};
ghost use Rattle.law_trains.specs.Trains as rules;
ghost use Rattle.train_unit.specs.Units.{verdict};

use crate::fault::RailwayFault;
use rbc_line::Line;
use rbc_msgs::{TrackMsg, TrainMsg};
use train_unit::{Ends, OnBoardUnit};

/// A train that obeys, on the line.
#[derive(Debug, Drop)]
pub struct RunningTrain {
    /// Its on-board unit.
    pub(crate) unit: OnBoardUnit,
    /// Its true ends.
    pub(crate) ends: Ends,
}

impl RunningTrain {
    ghost use Rattle.std.specs.Prelude.{OnOk, true};
    ghost use Rattle.rbc_spec.specs.Line.{is_centre};
    ghost use Rattle.rbc_railway.specs.History.{MaySend, name_of, ran_to, train_at};
    ghost use Rattle.rbc_railway.specs.Verdicts.{run_verdict, sent_as};

    /// NID_ENGINE of the train.
    pub fn nid_engine(&self) -> u32
        ensures { result ≡ name_of self.now }
    {
        self.unit.nid_engine()
    }

    /// The true ends of the train.
    pub fn ends(&self) -> Ends
        ensures { result ≡ self.now.ends }
    {
        self.ends
    }

    /// The on-board unit of the train.
    pub fn unit(&self) -> &OnBoardUnit
        ensures { result.now ≡ self.now.unit }
    {
        &self.unit
    }

    // Its unit sends a message, by the true ends.
    pub(crate) fn say(
        &mut self,
        line: &Line,
        centre: u8,
        message: &TrainMsg,
    ) -> Result<(), RailwayFault>
        ensures exact { result ≡ sent_as (verdict line.now (name_of self.old) centre (step_message message.now)
            (train_at self.old)) }
        ensures may { OnOk result (MaySend line.now centre (step_message message.now) self.old) }
        ensures ok { OnOk result (train_at self.new
            ≡ rules.says centre (step_message message.now) (train_at self.old)) }
        ensures name { name_of self.new ≡ name_of self.old }
        ensures err { OnErr result (self.new ≡ self.old) }
    {
        match self.unit.say(line, centre, message, self.ends) {
            Ok(()) => Ok(()),
            Err(refused) => Err(RailwayFault::Refused(refused)),
        }
    }

    // It receives a message of this centre.
    pub(crate) fn hears(&mut self, line: &Line, centre: u8, message: &TrackMsg)
        requires { is_centre line.now centre ≡ true }
        ensures exact { train_at self.new
            ≡ rules.hears line.now centre message.now message.now.body (train_at self.old) }
        ensures name { name_of self.new ≡ name_of self.old }
    {
        self.unit.hears(line, centre, message);
    }

    // It runs to these ends.
    pub(crate) fn run_to(&mut self, front: u32, rear: i32) -> Result<(), RailwayFault>
        ensures exact { result ≡ run_verdict front rear (train_at self.old) }
        ensures may { OnOk result (rules.may_run front rear (train_at self.old) ≡ true) }
        ensures ok { OnOk result (self.new ≡ ran_to front rear self.old) }
        ensures name { name_of self.new ≡ name_of self.old }
        ensures err { OnErr result (self.new ≡ self.old) }
    {
        self.may_run(front, rear)?;
        self.ends.front = front;
        self.ends.rear = rear;
        Ok(())
    }

    // Why it may not run to these ends.
    fn may_run(&self, front: u32, rear: i32) -> Result<(), RailwayFault>
        ensures { result ≡ run_verdict front rear (train_at self.now) }
    {
        if !self.is_forward(front, rear) {
            return Err(RailwayFault::Backwards);
        }
        if !has_length(front, rear) {
            return Err(RailwayFault::Length);
        }
        if !self.may_reach(front) {
            return Err(RailwayFault::Limit);
        }
        Ok(())
    }

    // Whether these ends are not in rear of its own.
    fn is_forward(&self, front: u32, rear: i32) -> bool
        ensures { result ≡ (nat_le self.now.ends.front front && int_le self.now.ends.rear rear) }
    {
        self.ends.front <= front && self.ends.rear <= rear
    }

    // Whether its front end may reach this place.
    fn may_reach(&self, front: u32) -> bool
        ensures { result ≡ rules.may_reach front (train_at self.now) }
    {
        match self.unit.may_reach(self.ends.front) {
            Some(limit) => u64::from(front) <= limit,
            None => true,
        }
    }
}

/// Whether the rear end is in rear of the front end.
pub(crate) fn has_length(front: u32, rear: i32) -> bool
    ensures { result ≡ int_lt rear (pos front) }
{
    i64::from(rear) < i64::from(front)
}
