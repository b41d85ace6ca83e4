//! The changes of a unit before the train sends a message: it gives back first.

ghost use Rattle.std.specs.Prelude.{◌≡◌, option_map};
ghost use Rattle.rbc_msgs.specs.StepMessage.{step_body};
ghost use Rattle.law_trains.specs.Trains as rules;
ghost use Rattle.train_unit.specs.Units.{asked_by, asked_of, train_of};
ghost use Rattle.train_unit.specs.declared.ends.Ends.{Ends};

use crate::unit::{Asked, OnBoardUnit};
use rbc_msgs::TrainBody;

impl OnBoardUnit {
    /// The changes on board before the train sends a message with this T_TRAIN to a centre.
    pub(crate) fn before_it_says(&mut self, centre: u8, t_train: u32, body: &TrainBody)
        ensures exact { (ends : Ends) → train_of self.new ends
            ≡ rules.before_it_says centre t_train (step_body body.now) (train_of self.old ends) }
        ensures name { self.new.nid_engine ≡ self.old.nid_engine }
    {
        match body {
            TrainBody::ShorteningGranted { .. } => {
                self.gives_back(t_train, self.no_farther(centre));
            }
            TrainBody::EndOfMission { position } if position.v_train.value() == 0 => {
                self.gives_back(t_train, None);
            }
            TrainBody::StartOfMission { .. } => self.has_started = true,
            _ => {}
        }
    }

    // It keeps this end of its authority, and follows no centre from then on.
    fn gives_back(&mut self, t_train: u32, left: Option<u32>)
        ensures exact { (ends : Ends) → train_of self.new ends
            ≡ rules.gives_back t_train left (train_of self.old ends) }
        ensures name { self.new.nid_engine ≡ self.old.nid_engine }
    {
        self.end = left;
        self.follows = None;
        self.gave_back = t_train;
    }

    // The end of its authority, no farther than this centre proposed.
    fn no_farther(&self, centre: u8) -> Option<u32>
        ensures { result ≡ rules.no_farther (asked_by self.now centre) self.now.end }
    {
        let asked = self.asked(centre)?;
        let end = self.end?;
        Some(end.min(asked.end))
    }

    /// The last request to shorten that it received from this centre.
    pub(crate) fn asked(&self, centre: u8) -> Option<Asked>
        ensures { option_map asked_of result ≡ asked_by self.now centre }
    {
        self.asked.get(centre as usize).copied()?
    }
}
