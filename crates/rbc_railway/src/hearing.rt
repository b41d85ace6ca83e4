//! Trains that receive messages.

use crate::fault::RailwayFault;
use crate::find::index_of;
use crate::railway::{Railway, known};
use rbc_world::{Answer, Saying};

impl Railway {
    ghost use Rattle.std.specs.Prelude.{◌≡◌, ◌++◌, ◌∷◌, [], List, OnErr, OnOk, option_map, Some, ℕ};
    ghost use Rattle.law_trains.specs.Trains.{Hears, Moment, Train};
    ghost use Rattle.rbc_spec.specs.Outcome.{Saying as TrackSaying};
    ghost use Rattle.rbc_railway.specs.Railways.{HasRun, IsSafeRailway, KeepsMessages};
    ghost use Rattle.rbc_railway.specs.History.{obeys, told_at};
    ghost use Rattle.rbc_railway.specs.Verdicts.{hear_verdict};
    ghost use Rattle.rbc_world.specs.rbc_train.Sayings.{saying_of};

    /// A message of a centre arrives at its train: any message that is on the way, in any order, any number of times.
    /// `answer` is the index of the answer, and `which` the index of the message in it.
    pub fn hear(&mut self, answer: usize, which: usize) -> Result<(), RailwayFault>
        // It arrives if and only if it was sent, and its train is one of the railway.
        ensures exact { result ≡ hear_verdict (obeys self.old.trains.items) (told_at self.old.told.items answer which) }
        // It is one moment more of the closed loop.
        ensures moment { OnOk result ((c : ℕ) (p : TrackSaying) → told_at self.old.told.items answer which ≡ Some (c, p)
            → (first : ℕ → Train) (moments : List Moment) → HasRun self.old first moments
            → HasRun self.new first (moments ++ Hears p.nid_engine c p.message ∷ [])) }
        ensures kept { KeepsMessages self.old self.new }
        ensures safe { IsSafeRailway self.new }
        ensures err { OnErr result (self.new ≡ self.old) }
    {
        known(&self.line);
        let Some((centre, saying)) = self.on_the_way(answer, which) else {
            return Err(RailwayFault::NotSent);
        };
        let Some(train) = index_of(&self.trains, saying.nid_engine) else {
            return Err(RailwayFault::NoTrain);
        };
        self.trains[train].hears(&self.line, centre, &saying.message);
        Ok(())
    }

    // The message of this index in the answer of this index, and the centre that sent it.
    fn on_the_way(&self, answer: usize, which: usize) -> Option<(u8, Saying)>
        ensures { option_map (λ p. (p.0, saying_of p.1)) result ≡ told_at self.now.told.items answer which }
    {
        let told = self.told.get(answer)?;
        let Answer::Outcome(outcome) = &told.answer else {
            return None;
        };
        let saying = outcome.sayings.as_slice().get(which)?;
        Some((told.centre, *saying))
    }
}
