//! Trains that run.

use crate::fault::RailwayFault;
use crate::railway::{Railway, known};

impl Railway {
    ghost use Rattle.std.specs.Prelude.{◌≡◌, ◌++◌, ◌∷◌, [], Err, List, None, OnErr, OnOk, set, slice_get, Some, ℕ};
    ghost use Rattle.law_trains.specs.Trains.{Moment, Runs, Train};
    ghost use Rattle.rbc_railway.specs.declared.train.RunningTrain.{RunningTrain as Running};
    ghost use Rattle.rbc_railway.specs.History.{name_of, ran_to, train_at};
    ghost use Rattle.rbc_railway.specs.Railways.{HasRun, IsSafeRailway, KeepsMessages};
    ghost use Rattle.rbc_railway.specs.Verdicts.{run_verdict};
    ghost use Rattle.rbc_railway.specs.declared.fault.RailwayFault.TheVariants.{NoTrain};

    /// The train of this index runs to these ends, in decimetres from the start of its track. It runs forward, and its
    /// front end to the limit of its on-board unit at most.
    pub fn run_to(&mut self, train: usize, front: u32, rear: i32) -> Result<(), RailwayFault>
        // It runs if and only if the rules allow it. An error names the first that does not.
        ensures exact { (x : Running) → slice_get self.old.trains.items train ≡ Some x
            → result ≡ run_verdict front rear (train_at x) }
        ensures no_train { slice_get self.old.trains.items train ≡ None → result ≡ Err NoTrain }
        ensures ok { OnOk result ((x : Running) → slice_get self.old.trains.items train ≡ Some x
            → self.new.trains.items ≡ set self.old.trains.items train (ran_to front rear x)) }
        // It is one moment more of the closed loop.
        ensures moment { OnOk result ((x : Running) → slice_get self.old.trains.items train ≡ Some x
            → (first : ℕ → Train) (moments : List Moment) → HasRun self.old first moments
            → HasRun self.new first (moments ++ Runs (name_of x) front rear ∷ [])) }
        ensures kept { KeepsMessages self.old self.new }
        ensures safe { IsSafeRailway self.new }
        ensures err { OnErr result (self.new.trains.items ≡ self.old.trains.items) }
    {
        known(&self.line);
        if train >= self.trains.len() {
            return Err(RailwayFault::NoTrain);
        }
        self.trains[train].run_to(front, rear)
    }
}
