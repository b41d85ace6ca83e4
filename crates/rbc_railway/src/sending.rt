//! Trains that send messages.

ghost use Rattle.std.specs.Prelude.{◌≡◌, ◌⊎◌, IfErr, IfOk, Ok};
ghost use Rattle.rbc_msgs.specs.TrainReading.{read_train};
ghost use Rattle.rbc_railway.specs.declared.fault.RailwayFault.TheVariants.{Memory, TooLong};

use crate::fault::RailwayFault;
use crate::railway::{Railway, known};
use rbc_msgs::{EncodeFault, TrainMsg, encode_train};
use rbc_world::WorldEvent;
use std::alloc::Global;

impl Railway {
    ghost use Rattle.std.specs.Prelude.{◌++◌, ◌∷◌, [], Err, IfErr, List, None, OnErr, OnOk, slice_get, Some, ℕ};
    ghost use Rattle.law_trains.specs.Trains.{Moment, Says, Train};
    ghost use Rattle.rbc_msgs.specs.StepMessage.{step_message};
    ghost use Rattle.rbc_railway.specs.declared.train.RunningTrain.{RunningTrain as Running};
    ghost use Rattle.rbc_railway.specs.History.{MaySend, name_of, train_at};
    ghost use Rattle.rbc_railway.specs.Verdicts.{IsWhyNotSent};
    ghost use Rattle.rbc_railway.specs.declared.fault.RailwayFault.TheVariants.{NoTrain};
    ghost use Rattle.train_unit.specs.Units.{verdict};
    ghost use Rattle.rbc_railway.specs.Railways.{HasRun, IsSafeRailway, IsUnchanged};

    /// The train of this index sends a message to a centre. Its bytes are then on the way, and may arrive at any time.
    /// Its on-board unit decides, by the true ends of the train.
    pub fn send(&mut self, train: usize, centre: u8, message: &TrainMsg) -> Result<(), RailwayFault>
        // It is sent only if the rules allow it.
        ensures may { OnOk result ((x : Running) → slice_get self.old.trains.items train ≡ Some x
            → MaySend self.old.line centre (step_message message.now) x) }
        // If the rules allow it, only memory or the length of its spelling prevents it.
        ensures why { IfErr result (λ fault. (x : Running) → slice_get self.old.trains.items train ≡ Some x
            → IsWhyNotSent (verdict self.old.line (name_of x) centre (step_message message.now) (train_at x)) fault) }
        ensures no_train { slice_get self.old.trains.items train ≡ None → result ≡ Err NoTrain }
        // It is one moment more of the closed loop.
        ensures moment { OnOk result ((first : ℕ → Train) (moments : List Moment) → HasRun self.old first moments
            → HasRun self.new first (moments ++ Says centre (step_message message.now) ∷ [])) }
        ensures safe { IsSafeRailway self.new }
        ensures err { OnErr result (IsUnchanged self.old self.new) }
    {
        known(&self.line);
        if train >= self.trains.len() {
            return Err(RailwayFault::NoTrain);
        }
        let bytes = spelled(self.alloc, message)?;
        if self.sent.reserve(1).is_err() {
            return Err(RailwayFault::Memory);
        }
        self.trains[train].say(&self.line, centre, message)?;
        self.sent.push_reserved(WorldEvent::Train { centre, bytes });
        Ok(())
    }
}

// The bytes that spell the message.
fn spelled(alloc: Global, message: &TrainMsg) -> Result<Vec<u8>, RailwayFault>
    ensures read { IfOk result (λ bytes. read_train bytes.items ≡ Ok message.now) }
    ensures why { IfErr result (λ fault. (fault ≡ Memory) ⊎ (fault ≡ TooLong)) }
{
    match encode_train(alloc, message) {
        Ok(bytes) => Ok(bytes),
        Err(EncodeFault::TooLong) => Err(RailwayFault::TooLong),
        Err(EncodeFault::Memory) => Err(RailwayFault::Memory),
    }
}
