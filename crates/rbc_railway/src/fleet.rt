ghost use Rattle.rbc_railway.specs.History.{AreNew, HaveOwnNames};

use crate::fault::RailwayFault;
use crate::find::index_of;
use crate::train::{RunningTrain, has_length};
use std::alloc::Global;
use train_unit::{Ends, OnBoardUnit};

/// The trains of a railway before its first moment.
#[derive(Debug, Drop)]
pub struct Fleet {
    pub(crate) trains: Vec<RunningTrain>,
    ghost own_names: { HaveOwnNames trains.items },
    ghost are_new: { AreNew trains.items },
}

impl Fleet {
    ghost use Rattle.std.specs.Prelude.{◌≡◌, ◌++◌, ◌∷◌, [], OnErr, OnOk};
    ghost use Rattle.rbc_railway.specs.History.{names_of};

    /// No train.
    pub fn new(alloc: Global) -> Fleet
        ensures { result.trains.items ≡ [] }
    {
        Fleet {
            trains: Vec::new(alloc),
        }
    }

    /// A train with this NID_ENGINE, anywhere. Its rear end is in rear of its front end, and no other train has its
    /// name.
    pub fn add(&mut self, nid_engine: u32, ends: Ends) -> Result<(), RailwayFault>
        ensures ok { OnOk result (names_of self.new.trains.items ≡ names_of self.old.trains.items ++ nid_engine ∷ []) }
        ensures err { OnErr result (self.new.trains.items ≡ self.old.trains.items) }
    {
        if !has_length(ends.front, ends.rear) {
            return Err(RailwayFault::Length);
        }
        if index_of(&self.trains, nid_engine).is_some() {
            return Err(RailwayFault::Name);
        }
        if self.trains.reserve(1).is_err() {
            return Err(RailwayFault::Memory);
        }
        self.trains.push_reserved(RunningTrain {
            unit: OnBoardUnit::new(nid_engine),
            ends,
        });
        Ok(())
    }
}
