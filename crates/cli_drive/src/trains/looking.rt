//! The look at the true places of all trains, at the end of a second.

ghost use Rattle.std.specs.Prelude.{◌&&◌, ◌≡◌, IfOk, map, OnOk};
ghost use Rattle.cli_drive.specs.Apart.{are_apart};
ghost use Rattle.cli_drive.specs.Fronts.{place_of};
ghost use Rattle.cli_drive.specs.Obedience.{ends_of};

use crate::trains::check::are_apart;
use crate::trains::fault::TrainsFault;
use crate::trains::observer::{Observer, TruePlace};
use crate::trains::seconds::Running;
use crate::trains::train::Train;
use std::alloc::{AllocError, Global};
use train_unit::Ends;

impl<R> Running<'_, R> {
    /// Looks at the true places of all trains, and shows them to the observer.
    pub(crate) fn look<P: Observer>(&mut self, observer: &P) -> Result<(), TrainsFault>
        ensures trains { self.new.trains ≡ self.old.trains }
        ensures apart { OnOk result (self.new.tally.are_apart ≡ self.old.tally.are_apart
            && are_apart self.old.interlocking.sections.items (ends_of self.old.trains.items)) }
    {
        let ends = ends_of(self.alloc, &self.trains)?;
        let were_apart = are_apart(&self.interlocking.sections, &ends);
        self.tally.check(were_apart);
        let places = places_of(self.alloc, &self.trains)?;
        observer.see(&places)?;
        Ok(())
    }
}

// The true ends of trains.
fn ends_of(alloc: Global, trains: &[Train]) -> Result<Vec<Ends>, AllocError>
    ensures { IfOk result (λ ends. ends.items ≡ ends_of trains.now) }
{
    trains.iter().map(|train| train.ends).collect(alloc)
}

// The true places of trains.
fn places_of(alloc: Global, trains: &[Train]) -> Result<Vec<TruePlace>, AllocError>
    ensures { IfOk result (λ places. places.items ≡ map place_of trains.now) }
{
    trains.iter().map(|train| place_of(train)).collect(alloc)
}

// The true place of a train.
fn place_of(train: &Train) -> TruePlace
    ensures { result ≡ place_of train.now }
{
    TruePlace {
        nid_engine: train.unit.nid_engine(),
        track: train.ends.track,
        front: train.ends.front,
        rear: train.ends.rear,
    }
}
