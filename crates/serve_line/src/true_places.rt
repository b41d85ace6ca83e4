//! The true places of trains that run in the process of the centres.

ghost use Rattle.std.specs.Arc.{arc_value};
ghost use Rattle.std.specs.Prelude.{◌≡◌, false, IfOk};

use std::alloc::{AllocError, Global};
use std::sync::{Arc, Mutex, Wait};
use text_page::TruePlace;

/// The true places of trains. The page and the program that runs the trains share them.
#[derive(Drop)]
pub struct TruePlaces {
    shared: Arc<Mutex<Vec<TruePlace>>, Global>,
}

impl TruePlaces {
    /// No place is known yet.
    pub fn new(alloc: Global) -> Result<TruePlaces, AllocError> {
        let places = Mutex::new(Vec::new(alloc));
        Ok(TruePlaces {
            shared: Arc::new(alloc, places)?,
        })
    }

    /// The same places, for another holder.
    pub fn share(&self) -> Result<TruePlaces, AllocError>
        ensures { IfOk result (λ places. arc_value places.shared ≡ arc_value self.now.shared) }
    {
        Ok(TruePlaces {
            shared: Arc::try_clone(&self.shared)?,
        })
    }

    /// Replaces the places of all trains.
    pub fn replace<R: Wait>(&self, rt: &R, places: Vec<TruePlace>) {
        *self.shared.lock(rt) = places;
    }

    /// Copies the places of all trains into these. Returns whether any has changed.
    pub(crate) fn copy_to<R: Wait>(
        &self,
        rt: &R,
        shown: &mut Vec<TruePlace>,
    ) -> Result<bool, AllocError>
        ensures { IfOk result (λ has_changed. has_changed ≡ false → shown.new.items ≡ shown.old.items) }
    {
        let places = self.shared.lock(rt);
        if places.as_slice() == shown.as_slice() {
            return Ok(false);
        }
        shown.clear();
        shown.extend_from_slice(places.as_slice())?;
        Ok(true)
    }
}
