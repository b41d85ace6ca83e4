//! The true places of trains, for an observer of a run.

use std::alloc::AllocError;

/// The true place of a train.
#[derive(Clone, Copy)]
pub struct TruePlace {
    pub nid_engine: u32,
    /// The number of its track in the line file, from 0.
    pub track: u8,
    /// The front end, in decimetres from the start of the track.
    pub front: u32,
    /// The rear end, in decimetres from the start of the track. It may be before the start.
    pub rear: i32,
}

/// An observer of the trains.
pub trait Observer {
    /// Takes the true places of all trains at the end of a second.
    fn see(&self, places: &[TruePlace]) -> Result<(), AllocError>;
}

/// Observes nothing.
#[derive(Clone, Copy)]
pub struct NoObserver;

impl Observer for NoObserver {
    fn see(&self, _: &[TruePlace]) -> Result<(), AllocError> {
        Ok(())
    }
}
