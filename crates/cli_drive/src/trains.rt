//! Trains that obey, over TCP: they connect to the running centres of a line as the trains of a railway do. By lot
//! messages are lost, late or repeated. A connection that fails is opened again.
//!
//! [`run`] places trains on the line ([`Settings`]), and runs until all have arrived or the seconds are over. The
//! on-board unit of each train (`train_unit`) decides which messages it may send, and how far it may run. The module
//! `check` looks only at the true places of the trains, at the end of each second. An [`Observer`] gets these places.
//! Sections are released over the control endpoint of the centres.
//!
//! ```
//! let are_apart = run(rt, &line, settings, &NoObserver, out)?;
//! ```
//!
//! Bodies are free. docs/FORMATS.md fixes the printed text.

mod calls;
mod check;
mod connection;
mod fault;
mod hearing;
mod inbox;
mod interlocking;
mod looking;
mod lots;
mod observer;
mod radio;
mod releasing;
mod replies;
mod report;
mod seconds;
mod settings;
mod train;

pub use fault::TrainsFault;
pub use observer::{NoObserver, Observer, TruePlace};
pub use seconds::run;
pub use settings::Settings;
