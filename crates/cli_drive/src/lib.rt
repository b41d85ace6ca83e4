//! Trains over TCP. [`drive`] sends the lines of a train by hand to a centre, and prints the messages of its answers.
//! The module `telling` sends lines to the interlocking's endpoint, and judges the answers. The module `trains` runs
//! trains that obey over the running centres of a line, with messages lost and late by lot.
//!
//! Bodies are free. docs/FORMATS.md fixes the printed text and each exit status.
#![tactic(auto)]

mod connection;
mod fault;
mod head;
mod steps;
pub mod telling;
pub mod trains;

pub use connection::{drive, see_off};
pub use fault::DriveFault;
pub use steps::{Step, StepsFault, steps_of};
