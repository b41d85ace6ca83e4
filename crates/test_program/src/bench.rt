//! The speed of the codec and of the centres of a line.

pub mod codec;
pub mod commits;
pub mod lines;
pub mod merging;
pub mod missions;
mod print;
