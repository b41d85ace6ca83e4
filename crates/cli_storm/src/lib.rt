//! Runs a storm over a script: after each event of the script, four deliveries are drawn by lot. Old, early and
//! repeated frames are among them.
//!
//! Bodies are free. docs/FORMATS.md fixes the draws and the printed text.
#![tactic(auto)]

mod draws;
mod links;
mod lots;
mod storm;

pub use draws::Draws;
pub use links::{Link, draw_delivery, links_of};
pub use lots::{below, in_hundred};
pub use storm::Storm;
