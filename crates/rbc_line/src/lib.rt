//! The line file: from a text of tables to the line that the centres supervise, and the look-ups on it. A `Line` keeps
//! every rule of a line, so nothing above tests one again.
//!
//! ```
//! let line = Line::from_toml(alloc, text)?;
//! let centre = line
//!     .centre_named(name)
//!     .ok_or("the line has no such centre")?;
//! let mut lengths = Vec::new(alloc);
//! for number in 0..line.section_count() {
//!     if let Some(section) = line.section(number) {
//!         if section.home == centre {
//!             lengths.push(section.metres)?;
//!         }
//!     }
//! }
//! ```
//!
//! A faulty file is a [`LineFault`], whose `number` is the one that `rbcline check` prints. It is the lowest fault that
//! applies.
//!
//! Bodies and proofs may change. The clauses of public functions have to stay: the crates above depend on them.
#![tactic(auto)]

mod build;
mod copies;
mod document;
mod draft;
mod fault;
mod faults;
mod guesses;
mod homes;
mod layout;
pub mod limits;
mod lowest;
mod parts;
mod read;
mod section_run;
mod tables;

pub use fault::LineFault;
pub use layout::Line;
pub use parts::{Section, Train};
pub use section_run::SectionRun;
