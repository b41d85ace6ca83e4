//! Finds the faults of a line file and their places, case by case, in one walk through its tables.
//!
//! Bodies are free. docs/FORMATS.md fixes the printed text and each exit status.

mod finding;
mod homes;
mod inspect;
mod inspection;

pub use finding::{Counted, Finding, Flaw, Place};
pub use inspect::cases_in;
