//! The verdict of an audit: compares the lines of a print with the due lines, and finds the first that differs.
//!
//! Bodies are free. docs/FORMATS.md fixes the printed text and each exit status.

mod comparison;
mod due;
mod part;
mod verdict;

pub use comparison::Comparison;
pub use verdict::Verdict;
