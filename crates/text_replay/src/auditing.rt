//! Audits a print: runs its events again, and compares its lines with those of the run, one by one as they arrive.
//!
//! Bodies are free. docs/FORMATS.md fixes the printed text and each exit status.

mod audit;
mod played;

pub use crate::comparing::Verdict;
pub use audit::Audit;
