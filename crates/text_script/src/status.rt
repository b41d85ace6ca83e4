//! The end of `rbcline`: its faults, their printed text, and its exit statuses.
//!
//! Bodies are free. docs/FORMATS.md fixes the printed text and each exit status.

mod ending;
mod fault;
mod print_fault;

pub use ending::{ended, report};
pub use fault::Fault;
pub use print_fault::PrintFault;
