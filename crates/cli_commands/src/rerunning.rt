//! Runs the journals of a line again. It checks whether their entries, in order, are one run of the line: the answer
//! to each event has the stamp of its entry. It prints that run.
//!
//! Bodies are free. docs/FORMATS.md fixes the printed text.

mod causes;
mod fault;
mod place;
mod printing;
mod rerun;

pub use causes::{Caused, with_causes};
pub use fault::RerunFault;
pub use place::Place;
pub use printing::print_rerun;
pub use rerun::first_unfit;
