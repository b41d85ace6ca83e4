//! Prints a script that is played on a line: each event, its answer, and the line, at each `show` and at the end.
//!
//! Bodies are free. docs/FORMATS.md fixes the printed text.

mod buffered;
mod played;
mod printer;
mod underlying;

pub use buffered::print_buffered;
pub use played::print_played;
pub use printer::Printer;
