//! Prints events, their answers, and the line.
//!
//! Bodies are free. docs/FORMATS.md fixes the printed text and each exit status.

mod outcome;
mod print;

pub use outcome::print_outcome;
pub use print::{
    name_of, print_answer, print_counts, print_event, print_line, print_section, print_show,
    print_train,
};
