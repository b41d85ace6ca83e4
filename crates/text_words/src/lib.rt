//! Puts radio messages, and the print of a run, into words for a reader. A message is shown field by field. A printed
//! line is shown with its message's name and its distances in metres of the track. Any text is accepted.
//!
//! Bodies are free. docs/FORMATS.md fixes the printed text and each exit status.
#![tactic(auto)]

mod faults;
mod field;
mod fields;
mod frames;
mod meanings;
mod message;
mod names;
mod numbers;
mod places;
mod position;
mod printed;
mod row;
mod said;
mod sections;
mod shown;
mod told;
mod track;
mod train;

pub use faults::words_of_fault;
pub use field::{Field, Meaning};
pub use message::{fields_of, name_of};
pub use names::{name_of_number, number_of_train};
pub use places::Decimetres;
pub use printed::line_in_words;
pub use row::{Row, row_of};
pub use told::Told;
