//! Laws of the requests between the centres of a line. Rights and sections arrive only if they were asked for, and only
//! lent sections are returned.
//!
//! No code. The statements of `laws.rt` have to stay; their proofs may change.

mod laws;

pub use laws::{a_line_begins_asked, each_step_keeps_all_asked};
