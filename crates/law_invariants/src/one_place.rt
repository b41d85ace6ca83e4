//! Laws of things in one place: each section in use, each right and each mission. They also state the place of a
//! section in use.
//!
//! No code. The statements of `laws.rt` have to stay; their proofs may change.

mod laws;

pub use laws::{each_section_is_where_its_home_has_it, each_thing_is_in_one_place};
