//! Wrong quiet steps of the one line centre, each beside the right ones. An open section is given at once; a given
//! section is freed.
//!
//! No code. The statements of `laws.rt` have to stay; their proofs may change.

mod laws;

pub use laws::{no_quiet_step_frees_a_given_section, no_section_is_given_without_a_start};
