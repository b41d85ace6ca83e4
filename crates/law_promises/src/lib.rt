//! The promise of the centres to the world outside. `arrival` is of the part that arrives at the trains. `apart`: no
//! train takes from another.
//!
//! No code. The statements of `laws.rt` have to stay; their proofs may change.
#![tactic(auto)]

pub mod apart;
pub mod arrival;
mod laws;

pub use laws::{
    a_section_leaves_a_hand_only_by_its_train, a_section_that_left_was_freed,
    a_section_told_back_is_nobodys, what_is_told_is_safe, what_the_world_sees_is_safe,
};
