//! The definitions of a line, a message, a centre and the one line centre. A reader has to believe these definitions.
//! They are in `specs/`, in reading order, and name no type of the crates above. The functions of this crate do
//! nothing: their contracts are laws of the definitions. The lemmas of lists, runs and acts in `proofs/` are
//! for all crates above.
//!
//! Believed, not proved: a change here changes the claims. docs/RULES.md and a scene of `test_scenes` come first.
#![tactic(auto)]

mod laws;

pub use laws::{
    a_home_is_a_run, a_place_covers_a_run, a_stamp_is_heard_once, one_number_is_next,
    one_state_stands, sections_follow_one_another, what_is_cleared_is_not_covered,
    what_stands_is_safe,
};
