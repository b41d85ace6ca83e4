//! Laws of rights and of the tokens of sections. No step of a centre loses one, if no stray frame arrives. No stray
//! frame is the next of its link in a world, so no event of a line ever loses one.
//!
//! No code. The statements of `laws.rt` have to stay; their proofs may change.

mod laws;

pub use laws::{
    a_sound_flow_has_each_right_once, an_exact_act_loses_nothing, each_step_is_exact,
    no_step_loses_a_right, no_step_loses_a_token, nothing_is_ever_lost, what_a_sound_flow_brings,
};
