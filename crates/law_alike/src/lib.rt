//! Programs that keep the contract of `World::step` give the same answers. While memory suffices, the same events from
//! the same world have the same answers, byte for byte, and leave the same world. If a program refuses an event for
//! lack of memory and is given it again, only the answered events count.
//!
//! The statements of `laws.rt` have to stay; their proofs may change. `promised.rt` has one call: it proves that the
//! contract of `World::step` is the one of the laws.
#![tactic(auto)]

mod laws;
mod promised;

pub use laws::{
    a_list_of_events_has_one_end, a_step_has_one_result, an_outcome_has_one_spelling,
    answered_events_are_a_run, refused_events_may_be_left_out,
};
pub use promised::step_as_promised;
