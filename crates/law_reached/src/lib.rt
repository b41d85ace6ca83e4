//! Properties of each world after a list of events, and of a line with one centre.
//!
//! No code. The statements of `laws.rt` have to stay; their proofs may change.
#![tactic(auto)]

mod laws;
pub mod one_centre;

pub use laws::{
    each_event_is_forced, each_further_event, what_a_section_is_marked, what_is_known_of_a_world,
    who_has_a_mission,
};
