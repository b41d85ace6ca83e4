//! The law of the whole line: each step of a centre is a step of the one line centre, followed by quiet steps.
//! `abstraction` defines how the centres together are read as the one line centre. The other modules are its parts by
//! subject.
//!
//! No code. The statements of `laws.rt` have to stay; their proofs may change.
#![tactic(auto)]

pub mod abstraction;
pub mod followups;
pub mod handovers;
mod laws;
pub mod missions;
pub mod routes;
pub mod sessions;

pub use laws::{
    each_event_of_the_line, each_step_tells_in_order, the_line_centre_is_silent_alike,
    the_whole_line_theorem, what_leads_nowhere, what_meets_a_world,
};
