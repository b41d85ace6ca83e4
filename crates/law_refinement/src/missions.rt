//! Laws of the messages that change a mission. For each, a first part of the centre's answer is the own step of the one
//! line centre.
//!
//! No code. The statements of `laws.rt` have to stay; their proofs may change.

mod laws;

pub use laws::{
    a_granted_shortening_is_an_own_step, a_report_is_an_own_step, a_request_is_an_own_step,
    an_end_of_mission_is_an_own_step, an_own_step_and_what_follows,
};
