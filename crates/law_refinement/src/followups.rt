//! Laws of the acts that follow a centre's own step. Each leads to quiet steps of the one line centre, shows the state
//! after them, and keeps all sound.
//!
//! No code. The statements of `laws.rt` have to stay; their proofs may change.

mod laws;

pub use laws::{
    a_centre_announces_all, a_request_may_announce, a_request_to_shorten_is_quiet,
    a_yield_lays_down, an_act_keeps_all_sound, an_end_of_session_is_quiet,
    an_ended_mission_is_shown, what_follows_at_a_border,
};
