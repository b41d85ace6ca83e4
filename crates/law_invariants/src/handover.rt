//! Laws of handovers between the centres of a line: each step of a centre keeps any two centres in agreement on each
//! handover.
//!
//! No code. The statements of `laws.rt` have to stay; their proofs may change.

mod laws;

pub use laws::{
    an_orderly_act_keeps_all_paired, each_step_is_orderly, each_step_keeps_all_paired,
    each_step_keeps_all_sound, each_world_flow_is_sound,
};
