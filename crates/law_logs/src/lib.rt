//! Laws of logs, whole and cut: every merge by their stamps is one run of the world.
//!
//! No code. The statements of `laws.rt` have to stay; their proofs may change.
#![tactic(auto)]

pub mod beginnings;
mod laws;

pub use laws::{
    a_sorted_list_is_a_merge, each_message_is_numbered, each_step_is_stamped, the_family_theorem,
};
