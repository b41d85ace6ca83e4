//! Tempting wrong rules, answers and quiet steps, each beside the right one.
//!
//! No code. The statements of `laws.rt` have to stay; their proofs may change.
#![tactic(auto)]

pub mod answers;
mod laws;
pub mod quiet;

pub use laws::{
    no_older_cancel_ends_a_newer_handover, no_older_stamp_is_kept, no_pool_is_returned_and_kept,
    no_section_is_lent_twice, no_section_opens_before_its_return,
    no_section_shuts_as_it_is_asked_back, no_start_begins_before_its_right,
    no_yield_keeps_its_mission,
};
