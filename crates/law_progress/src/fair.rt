//! Liveness of every fair schedule. Suppose that each frame on the way is delivered at some time, and that only
//! deliveries happen from some position on. Then a line reaches rest and stays there. That frames are delivered is the
//! premise, and not claimed.
//!
//! No code. The statements of `laws.rt` have to stay; their proofs may change.

mod laws;

pub use laws::{each_fair_schedule_comes_to_rest, each_list_begins_a_fair_schedule};
