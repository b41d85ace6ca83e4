//! A law of progress without time. From each world a finite list of deliveries leads to rest: nothing is on the way,
//! and each question has its answer. That a frame is ever delivered is not claimed.
//!
//! No code. The statements of `laws.rt` have to stay; their proofs may change.

mod laws;

pub use laws::{a_delivery_is_work_done, each_line_comes_to_rest};
