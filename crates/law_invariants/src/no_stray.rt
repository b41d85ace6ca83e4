//! Laws of arriving frames in a world. No frame that is the next of its link is stray. For each pending question, the
//! question is on its way, or its answer is.
//!
//! No code. The statements of `laws.rt` have to stay; their proofs may change.

mod laws;

pub use laws::{
    each_question_is_answered, each_yield_is_taken, no_frame_is_stray, no_right_comes_unasked,
    no_route_comes_unasked, only_what_is_out_comes_home,
};
