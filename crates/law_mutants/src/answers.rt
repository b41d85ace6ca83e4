//! Wrong answers between centres, each beside the right rule. A right is given and kept; a question gets no answer; one
//! is asked twice; returned sections stay in use.
//!
//! No code. The statements of `laws.rt` have to stay; their proofs may change.

mod laws;

pub use laws::{
    no_question_is_met_by_silence, no_return_is_swallowed, no_right_is_asked_for_twice,
    no_right_is_given_and_kept,
};
