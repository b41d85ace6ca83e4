//! Laws of the messages of sessions, of train data, of rejected requests to shorten, and of starts of mission. For
//! each, the one line centre takes its own step, and shows the state after the answer.
//!
//! No code. The statements of `laws.rt` have to stay; their proofs may change.

mod laws;

pub use laws::{
    a_rejection_is_heard, a_session_begins_and_ends, a_session_is_established, a_start_is_answered,
    train_data_are_heard,
};
