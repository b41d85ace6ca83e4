//! The answer to a request for a movement authority (SUBSET-026 3.8). It is the number of sections that extend a
//! train's hand, and the end of its authority. Nothing here takes memory.
//!
//! Bodies and proofs may change. The clauses of public functions have to stay: the crates above depend on them.
#![tactic(auto)]

mod follow;
mod grant;

pub use grant::{Grant, answer_request, hand_end, may_request};
