//! A start of mission at a centre without the right to supervise the train. It waits, with its sections in use, until
//! the registrar of the train gives the right or refuses it. The registrar is asked once, until it has answered. Room
//! for the sections is made at the beginning, and no call takes memory after that.
//!
//! Bodies and proofs may change. The clauses of public functions have to stay: the crates above depend on them.
#![tactic(auto)]

mod waiting_start;

pub use waiting_start::WaitingStart;
