//! The communication sessions of a radio block centre with its trains (SUBSET-026 3.5): at most one a train. A session
//! is a key that can't be copied or dropped. Its type has its phase, so no call uses it in another phase. The record of
//! a session is in one place, under its key.
//!
//! Bodies and proofs may change. The clauses of public functions have to stay: the crates above depend on them.
#![tactic(auto)]

mod session;
mod sessions;

pub use session::{Opened, Phase, Session, SessionState, Up};
pub use sessions::Sessions;
