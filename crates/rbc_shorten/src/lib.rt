//! Co-operative shortening of MA (SUBSET-026 3.8.6), by agreement with the train. It decides when a request to shorten
//! may be sent, its content, and the sections that an answer frees. Sections are freed only by the answer to the
//! pending request, or at the end of a mission at standstill (5.5).
//!
//! Bodies and proofs may change. The clauses of public functions have to stay: the crates above depend on them.
#![tactic(auto)]

mod answer;
mod facts;
mod laws;
mod request;
mod standstill;

pub use answer::{Cut, Unasked, granted, rejected};
pub use facts::{Proposal, Shortening, ShorteningFacts};
pub use laws::{what_is_cut_follows_what_is_kept, what_lies_ahead_is_cut};
pub use request::propose;
pub use standstill::cut_at_standstill;
