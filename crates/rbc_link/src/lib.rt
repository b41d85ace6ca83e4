//! The links of a radio block centre with other centres. Each has the frames that were sent on it, numbered from 1, and
//! the count of arriving frames that were taken. These are taken in order, each once.
//!
//! Bodies and proofs may change. The clauses of public functions have to stay: the crates above depend on them.
#![tactic(auto)]

mod inbox;
mod link;
mod link_answer;
mod links;
mod outbox;
mod sent;

pub use inbox::Inbox;
pub use link::Link;
pub use link_answer::LinkAnswer;
pub use links::Links;
pub use outbox::{MOST_FRAMES, Outbox};
pub use sent::Sent;
