//! The two sides of a handover of one train between radio block centres (SUBSET-026 3.15.1), as values that can't be
//! copied or dropped. The handing-over centre announces it, and yields it when the accepting centre claims it. The
//! accepting centre expects the train from the announcing centre, and replies once that it takes over. A handover is
//! identified by its number, so a frame of an older one has no effect.
//!
//! Bodies and proofs may change. The clauses of public functions have to stay: the crates above depend on them.
#![tactic(auto)]

mod accepting;
mod announcers;
mod count;
mod expectations;
mod handing;
mod handover;

pub use accepting::{Accepting, AcceptingState, Expected, Taking};
pub use announcers::Announcers;
pub use count::HandoverCount;
pub use expectations::Expectations;
pub use handing::{Handing, HandoverName};
pub use handover::Handover;
