//! Sections that a centre takes into use for a train, as tokens in the train's hand, and gives back to its book. The
//! sections that the interlocking wished back are reported to it then. A mission has such a hand, and so has a waiting
//! start.
//!
//! Bodies and proofs may change. The clauses of public functions have to stay: the crates above depend on them.
#![tactic(auto)]

mod sections;
mod told;

pub use sections::{clear, cut, end_hand, run_after, take_run, wished_around};
pub use told::Told;
