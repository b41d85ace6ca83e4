//! Laws of the first parts of logs. The logs of a line may each be cut at any position. If each delivered frame is in
//! the first part of its sender's log, the first parts are one run of the world.
//!
//! No code. The statements of `laws.rt` have to stay; their proofs may change.

mod laws;

pub use laws::{beginnings_are_logs, one_log_of_the_events, what_is_written_first_is_there};
