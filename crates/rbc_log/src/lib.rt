//! The log of a centre: each event that it took, with its outcome. The type keeps this invariant: the entries, replayed
//! from the centre's initial state, give the centre's state and the stored outcomes. The logs of a line's centres,
//! merged by their stamps, are one run.
//!
//! ```
//! let mut log = CentreLog::new(alloc, &line, 0)?;
//! let mut other = CentreLog::new(alloc, &line, 1)?;
//! let outcome = log.commit(Event::Set(1))?;
//! other.commit(Event::Set(2))?;
//! let run = merge(alloc, &[&log, &other])?;
//! ```
//!
//! An error of `commit` changes nothing: the log is full, or the centre refuses the step ([`CommitFault`]).
//!
//! Bodies and proofs may change. The clauses of public functions have to stay: the crates above depend on them.
#![tactic(auto)]

mod entry;
mod fault;
mod lines;
mod log;
mod merge_fault;
mod merging;

pub use entry::Entry;
pub use fault::CommitFault;
pub use log::{CentreLog, MOST_ENTRIES};
pub use merge_fault::MergeFault;
pub use merging::merge;
