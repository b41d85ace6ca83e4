//! A centre to which several threads commit. Its log is under a lock, and each thread has the receipts of its own
//! commits. The receipts, compared with the logs, make these a family.
//!
//! ```
//! let node = Node::new(alloc, &line, 0)?;
//! let mut share = node.share();
//! let outcome = node.commit(rt, &Open, &mut share, Event::Set(1))?;
//! let entries = node.look(rt).log().entries().len();
//! ```
//!
//! An error of `commit` leaves the share as it was ([`ShareFault`]).
//!
//! Bodies and proofs may change. The clauses of public functions have to stay: the crates above depend on them.
#![tactic(auto)]

mod counts;
mod family;
mod fault;
mod gate;
mod gather_fault;
mod gathering;
mod look;
mod node;
mod receipt;
mod share;

pub use family::Family;
pub use fault::ShareFault;
pub use gate::{Gate, Open};
pub use gather_fault::GatherFault;
pub use gathering::{gather, unite};
pub use look::Look;
pub use node::Node;
pub use receipt::Receipt;
pub use share::Share;
