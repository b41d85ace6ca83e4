//! A train's message has no effect on other trains (`specs/Apart.antt`).
//!
//! No code. The statements of `laws.rt` have to stay; their proofs may change.

mod laws;

pub use laws::no_train_takes_from_another;
