//! The supervision rights of trains. Each train of the line has one. The centre at which it is registered records
//! whether it is there or was handed out. A right can't be copied or dropped.
//!
//! Bodies and proofs may change. The clauses of public functions have to stay: the crates above depend on them.
#![tactic(auto)]

mod registrar;
mod right;

pub use registrar::{Asked, Registrar};
pub use right::Right;
