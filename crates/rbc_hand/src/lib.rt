//! The consecutive sections that a train has in its movement authority. For each the centre holds a token. It is a
//! claim on a section of its own home, or the name of a section lent by another home. Tokens can't be copied or
//! dropped, and a hand hands each out once.
//!
//! Bodies and proofs may change. The clauses of public functions have to stay: the crates above depend on them.
#![tactic(auto)]

mod hand;
mod lent;
mod token;

pub use hand::Hand;
pub use lent::Lent;
pub use token::Token;
