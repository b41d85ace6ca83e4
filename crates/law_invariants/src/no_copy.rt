//! Laws of rights and of the tokens of sections: no step of a centre makes one.
//!
//! No code. The statements of `laws.rt` have to stay; their proofs may change.

mod laws;

pub use laws::{each_step_is_fair, no_step_makes_a_right, no_step_makes_a_token};
