//! Progress. Rest is reached from each world by finitely many deliveries and messages (`rest`), and in every fair
//! schedule (`fair`). Each question between centres is answered in time while trains go on (`prompt`). That a frame is
//! ever delivered is a premise, and not claimed.
//!
//! No code. The statements of `laws.rt` have to stay; their proofs may change.
#![tactic(auto)]

pub mod fair;
mod laws;
pub mod prompt;
pub mod rest;

pub use laws::each_handover_can_end;
