//! The base of the laws. It has each rule as a walk of small moves (`walk`). It has laws of the rules (`rules`), of
//! counting (`counting`), and of one centre (`local`). It has lemmas of the pieces of a run of the one line centre
//! (`pieces`).
//!
//! No code. The statements of `laws.rt` have to stay; their proofs may change.
#![tactic(auto)]

pub mod counting;
pub mod local;
pub mod pieces;
pub mod rules;
pub mod walk;
