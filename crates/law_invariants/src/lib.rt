//! The invariants of each step: of the flow between the centres (`flow`), of a sound centre (`sound`), and of handovers
//! (`handover`). Rights and tokens are neither copied (`no_copy`) nor lost (`no_loss`). Others are of questions and
//! their answers (`no_unasked`, `no_stray`), of each thing in one place (`one_place`), and of each field in its range
//! (`ranges`).
#![tactic(auto)]

pub mod flow;
pub mod handover;
pub mod no_copy;
pub mod no_loss;
pub mod no_stray;
pub mod no_unasked;
pub mod one_place;
pub mod ranges;
pub mod sound;
