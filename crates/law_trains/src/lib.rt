//! Trains that obey five rules never meet. The rules, the centres of a line, and a radio between them that may delay,
//! repeat or lose messages are one closed loop.
//!
//! `specs/Trains.antt` has the rules that a train keeps, the moments of the loop, and the claim (`IsSafeLoop`). A train
//! knows only the fields on board (`Train`), and no state of a centre occurs. A train follows the centre that
//! acknowledged (message 8) its train data, if it sent them after it last gave something back. It takes authorities
//! only from this centre, and only those that were sent after the acknowledgement.
//!
//! The proof follows each train that obeys (`proofs/Keeps.antt`): it is within the stretch over which it may run, as it
//! is seen from outside (`law_outside`). Each authority that it may still take ends within that stretch.
//!
//! No code. The statements of `laws.rt` have to stay; their proofs may change.
#![tactic(auto)]

mod laws;
mod scenes;

pub use laws::{
    a_received_stamp_never_falls, trains_that_obey_never_meet,
    trains_that_obey_one_line_centre_never_meet,
};
pub use scenes::{a_train_that_breaks_a_rule_meets_another, a_train_that_obeys_runs};
