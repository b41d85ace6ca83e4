//! A one-centre line: one centre is the home of all sections and every train's registrar. The one line centre meets its
//! events without a choice. It accepts whenever it may, and is silent if and only if a reason holds. Its only quiet
//! step is a request to shorten after an unset that asks for it.
//!
//! No code. The statements of `laws.rt` have to stay; their proofs may change.

mod laws;

pub use laws::{each_event_leaves_no_choice, each_run_leaves_no_choice, the_one_centre_theorem};
