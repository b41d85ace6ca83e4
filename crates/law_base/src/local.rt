//! A local centre shares its missions with no other centre. Its initial state is local. On a one-centre line each step
//! except the taking of a frame leaves it local and sends no frame.
//!
//! No code. The statements of `laws.rt` have to stay; their proofs may change.

mod laws;

pub use laws::{
    a_centre_begins_local, a_centre_stays_local, a_line_stays_local, every_line_is_ordered,
};
