//! Laws of rights, of sections lent between centres, and of the interlocking. They state the effect of their frames, of
//! a set and of an unset on the one line centre.
//!
//! No code. The statements of `laws.rt` have to stay; their proofs may change.

mod laws;

pub use laws::{
    what_a_frame_of_rights_leads_to, what_a_frame_of_routes_leads_to,
    what_the_interlocking_leads_to,
};
