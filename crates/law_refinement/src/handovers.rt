//! Laws of the frames of a handover at the whole line. Each, as the next frame of its link, leads to quiet steps of the
//! one line centre, or to none.
//!
//! No code. The statements of `laws.rt` have to stay; their proofs may change.

mod laws;

pub use laws::{
    a_cancellation_leads_on, a_taking_over_leads_on, a_yield_leads_on, an_announcement_leads_on,
};
