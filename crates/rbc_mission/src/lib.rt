//! One train's mission at a radio block centre. It has the sections of the movement authority, the lent sections in
//! advance of them, and the right to supervise the train. It also has the facts and the announced handover to the next
//! centre. A mission begins with sections and with the right, and has both or neither. When its last section leaves, it
//! is closed, and the right is handed out. The sections that leave are a run: those of the centre's home are given back
//! here, and the others have to be returned. A yielded mission goes on at the accepting centre, with its sections and
//! its right (SUBSET-026 3.15.1).
//!
//! Bodies and proofs may change. The clauses of public functions have to stay: the crates above depend on them.
#![tactic(auto)]

mod border;
mod cancelling;
mod facts;
mod handing_over;
mod held;
mod mission;
mod passing;
mod released;
mod supervision;

pub use facts::MissionFacts;
pub use handing_over::{Announcement, Yielded};
pub use held::HeldRight;
pub use rbc_allocation::Told;
pub use rbc_border::Question;
pub use rbc_handover::{HandoverCount, HandoverName};
pub use released::Released;
pub use supervision::Supervision;
