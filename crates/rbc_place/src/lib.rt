//! The place of a train by its position report (SUBSET-026 3.6): its safe front end and, if train integrity is
//! confirmed, its safe rear end. It decides which sections the train occupies or has cleared. Nothing here takes
//! memory.
//!
//! Bodies and proofs may change. The clauses of public functions have to stay: the crates above depend on them.
#![tactic(auto)]

mod ahead;
mod clearing;
mod cover;
mod fitness;
mod group;
mod place;
mod report;
mod sections;

pub use clearing::cleared;
pub use cover::{covered, covers};
pub use fitness::is_fit;
pub use group::group_start;
pub use place::Place;
pub use report::{extent, place_on};
pub use sections::{is_on, section_end, section_start, track_end};
