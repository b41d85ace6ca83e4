//! The variables of radio messages (SUBSET-026 7.5): of each a type whose values are those that its bits can have and
//! that are read. `of` tests a number, `new` takes one that is known to fit.
//!
//! Bodies and proofs may change. The clauses of public functions have to stay: the crates above depend on them.
#![tactic(auto)]

mod authority;
mod direction;
mod distance;
mod identity;
mod length;
mod level;
mod scale;
mod state;
mod status;

pub use authority::{DRbctr, LEndsection};
pub use direction::Direction;
pub use distance::{DLrbg, LDoubtover, LDoubtunder, LTrainint};
pub use identity::{NidC, NidEngine, NidLrbg, NidNtc, NidRbc};
pub use length::QLength;
pub use level::MLevel;
pub use scale::QScale;
pub use state::{MMode, QMarqstreason, TTrain, VTrain};
pub use status::QStatus;
