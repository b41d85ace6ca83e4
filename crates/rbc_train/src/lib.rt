//! The rules for one train at a radio block centre (SUBSET-026 3.5, 3.6, 3.8, 3.15.1, 5.4, 5.5).
//!
//! A [`TrainState`] is all that a centre keeps of a train. `TrainState::take` applies a message of the train, and
//! `TrainState::receive` a frame of another centre. The effect is a [`Heard`]: the reply to the train, an order after
//! it, frames to other centres, and sections to report to the interlocking. `TrainState::ask_back` asks the train for a
//! section that the interlocking takes back (3.8.6). The clause of each is one equation with the effect in `rbc_spec`.
//!
//! Nothing here takes memory.
//!
//! Bodies and proofs may change. The clauses of public functions have to stay: the crates above depend on them.
#![tactic(auto)]

mod asking;
mod authority;
mod bordering;
mod expecting;
mod front;
mod guards;
mod handing_over;
mod heard;
mod hearing;
mod laws;
mod letter;
mod mail;
mod reason;
mod receiving;
mod reporting;
mod rights;
mod routes;
mod saying;
mod session_state;
mod sessions;
mod shortening;
mod start_of_mission;
mod starting;
mod taking_up;
mod train;

pub use heard::Heard;
pub use hearing::tells_others;
pub use laws::{a_section_is_released, a_section_is_taken_back};
pub use letter::Letter;
pub use mail::{Mail, Notice};
pub use rbc_border::part_of;
pub use rbc_mission::{MissionFacts, Released, Told};
pub use rbc_place::Place;
pub use reason::Reason;
pub use saying::Saying;
pub use train::{TrainPage, TrainState};
