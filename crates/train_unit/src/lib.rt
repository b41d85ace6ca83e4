//! The on-board unit of a train that obeys. It decides which messages the train may send, and how far it may run. It
//! keeps the parts of messages that the rules need. Its contracts are the rules of `law_trains` themselves.
//!
//! An [`OnBoardUnit`] keeps the end of its authority and the centre that it follows. It keeps the last T_TRAIN that it
//! sent, and the last request to shorten of each centre. It has no session, and needs no order of the messages. The
//! odometry of the train gives its safe ends ([`Ends`]). A message that the rules forbid is [`Refused`], and changes
//! nothing. `next_message` is a policy, which proposes a [`NextMessage`] to a centre; any other policy is as safe. The
//! module `driving` has the driver of a train: its sessions, and the order of its messages.
//!
//! ```
//! let mut unit = OnBoardUnit::new(7);
//! unit.say(&line, 0, &start_of_mission, ends)?;
//! unit.hears(&line, 0, &answer);
//! let limit = unit.may_reach(ends.front);
//! ```
//!
//! Bodies and proofs may change. The clauses of public functions have to stay: the crates above depend on them.
#![tactic(auto)]

pub mod driving;
mod ends;
mod giving_back;
mod hearing;
mod policy;
mod position;
mod refused;
mod running;
mod saying;
mod unit;

pub use ends::Ends;
pub use policy::{Contact, NextMessage, Session};
pub use refused::Refused;
pub use unit::OnBoardUnit;
