//! The closed loop of `law_trains` as a value. It has the centres of a line, the trains that obey on it with their
//! true ends, and all messages between them.
//!
//! A [`Railway`] begins with a [`Fleet`] of trains. Each call is one moment of the loop. A train sends a message
//! ([`Railway::send`]), which arrives at its centre ([`Railway::arrive`]). Another event happens to the centres
//! ([`Railway::happen`]). A train receives a message ([`Railway::hear`]), or runs ([`Railway::run_to`]). Each message
//! is kept, and may arrive late, more than once, out of order or never. A call that the rules forbid is a
//! [`RailwayFault`]. The clause `safe` of each call is the theorem (`IsSafeRailway`). No two accepted trains are on one
//! section, and none is on a section that is not released.
//!
//! ```
//! let mut fleet = Fleet::new(alloc);
//! fleet.add(7, ends)?;
//! let mut railway = Railway::new(alloc, &line, fleet)?;
//! railway.happen(&WorldEvent::Set { centre: 0, section: 1 })?;
//! railway.send(0, 0, &start_of_mission)?;
//! railway.arrive(0)?;
//! railway.hear(1, 0)?;
//! ```
//!
//! Bodies and proofs may change. The clauses of public functions have to stay.
#![tactic(auto)]

mod answer;
mod events;
mod fault;
mod find;
mod fleet;
mod hearing;
mod laws;
mod railway;
mod running;
mod sending;
mod train;

pub use answer::CentreAnswer;
pub use fault::RailwayFault;
pub use fleet::Fleet;
pub use laws::each_railway_is_safe;
pub use railway::Railway;
pub use train::RunningTrain;
