//! The driver of a train that obeys: its sessions with centres, its next message to each, and its first place. Commands
//! that run trains share it. The on-board unit decides which messages the rules allow.
//!
//! [`placed_on`] places trains on a line, each with a goal. A [`Driver`] chooses the [`Speech`] of its train to each
//! centre, and learns from the messages of centres. [`message`] and [`position`] make the message.
//!
//! ```
//! let speech = driver.speech(&unit, centre, section.home, stamp, ends)?;
//! let message = message(alloc, stamp, nid_engine, speech, position(nid_c, section, ends.front, false))?;
//! unit.say(&line, centre, &message, ends)?;
//! driver.has_sent(centre, speech, stamp);
//! ```
//!
//! Bodies are free. docs/FORMATS.md states the policy of the trains.

mod driver;
mod listening;
mod placing;
mod speech;
mod standing;

pub use driver::{Driver, MARGIN};
pub use placing::{Place, placed_on};
pub use speech::{LENGTH, Speech, message, position};
pub use standing::{covers, section_of};
