//! The commands of the interlocking and the end of running centres. A line at the control endpoint is a command, has no
//! valid form, or is of another protocol. The answer to a commit is printed, and at the end all events are. If they are
//! not printed, the centres end with an exit status.
//!
//! [`meaning_of`] gives the [`Meaning`] of a line, with its [`Command`] if it has one. The answer to a commit is
//! printed by [`print_commit`], and the events of all centres by [`print_family`]. A [`ServeFault`] is the reason for
//! an end without a print.
//!
//! ```
//! match meaning_of(alloc, &line, b"set A 1") {
//!     Meaning::Command(Command::Set { centre, section }) => commit(centre, Event::Set(section)),
//!     ..
//! }
//! ```
//!
//! Bodies are free. docs/FORMATS.md fixes the bytes of each connection.
#![tactic(auto)]

mod answering;
mod command;
mod fault;
mod meaning;
mod printing;
mod protocol;

pub use answering::print_commit;
pub use command::{Command, CommandFault, command_of};
pub use fault::ServeFault;
pub use meaning::{Meaning, meaning_of};
pub use printing::{print_family, world_event};
