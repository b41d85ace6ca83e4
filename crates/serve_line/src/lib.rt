//! A running line of centres: its threads (here) and their shared state (`state`). Its parts are the clients of its
//! endpoints (`clients`), its status and the facts of notes (`status`), the page's view (`looking`), and its journals
//! (`journaling`).
//!
//! Bodies are free. docs/FORMATS.md fixes the bytes of each connection.
#![tactic(auto)]

mod browsers;
pub mod clients;
mod counting;
mod directions;
mod fact_notes;
mod failures;
pub mod journaling;
mod journals;
mod links;
pub mod looking;
mod moments;
mod pages;
mod printing;
mod requests;
mod running;
mod stamps;
pub mod state;
pub mod status;
mod tally;
mod true_places;

pub use crate::state::{Endpoints, ServeOptions, SocketFault, free_path};
pub use journals::Record;
pub use running::serve;
pub use serve_control::ServeFault;
pub use serve_notes::{About, Kind, NoNotes, NoteForm, Notes, StderrNotes};
pub use text_page::TruePlace;
pub use true_places::TruePlaces;
