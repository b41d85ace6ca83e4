//! Replays a print on the line's centres, and shows the line after each of its events on a page. It reads the events,
//! cuts out a part of them, and finds the events in which a section looks the same. It puts a print into words, with
//! the contents of its frames. The page of a running line uses its layout, its handovers, and its trains and events in
//! words. An audit compares a print with that of its events, line by line.
//!
//! Bodies are free. docs/FORMATS.md fixes the contents.
#![tactic(auto)]

pub mod auditing;
mod changes;
pub mod comparing;
mod contents;
mod cut;
mod events;
mod handovers;
mod layout;
mod page;
mod played;
mod retelling;
mod shown;
mod stretch;
mod turns;
mod words;

pub use changes::SectionChanges;
pub use cut::Cut;
pub use events::{events_in, train_in};
pub use handovers::Handovers;
pub use layout::layout_of;
pub use page::page_of;
pub use retelling::Retelling;
pub use shown::{mission_now, session_now};
pub use stretch::Stretch;
pub use turns::{Turn, Turns};
pub use words::rows_in_words;
