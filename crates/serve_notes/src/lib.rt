//! Notes of running centres. A note has a kind, and the form of text or of JSON. Of a kind that may occur many times,
//! ten notes a second are written, and the others are counted. A separate thread writes them, so that nobody waits for
//! their reader.
//!
//! ```text
//! let backlog = Backlog::new(alloc, NoteForm::TEXT);
//! let notes = QueuedNotes { rt, queue, backlog: &backlog };
//! notes.note(About::centre(Kind::MissionBegin, "A").train(1), "A: train 1 begins its mission");
//! ```
//!
//! Bodies are free. docs/FORMATS.md fixes the lines as JSON.
#![tactic(auto)]

mod about;
mod counts;
mod form;
mod kinds;
mod notes;

pub use about::{About, PeerConnection};
pub use form::NoteForm;
pub use kinds::Kind;
pub use notes::{Backlog, NoNotes, NoteCounts, Notes, QueuedNotes, StderrNotes, write_notes};
