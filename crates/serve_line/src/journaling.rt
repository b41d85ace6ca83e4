//! The journals of running centres. Each centre's events are written in the order of its log, and its answers wait
//! until their events are written (`serve_journal` is the file). Centres resume from their journals.
//!
//! Bodies are free. docs/FORMATS.md fixes the format of a journal.

mod batch;
mod held;
mod journal;
mod keeping;
mod resuming;
mod write_times;
mod writer_steps;

pub(crate) use batch::next_of;
pub use held::Journaled;
pub use journal::Journal;
pub use keeping::{JournalWriter, keep_journal};
pub use resuming::{ResumeFault, resume};
pub use write_times::{TimedWrite, WriteTimes, times_of};
