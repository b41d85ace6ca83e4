//! The journal of a centre: a file with one line for each event of the centre's log. A line has the stamp of its
//! event, the time at which it was written, and a checksum. Lines are written one at a time. If a file is cut at any
//! byte, its whole lines can still be read.
//!
//! ```
//! let mut text = Vec::new(alloc);
//! text.extend_from_slice(first_line(alloc, &line, B)?.as_bytes())?;
//! text.push(b'\n')?;
//! for (stamp, time_ms, event) in [(1, NEW_YEAR, set), (7, BEFORE, frame), (8, None, train)] {
//!     let entry = Entry {
//!         stamp,
//!         time_ms,
//!         event,
//!     };
//!     add_entry(alloc, &line, &entry, &mut text)?;
//! }
//! ```
//!
//! Here `B` is the number of the centre. `NEW_YEAR` and `BEFORE` are times.
//!
//! Bodies are free. docs/FORMATS.md fixes the format.
#![tactic(auto)]

mod digest;
mod entry;
mod fault;
mod first;
mod laws;
mod length;
mod name;
mod order;
mod reading;
mod rising;
mod row;
mod values;
mod writing;

pub use entry::Entry;
pub use fault::JournalFault;
pub use laws::{a_cut_leaves_a_beginning, a_text_begins_one_journal, whole_lines_are_a_journal};
pub use length::whole_length;
pub use name::file_name;
pub use order::{in_order, in_time_order};
pub use reading::read_journal;
pub use rising::first_fallen;
pub use writing::{add_entry, first_line};
