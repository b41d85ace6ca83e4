//! The journal of a centre on a disk: appended entries stay, also over a crash.
//!
//! A [`DurableFile`] is a file that grows at its end. A [`JournalFile`] appends the lines of entries to it, and waits
//! until they are durable. Only that makes a [`Kept`]: with it, the answers to these events may leave their centre. A
//! [`Sealed`] answer comes out only with a `Kept` of its own centre. A [`SystemFile`] is a file of the system;
//! `open_journal` and `make_journal` open it and lock it.
//!
//! Contracts see the bytes of a `DurableFile` that reports them, such as one in memory. The bytes of a file of the
//! system are in no contract: that it meets `DurableFile` is trusted.
//!
//! ```text
//! let file = make_journal(&rt, "day/A.journal")?;
//! let mut journal = JournalFile::open(SystemFile::new(file, true), 0)?;
//! journal.add(b"journal 2 A ..\n")?;
//! if let Some(kept) = journal.keep(alloc, &line, &entries)? {
//!     // each event of centre kept.centre() up to kept.stamp() is on the disk
//! }
//! ```
#![tactic(auto)]

mod durable_file;
mod journal_file;
mod kept;
mod opening;
mod sealed;
mod system_file;

pub use durable_file::DurableFile;
pub use journal_file::JournalFile;
pub use kept::Kept;
pub use opening::{OpenFault, make_journal, open_journal, read_whole};
pub use sealed::{Opened, Sealed};
pub use system_file::SystemFile;
