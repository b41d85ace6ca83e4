//! The page's view of the running centres. They are read one after another, each at its own moment, as `show` does. The
//! lock of a centre is held while its pages are copied, and a bounded part of its new log entries. Nothing is
//! committed.
//!
//! Bodies are free. docs/FORMATS.md fixes the shown data.

mod marks;
mod news;
mod page_snapshot;
mod seen;
mod sent;

pub use page_snapshot::PageSnapshot;
