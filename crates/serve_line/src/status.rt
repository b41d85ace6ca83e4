//! The status of a running line, and the facts that its notes report. `show` lists the sections and trains, as the
//! centres show them one after another, and the usage of each log, clock and link.
//!
//! Bodies are free. docs/FORMATS.md fixes the shown data.

mod facts;
mod gauge;
mod life;
mod mention_order;
mod silences;
mod snapshot;

pub(crate) use facts::{Fact, fact_of_event, fact_of_frame, fact_of_message, fact_of_word};
pub(crate) use life::{LIMITS, end_of};
pub use life::{Life, write_life};
pub use mention_order::MentionOrder;
pub(crate) use silences::Silences;
pub(crate) use snapshot::Snapshot;
pub use snapshot::show;
