//! A monitor of the promise to the world outside the centres of a line. It has no centre: it takes events, each with
//! the messages and replies after it, and decides whether the promise holds. So it can watch any radio block centres.
//!
//! The promise is the definition of `law_outside`. It speaks of a whole list of events. A [`Watch`] keeps the view of
//! the list so far. That is how far each train may run, the starts of missions without an answer, and the released
//! sections. The next view depends only on that and on the next event. So no event is kept, and the memory grows only
//! with the trains that messages name, and with the released sections.
//!
//! ```
//! let mut watch = Watch::new(alloc, &line)?;
//! for exchange in &exchanges {
//!     watch = watch.next(exchange)?;
//! }
//! ```
//!
//! [`watch_all`] is this loop. It counts the events before the first one that breaks the promise.
//!
//! Bodies and proofs may change. The clauses of public functions have to stay: the crates above depend on them.
#![tactic(auto)]

mod danger;
mod event;
mod fault;
mod laws;
mod spoken;
mod stretch;
mod told;
mod view;
mod watch;

pub use danger::Danger;
pub use event::{Event, Exchange};
pub use fault::{Breach, WatchFault};
pub use laws::a_danger_breaks_the_promise;
pub use spoken::{Saying, Spoken, Word};
pub use watch::{Watch, watch_all};
