//! Scripts in words, and scenarios that are judged. A line is an event, or an expectation of the answer to the event
//! before it.
//!
//! The event of a train's message is made by [`Sent::event`]. The values of earlier lines are in [`Defaults`]. An
//! [`Expectation`] is judged by [`meets`]. The script of a text is printed by [`print_script`]. A scenario is played
//! and judged by [`test_scenario`]:
//!
//! ```
//! train 1 at A: open session
//! expect A -> 1: system version
//! ```
//!
//! Bodies are free. docs/FORMATS.md fixes the words. The clauses of public functions have to stay.
#![tactic(auto)]

mod expectation;
mod expecting;
mod fault;
mod field;
mod fits;
mod judge;
mod kind;
mod known;
mod nearest;
mod report;
mod row_fault;
mod scenario;
mod script;
mod sending;
mod sent;
mod statement;
mod trial;
mod words;

pub use expectation::{BodyKind, Expectation, Message};
pub use fault::SentFault;
pub use judge::{Last, meets};
pub use kind::Kind;
pub use known::{Defaults, Known};
pub use report::Report;
pub use row_fault::RowFault;
pub use scenario::test_scenario;
pub use script::{ScriptFault, print_script};
pub use sent::Sent;
pub use statement::{Said, said_in};
pub use trial::{Move, Step, Verdict, play};
