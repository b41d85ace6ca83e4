//! The running line for a person at a browser: the meaning of a request, and the bytes of the answer. They depend only
//! on the request and on the state that the centres showed. Nothing here has a centre, a socket or a clock, so nothing
//! here changes the line.
//!
//! ```
//! let asked = asked_of(bytes);
//! let text = answer(alloc, layout, &now, 1, asked)?;
//! ```
//!
//! The text is empty while the request is not whole.
//!
//! Bodies are free. docs/FORMATS.md fixes the answers.
#![tactic(auto)]

mod reply;
mod request;

pub use reply::{answer, answer_metrics, refusal};
pub use request::{Asked, MOST_REQUEST, Refusal, asked_of};
pub use text_page::{CentreNow, LineNow};
