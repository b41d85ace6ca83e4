//! The connections of trains at a centre: reading (`reading`), writing (`writing`), and the connection that serves each
//! engine (`connections`). Workers commit messages and carry frames.
//!
//! ```
//! let mut share = node.share();
//! let mut source = Reads::new(reader);
//! let end = run_session(rt, alloc, &node, &Open, &mut share, &mut source, &NoSink);
//! ```
//!
//! A session reads messages and commits each whole one. The receipts are in the share.
//!
//! Bodies are free. docs/FORMATS.md fixes the bytes of each connection.
#![tactic(auto)]

mod committer;
pub mod connections;
mod end;
mod laws;
mod links;
mod order;
mod passing;
pub mod reading;
mod session;
mod signals;
mod sink;
pub mod writing;

pub use committer::Committer;
pub use end::SessionEnd;
pub use laws::frames_are_committed_in_their_order;
pub use links::{Sent, receive_frames, send_frames, send_kept_frames};
pub use order::{InOrder, Order};
pub use passing::pass_over;
pub use session::run_session;
pub use signals::{LinkEnds, Signals};
pub use sink::{AnswerSink, NoSink};
