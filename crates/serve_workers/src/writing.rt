//! The output to a train over one connection: the replies of a channel, and the writer that writes them in order. The
//! lane of a train keeps a centre's replies to it in sequence, and knows the connection that serves it.
//!
//! Bodies are free. docs/FORMATS.md fixes the bytes of each connection.

mod lane;
mod laws;
mod release;
mod reply;
mod shared_writer;
mod writer;

pub use lane::{Lane, NoRoom, Said};
pub use laws::{a_lane_lets_out_a_beginning, a_lane_never_turns_back, no_reply_waits_for_good};
pub use release::{AtOnce, Release};
pub use reply::Reply;
pub use shared_writer::{QueueWriter, SharedWriter, Turn};
pub use writer::{WriteFailed, run_held_writer, run_writer};
