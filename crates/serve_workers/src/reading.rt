//! The input from a train over one connection: bytes in pieces of any size, which are cut into the train's messages. A
//! bucket limits the rate of the messages.
//!
//! Bodies are free. docs/FORMATS.md fixes the bytes of each connection.

mod bucket;
mod reading;
mod reads;
mod source;

pub use bucket::{Bucket, Rate, a_bucket_keeps_to_its_rate};
pub use reading::{IntakeEnd, read_messages};
pub use reads::Reads;
pub use source::{ReadFailed, Source};
