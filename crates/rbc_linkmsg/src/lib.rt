//! The frames that centres exchange: a numbered and stamped body as a value and as bytes (profile). Each frame has one
//! spelling, and no two frames share one.
//!
//! ```
//! let frame = Frame::new(1, 4, Body::AskRight { engine: 2 });
//! let bytes = encode_frame(alloc, &frame)?;
//! let read = decode_frame(&bytes);
//! ```
//!
//! Bodies and proofs may change. The clauses of public functions have to stay: the crates above depend on them.
#![tactic(auto)]

mod body;
mod body_reading;
mod body_writing;
mod decode;
mod encode;
mod fault;
mod frame;
mod frame_reading;
mod kind;
mod laws;
mod ranges;
mod reading;
mod yield_reading;

pub use body::{Body, YieldedPlace, Yielding};
pub use decode::decode_frame;
pub use encode::encode_frame;
pub use fault::FrameFault;
pub use frame::Frame;
pub use laws::{one_frame, one_spelling};
