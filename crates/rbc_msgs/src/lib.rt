//! Radio messages between trains and a radio block centre, as bytes and as values (SUBSET-026 chapters 7 and 8). A
//! decoder reads one whole message or returns the first fault. An encoder writes the one spelling.
//!
//! ```
//! let message = decode_train(alloc, bytes)?;
//! let answer = match message.body() {
//!     TrainBody::InitiationOfSession => TrackBody::SystemVersion,
//!     TrainBody::TerminationOfSession => TrackBody::TerminationAcknowledged,
//!     _ => return Ok(None),
//! };
//! let reply = TrackMsg::new(1, NID_LRBG_UNKNOWN, answer);
//! let bytes = encode_track(alloc, &reply)?;
//! ```
//!
//! Bytes of a connection arrive in pieces of any size. A [`Stream`] gives the messages that are whole.
//!
//! Bodies and proofs may change. The clauses of public functions have to stay: the crates above depend on them.
#![tactic(auto)]

mod decode;
mod encode;
mod fault;
mod laws;
mod number;
mod reading;
mod stream;
mod stream_laws;
mod stream_reading;
mod track;
mod track_reading;
mod track_writing;
mod train;
mod train_body;
mod train_copy;
mod train_reading;
mod train_same;
mod train_writing;
mod usual;
mod usual_track;

pub use decode::{decode_track, decode_train};
pub use encode::{encode_track, encode_train};
pub use fault::{EncodeFault, MsgFault, StreamFault};
pub use laws::{
    each_message_has_a_spelling, no_spelling_begins_another, one_message, one_spelling,
};
pub use stream::Stream;
pub use stream_laws::{a_fault_is_the_first, a_rest_is_short, no_cut_matters, one_reading};
pub use track::{NID_LRBG_UNKNOWN, TrackBody, TrackMsg};
pub use train::TrainMsg;
pub use train_body::TrainBody;
