//! The example of `rbc_msgs`: a message of a train is read, and an answer is written.

use crate::codec::bytes::bytes_of;
use rbc_msgs::{NID_LRBG_UNKNOWN, TrackBody, TrackMsg, TrainBody, decode_train, encode_track};
use std::alloc::Global;
use std::test::*;

// The bytes of the answer to a message about a session, under T_TRAIN 1.
fn answer_to(alloc: Global, bytes: &[u8]) -> Result<Option<Vec<u8>>, Fail> {
    let message = decode_train(alloc, bytes)?;
    let answer = match message.body() {
        TrainBody::InitiationOfSession => TrackBody::SystemVersion,
        TrainBody::TerminationOfSession => TrackBody::TerminationAcknowledged,
        _ => return Ok(None),
    };
    let reply = TrackMsg::new(1, NID_LRBG_UNKNOWN, answer);
    let bytes = encode_track(alloc, &reply)?;
    Ok(Some(bytes))
}

/// Whether these are the bytes of the answer to the message of these digits.
pub fn is_answer(alloc: Global, digits: &str, wanted: Option<&[u8]>) -> Result<bool, Fail> {
    let bytes = bytes_of(alloc, digits)?;
    let answer = answer_to(alloc, &bytes)?;
    Ok(answer.as_deref() == wanted)
}
