//! A frame over a queue.

use crate::rows::refusals::playing::Stopped;
use rbc_board::{Carrier, QueueCarrier};
use rbc_linkmsg::Frame;
use std::alloc::Global;
use std::sync::Wait;

/// The first frame of a link, as it arrives over a new queue.
pub fn over_a_queue<R: Wait>(rt: &R, alloc: Global, frame: Frame) -> Result<Frame, Stopped> {
    if let Ok((queue, writer, reader)) = QueueCarrier::new(rt, alloc) {
        return carried(&queue, writer, reader, frame);
    }
    match QueueCarrier::new(rt, alloc) {
        Ok((queue, writer, reader)) => carried(&queue, writer, reader, frame),
        Err(_) => Err(Stopped::Otherwise),
    }
}

// Puts the frame and gets it, each once more if it was refused.
fn carried<C: Carrier>(
    carrier: &C,
    mut writer: C::Seen,
    mut reader: C::Seen,
    frame: Frame,
) -> Result<Frame, Stopped>
    requires { C.is_of carrier.now writer × C.is_of carrier.now reader }
{
    if let Err(back) = carrier.put(&mut writer, 1, frame)
        && carrier.put(&mut writer, 1, back).is_err()
    {
        return Err(Stopped::Otherwise);
    }
    if let Some(frame) = carrier.get(&mut reader, 1) {
        return Ok(frame);
    }
    match carrier.get(&mut reader, 1) {
        Some(frame) => Ok(frame),
        None => Err(Stopped::Otherwise),
    }
}
