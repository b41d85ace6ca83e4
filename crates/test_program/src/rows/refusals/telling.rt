//! The bytes of the messages to the train.

use crate::rows::refusals::playing::Stopped;
use crossbeam_channel::{Sender, bounded};
use rbc_msgs::TrackMsg;
use rbc_node::Share;
use serve_workers::writing::{Reply, run_writer};
use std::alloc::{AllocError, Global};
use std::sync::Wait;

/// The bytes that a writer writes for all messages to the train.
pub fn told<R: Wait>(rt: &R, alloc: Global, share: &Share) -> Result<Vec<u8>, Stopped> {
    if let Ok(bytes) = written(rt, alloc, share) {
        return Ok(bytes);
    }
    match written(rt, alloc, share) {
        Ok(bytes) => Ok(bytes),
        Err(_) => Err(Stopped::Otherwise),
    }
}

// The same, or the error if memory was refused.
fn written<R: Wait>(rt: &R, alloc: Global, share: &Share) -> Result<Vec<u8>, AllocError> {
    let (sender, replies) = bounded(alloc, 8)?;
    for receipt in share.receipts() {
        for saying in &receipt.outcome.sayings {
            hand_in(rt, alloc, &sender, saying.message)?;
        }
    }
    drop(sender);
    let mut bytes = Vec::new(alloc);
    match run_writer(rt, &replies, &mut bytes) {
        Ok(()) => Ok(bytes),
        Err(_) => Err(AllocError),
    }
}

fn hand_in<R: Wait>(
    rt: &R,
    alloc: Global,
    sender: &Sender<Reply>,
    message: TrackMsg,
) -> Result<(), AllocError> {
    let Ok(reply) = Reply::new(alloc, message) else {
        return Err(AllocError);
    };
    match sender.try_send(rt, reply) {
        Ok(()) => Ok(()),
        Err(_) => Err(AllocError),
    }
}
