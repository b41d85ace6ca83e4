//! The nodes of two centres, and the events that they take.

ghost use Rattle.std.specs.Prelude.{◌<◌};

use crate::codec::bytes::bytes_of;
use crate::line::{A, B, TWO_CENTRES, line_of};
use rbc_msgs::decode_train;
use rbc_node::{Node, Open, Share};
use rbc_world::Event;
use std::alloc::Global;
use std::sync::Wait;
use std::test::*;

/// A node of one of the two centres.
pub fn node_of(alloc: Global, centre: u8) -> Result<Node, Fail>
    requires { centre < 2 }
{
    let line = line_of(alloc, TWO_CENTRES)?;
    Ok(Node::new(alloc, &line, centre)?)
}

/// A node of each centre.
pub fn both(alloc: Global) -> Result<(Node, Node), Fail> {
    let a = node_of(alloc, A)?;
    let b = node_of(alloc, B)?;
    Ok((a, b))
}

/// The event that the train's message of these digits is.
pub fn said(alloc: Global, digits: &str) -> Result<Event, Fail> {
    let bytes = bytes_of(alloc, digits)?;
    let message = decode_train(alloc, &bytes).ok().ok_or("it is a message")?;
    Ok(Event::Train(message))
}

/// The node takes the event.
pub fn commit<R: Wait>(rt: &R, node: &Node, share: &mut Share, event: Event) -> Result<(), Fail> {
    node.commit(rt, &Open, share, event)
        .ok()
        .ok_or("the centre takes the event")?;
    Ok(())
}
