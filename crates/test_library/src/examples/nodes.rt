//! The example of `rbc_node`: a thread commits an event, and looks at the log.

use crate::line::{TWO_CENTRES, line_of};
use rbc_node::{Node, Open};
use rbc_world::Event;
use std::alloc::Global;
use std::sync::Wait;
use std::test::*;

/// The stamp of an event, the entries of the log after it, and the receipts of the thread.
pub fn committed<R: Wait>(rt: &R, alloc: Global) -> Result<(u32, usize, usize), Fail> {
    let line = line_of(alloc, TWO_CENTRES)?;
    let node = Node::new(alloc, &line, 0)?;
    committed_at(rt, &node)
}

fn committed_at<R: Wait>(rt: &R, node: &Node) -> Result<(u32, usize, usize), Fail> {
    let mut share = node.share();
    let outcome = node.commit(rt, &Open, &mut share, Event::Set(1))?;
    let entries = node.look(rt).log().entries().len();
    Ok((outcome.stamp, entries, share.receipts().len()))
}
