//! The examples of the first pages of crates. Each line of such an example is a line here, or of another test of this
//! crate.
mod frames;
mod line;
mod logs;
mod messages;
mod nodes;
mod pages;
mod worlds;

use crate::codec::bytes::bytes_of;
use crate::line::{ESTABLISHED, INITIATION, TWO_CENTRES, VERSION};
use rbc_linkmsg::{Body, Frame};
use std::test::*;

#[test]
fn events_are_taken_by_logs_a_node_and_a_world(rt: HostRuntime) -> Result<(), Fail> {
    let logs = logs::merged(rt.alloc())?;
    let node = nodes::committed(&rt, rt.alloc())?;
    let world = worlds::answered(rt.alloc(), TWO_CENTRES)?;
    assert!(rt; (logs, node, world) == ((1, 1, 2), (1, 1, 1), (1, 3)));
    Ok(())
}

#[test]
fn a_frame_is_written_read_and_carried(rt: HostRuntime) -> Result<(), Fail> {
    let frame = Frame::new(1, 4, Body::AskRight { engine: 2 });
    let read = frames::read_again(rt.alloc())?;
    let carried = frames::carried(rt.alloc())?;
    assert!(rt; (read, carried) == (Ok(frame), [None, Some(frame)]));
    Ok(())
}

#[test]
fn a_message_and_a_request_are_answered(rt: HostRuntime) -> Result<(), Fail> {
    let version = bytes_of(rt.alloc(), VERSION)?;
    let opened = messages::is_answer(rt.alloc(), INITIATION, Some(version.as_slice()))?;
    let established = messages::is_answer(rt.alloc(), ESTABLISHED, None)?;
    let pages = pages::are_answered(rt.alloc())?;
    assert!(rt; (opened, established, pages) == (true, true, (true, true)));
    Ok(())
}

#[test]
fn the_sections_of_a_centre_are_looked_up(rt: HostRuntime) -> Result<(), Fail> {
    let of_a = line::lengths_at(rt.alloc(), TWO_CENTRES, "A")?;
    let of_b = line::lengths_at(rt.alloc(), TWO_CENTRES, "B")?;
    assert!(rt;
        (of_a.as_slice(), of_b.as_slice()) == ([1_000, 1_200].as_slice(), [1_000].as_slice())
    );
    Ok(())
}
