//! The scene and its result.

ghost use Rattle.std.specs.Prelude.{◌<◌};

use crate::rows::refusals::carrying::over_a_queue;
use crate::rows::refusals::line::{A, B, two_centres};
use crate::rows::refusals::nodes::{Slot, frame, set, start, take};
use crate::rows::refusals::telling::told;
use rbc_log::{Entry, merge};
use rbc_node::{Family, GatherFault, Node, Share, gather};
use std::alloc::{AllocError, Global};
use std::sync::Wait;

/// The result: the bytes of the messages to the train, and the merged entries of both nodes.
#[derive(Drop)]
pub struct Played {
    pub told: Vec<u8>,
    pub entries: Vec<Entry>,
}

/// Why the scene was not played to its end.
#[derive(Clone, Copy, Debug, PartialEq, Eq)]
pub enum Stopped {
    /// `gather` was refused memory, and has dropped the nodes and the shares.
    AtGather,
    /// Something was refused twice, or did not have its expected value.
    Otherwise,
}

/// A train that B registers starts at A. A asks B for the right, B gives it, and each frame is delivered once more.
pub fn play<R: Wait>(rt: &R, alloc: Global) -> Result<Played, Stopped> {
    let mut a = seat(alloc, A)?;
    let mut b = seat(alloc, B)?;
    start_over_the_border(rt, alloc, &mut a, &mut b)?;
    let told = told(rt, alloc, &a.share)?;
    let family = gathered(alloc, a, b)?;
    let entries = merged(alloc, &family)?;
    Ok(Played { told, entries })
}

fn start_over_the_border<R: Wait>(
    rt: &R,
    alloc: Global,
    a: &mut Slot,
    b: &mut Slot,
) -> Result<(), Stopped> {
    set(rt, a, B, 1)?;
    start(rt, alloc, a)?;
    carry_twice(rt, alloc, (a, A), (b, B))?;
    carry_twice(rt, alloc, (b, B), (a, A))
}

// The first frame from one centre to the other is delivered, and then delivered once more.
fn carry_twice<R: Wait>(
    rt: &R,
    alloc: Global,
    from: (&Slot, u8),
    to: (&mut Slot, u8),
) -> Result<(), Stopped> {
    let (sender, a) = from;
    let (receiver, b) = to;
    for _ in 0..2 {
        let sent = over_a_queue(rt, alloc, frame(rt, sender, b, 1)?)?;
        take(rt, receiver, a, sent)?;
    }
    Ok(())
}

// A node of one of the two centres.
fn seat(alloc: Global, centre: u8) -> Result<Slot, Stopped>
    requires { centre < 2 }
{
    let Ok(line) = two_centres(alloc) else {
        return Err(Stopped::Otherwise);
    };
    let node = match Node::new(alloc, &line, centre) {
        Ok(node) => node,
        Err(_) => match Node::new(alloc, &line, centre) {
            Ok(node) => node,
            Err(_) => return Err(Stopped::Otherwise),
        },
    };
    let share = node.share();
    Ok(Slot { node, share })
}

// Room for two.
fn room<T>(alloc: Global) -> Result<Vec<T>, Stopped> {
    if let Ok(room) = Vec::with_capacity(alloc, 2) {
        return Ok(room);
    }
    match Vec::with_capacity(alloc, 2) {
        Ok(room) => Ok(room),
        Err(_) => Err(Stopped::Otherwise),
    }
}

// The logs of the two nodes.
fn gathered(alloc: Global, a: Slot, b: Slot) -> Result<Family, Stopped> {
    let nodes: Vec<Node> = room(alloc)?;
    let shares: Vec<Share> = room(alloc)?;
    let Ok((nodes, shares)) = listed(nodes, shares, a, b) else {
        return Err(Stopped::Otherwise);
    };
    match gather(alloc, nodes, shares) {
        Ok(family) => Ok(family),
        Err(GatherFault::Memory) => Err(Stopped::AtGather),
        Err(_) => Err(Stopped::Otherwise),
    }
}

fn listed(
    mut nodes: Vec<Node>,
    mut shares: Vec<Share>,
    a: Slot,
    b: Slot,
) -> Result<(Vec<Node>, Vec<Share>), AllocError> {
    for seat in [a, b] {
        let Slot { node, share } = seat;
        nodes.push(node)?;
        shares.push(share)?;
    }
    Ok((nodes, shares))
}

// The entries of the two logs.
fn merged(alloc: Global, family: &Family) -> Result<Vec<Entry>, Stopped> {
    let (Some(first), Some(second)) = (family.logs().first(), family.logs().get(1)) else {
        return Err(Stopped::Otherwise);
    };
    let logs = [first, second];
    if let Ok(entries) = merge(alloc, &logs) {
        return Ok(entries);
    }
    match merge(alloc, &logs) {
        Ok(entries) => Ok(entries),
        Err(_) => Err(Stopped::Otherwise),
    }
}
