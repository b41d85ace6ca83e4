//! The logs of two centres' nodes, gathered and merged into one run.

use crate::codec::bytes::bytes_of;
use crate::line::{A, B, START, TWO_CENTRES, line_of};
use crate::nodes::{both, commit, said};
use rbc_log::{Entry, merge};
use rbc_node::{Family, GatherFault, Node, Open, Share, gather};
use rbc_world::{Answer, Body, Event, Frame, Outputs, World, WorldEvent};
use std::alloc::Global;
use std::sync::Wait;
use std::test::*;

/// Gathers the logs of two nodes, and merges them.
pub fn merged(alloc: Global, a: Node, b: Node, shares: Vec<Share>) -> Result<Vec<Entry>, Fail> {
    let nodes = vec![in alloc; b, a]?;
    let family = gather(alloc, nodes, shares)
        .ok()
        .ok_or("the logs are a family")?;
    entries_of(alloc, &family)
}

// Merges the logs of a family.
fn entries_of(alloc: Global, family: &Family) -> Result<Vec<Entry>, Fail> {
    let (Some(first), Some(second)) = (family.logs().first(), family.logs().get(1)) else {
        return Err("there is a log of each centre".into());
    };
    Ok(
        merge(alloc, &[second, first])
            .ok()
            .ok_or("the logs are merged")?,
    )
}

// The answers of the line's world to the events, and the world after them.
fn run(alloc: Global, events: &[WorldEvent]) -> Result<Outputs, Fail> {
    let line = line_of(alloc, TWO_CENTRES)?;
    Ok(
        World::run(alloc, &line, events)
            .ok()
            .ok_or("no step is refused")?,
    )
}

/// Whether the entries are the world's answers to the events, and have these centres and stamps.
pub fn is_run(
    alloc: Global,
    events: &[WorldEvent],
    entries: &[Entry],
    stamps: &[(u8, u32)],
) -> Result<bool, Fail> {
    let outputs = run(alloc, events)?;
    let answers = outputs.answers.as_slice();
    let counts = (answers.len(), stamps.len());
    let mut all = answers.iter().zip(entries).zip(stamps);
    Ok(counts == (entries.len(), entries.len()) && all.all(|((a, e), s)| is_answer(a, e, *s)))
}

fn is_answer(answer: &Answer, entry: &Entry, stamp: (u8, u32)) -> bool {
    match answer {
        Answer::Outcome(outcome) => {
            (entry.centre, entry.outcome.stamp) == stamp && outcome.is_same(&entry.outcome)
        }
        Answer::NoCentre | Answer::NotSent | Answer::Fault(_) => false,
    }
}

// Section 1 is set, and a train that centre B registers starts in it, at A.
fn start(alloc: Global) -> Result<Vec<Event>, Fail> {
    let mut events = vec![in alloc; Event::Set(1)]?;
    for text in &START {
        events.push(said(alloc, text)?)?;
    }
    Ok(events)
}

// The same start, as the world takes it. The frames that ask for the right and give it follow.
fn start_in_the_world(alloc: Global) -> Result<Vec<WorldEvent>, Fail> {
    let set = WorldEvent::Set {
        centre: A,
        section: 1,
    };
    let mut events = vec![in alloc; set]?;
    for text in &START {
        let bytes = bytes_of(alloc, text)?;
        events.push(WorldEvent::Train { centre: A, bytes })?;
    }
    for (from, to) in [(A, B), (B, A)] {
        events.push(WorldEvent::Deliver {
            from,
            to,
            number: 1,
        })?;
    }
    Ok(events)
}

/// The frames to a centre under the numbers 0, 1 and 2.
type Shown = [Option<Frame>; 3];

const NOTHING: Shown = [None, None, None];

// The frames of the node to a centre.
fn frames_to<R: Wait>(rt: &R, node: &Node, to: u8) -> Shown {
    [
        node.frame(rt, to, 0),
        node.frame(rt, to, 1),
        node.frame(rt, to, 2),
    ]
}

// The node takes the frame, which has to exist.
fn take_frame<R: Wait>(
    rt: &R,
    node: (&Node, &mut Share),
    from: u8,
    frame: Option<Frame>,
) -> Result<(), Fail> {
    let (node, share) = node;
    let frame = frame.ok_or("the frame was sent")?;
    commit(rt, node, share, Event::Deliver { from, frame })
}

// The nodes take a start at A of a train that B registers, and the frames that ask for the right and give it. The
// result is the frames from A to B before and after the start, from A to itself, and from B to A.
fn begun<R: Wait>(
    rt: &R,
    alloc: Global,
    a: (&Node, &mut Share),
    b: (&Node, &mut Share),
) -> Result<[Shown; 4], Fail> {
    let (a, of_a) = a;
    let before = frames_to(rt, a, B);
    for event in start(alloc)? {
        commit(rt, a, of_a, event)?;
    }
    let asks = frames_to(rt, a, B);
    let own = frames_to(rt, a, A);
    let (b, of_b) = b;
    take_frame(rt, (b, of_b), A, asks[1])?;
    let gives = frames_to(rt, b, A);
    take_frame(rt, (a, of_a), B, gives[1])?;
    Ok([before, asks, own, gives])
}

// The same, with the merged entries of the nodes.
fn begun_and_merged<R: Wait>(rt: &R, alloc: Global) -> Result<([Shown; 4], Vec<Entry>), Fail> {
    let (a, b) = both(alloc)?;
    let mut of_a = a.share();
    let mut of_b = b.share();
    let frames = begun(rt, alloc, (&a, &mut of_a), (&b, &mut of_b))?;
    let shares = vec![in alloc; of_a, of_b]?;
    let entries = merged(alloc, a, b, shares)?;
    Ok((frames, entries))
}

// Whether the entries are those of the start.
fn are_the_start(alloc: Global, entries: &[Entry]) -> Result<bool, Fail> {
    let events = start_in_the_world(alloc)?;
    let stamps = [(A, 1), (A, 2), (A, 3), (A, 4), (B, 5), (A, 6)];
    is_run(alloc, &events, entries, &stamps)
}

#[test]
fn a_node_shows_the_frame_that_it_sent(rt: HostRuntime) -> Result<(), Fail> {
    let (frames, entries) = begun_and_merged(&rt, rt.alloc())?;
    let asks = Frame::new(1, 4, Body::AskRight { engine: 2 });
    let gives = Frame::new(1, 5, Body::GiveRight { engine: 2 });
    let shown = [
        NOTHING,
        [None, Some(asks), None],
        NOTHING,
        [None, Some(gives), None],
    ];
    let is_so = are_the_start(rt.alloc(), &entries)?;
    assert!(rt; (frames, is_so) == (shown, true));
    Ok(())
}

// The shares of two nodes after an event: B takes a frame that A did not send. Or A takes a set, and its share is not
// there.
fn shares_after<R: Wait>(
    rt: &R,
    alloc: Global,
    a: &Node,
    b: &Node,
    is_frame: bool,
) -> Result<Vec<Share>, Fail> {
    let mut shares = Vec::new(alloc);
    if is_frame {
        let mut share = b.share();
        let frame = Frame::new(1, 4, Body::AskRight { engine: 2 });
        take_frame(rt, (b, &mut share), A, Some(frame))?;
        shares.push(share)?;
    } else {
        commit(rt, a, &mut a.share(), Event::Set(0))?;
    }
    Ok(shares)
}

// The reason why the logs of the nodes and these shares do not form a family.
fn fault_after<R: Wait>(rt: &R, alloc: Global, is_frame: bool) -> Result<GatherFault, Fail> {
    let (a, b) = both(alloc)?;
    let shares = shares_after(rt, alloc, &a, &b, is_frame)?;
    let nodes = vec![in alloc; a, b]?;
    Ok(
        gather(alloc, nodes, shares)
            .err()
            .ok_or("the logs are no family")?,
    )
}

#[test]
fn a_family_lacks_a_share_or_has_a_frame_that_nobody_sent(rt: HostRuntime) -> Result<(), Fail> {
    let lacking = fault_after(&rt, rt.alloc(), false)?;
    let foreign = fault_after(&rt, rt.alloc(), true)?;
    assert!(rt; (lacking, foreign) == (GatherFault::Shares, GatherFault::Foreign));
    Ok(())
}
