//! The two workers of a link. B has lent a section to A, and has a frame for A each time that it asks for it back.

use crate::line::{A, B};
use crate::nodes::{both, commit, node_of};
use crate::workers::narrow::Narrow;
use crate::workers::unruly::{ASKED, Unruly};
use rbc_board::{Carrier, QueueCarrier};
use rbc_node::{Node, Open, Share};
use rbc_world::{Body, Event, Frame, LAST_STAMP, LinkAnswer};
use serve_workers::{Committer, InOrder, LinkEnds, NoSink, receive_frames, send_frames};
use std::alloc::Global;
use std::sync::Wait;
use std::sync::atomic::AtomicBool;
use std::test::*;
use std::thread;
use std::thread::{Parker, Threads};

// The section of B.
const OF_B: u16 = 2;

// B lends its section to A, and asks for it back this many times. So it has one frame more for A.
fn withdraw<R: Wait>(rt: &R, b: &Node, share: &mut Share, count: u32) -> Result<(), Fail> {
    let body = Body::RouteAsk {
        engine: 1,
        first: OF_B,
        most: 1,
    };
    let frame = Frame::new(1, 1, body);
    commit(rt, b, share, Event::Set(OF_B))?;
    commit(rt, b, share, Event::Deliver { from: A, frame })?;
    for _ in 0..count {
        commit(rt, b, share, Event::Unset(OF_B))?;
        commit(rt, b, share, Event::Set(OF_B))?;
    }
    Ok(())
}

// The answers of the link to the frames that were committed.
fn answers_of(alloc: Global, share: &Share) -> Result<Vec<Option<LinkAnswer>>, Fail> {
    let mut answers = Vec::new(alloc);
    for receipt in share.receipts() {
        if let Event::Deliver { .. } = receipt.event {
            answers.push(receipt.outcome.link)?;
        }
    }
    Ok(answers)
}

// B puts its three frames for A, and after that A gets them under these numbers. The result is the count of frames that
// B put.
fn put_and_get<R: Wait>(
    rt: &R,
    alloc: Global,
    b: &Node,
    a: &Node,
    of_a: &mut Share,
) -> Result<u32, Fail> {
    let (queue, writer, reader) = QueueCarrier::new(rt, alloc)?;
    let (ends, waker) = (LinkEnds::new(), Parker::new());
    let is_said = AtomicBool::new(true);
    let sent = send_frames(rt, b, A, &queue, writer, ends.of_sender(&waker, &is_said));
    let is_over = AtomicBool::new(false);
    let mut order = Unruly::new([2, 1, 1, 3, 9, 2, 3, 1], &is_over);
    let committer = Committer {
        node: a,
        gate: &Open,
        sink: &NoSink,
    };
    let signals = ends.of_receiver(&waker, &is_over);
    receive_frames(rt, &committer, of_a, B, &queue, reader, &mut order, signals);
    Ok(sent.frames)
}

// The same, with the answers of A's link.
fn got<R: Wait>(
    rt: &R,
    alloc: Global,
    b: &Node,
    a: &Node,
) -> Result<(u32, Vec<Option<LinkAnswer>>), Fail> {
    withdraw(rt, b, &mut b.share(), 2)?;
    let mut of_a = a.share();
    let frames = put_and_get(rt, alloc, b, a, &mut of_a)?;
    Ok((frames, answers_of(alloc, &of_a)?))
}

static ANSWERS: [Option<LinkAnswer>; 7] = [
    Some(LinkAnswer::Early),
    Some(LinkAnswer::Next),
    Some(LinkAnswer::Old),
    Some(LinkAnswer::Early),
    Some(LinkAnswer::Next),
    Some(LinkAnswer::Next),
    Some(LinkAnswer::Old),
];

// Whether B puts three frames, and the answers of A are these.
fn are_got<R: Wait>(rt: &R, alloc: Global) -> Result<bool, Fail> {
    let (a, b) = both(alloc)?;
    let (frames, answers) = got(rt, alloc, &b, &a)?;
    Ok((frames, answers.as_slice()) == (3, ANSWERS.as_slice()))
}

// A node gets the frames of another over a carrier while that puts them, though no session is left from the first. The
// result is the answers of its link.
fn carried_at_the_end<R: Threads + Wait + Sync, C: Carrier + Sync>(
    rt: &R,
    alloc: Global,
    from: &Node,
    to: &Node,
    carrier: &C,
    writer: C::Seen,
    reader: C::Seen,
) -> Result<Vec<Option<LinkAnswer>>, Fail>
    requires { C.is_of carrier.now writer × C.is_of carrier.now reader }
{
    let mut of_to = to.share();
    let (sender, receiver) = (from.share().centre(), of_to.centre());
    let (ends, waker, is_over) = (LinkEnds::new(), Parker::new(), AtomicBool::new(true));
    thread::join(
        rt,
        || -> C::Seen
            requires { C.is_of carrier.now writer }
        {
            let signals = ends.of_sender(&waker, &is_over);
            send_frames(rt, from, receiver, carrier, writer, signals).seen
        },
        || -> C::Seen
            requires { C.is_of carrier.now reader }
        {
            let committer = Committer {
                node: to,
                gate: &Open,
                sink: &NoSink,
            };
            let mut order = InOrder::new();
            let signals = ends.of_receiver(&waker, &is_over);
            receive_frames(
                rt, &committer, &mut of_to, sender, carrier, reader, &mut order, signals,
            )
        },
    );
    answers_of(alloc, &of_to)
}

// The same over a queue that is full with one frame, after B asked 200 times for its section.
fn carried_by_a_narrow_queue<R: Threads + Wait + Sync>(
    rt: &R,
    alloc: Global,
    b: &Node,
    a: &Node,
) -> Result<Vec<Option<LinkAnswer>>, Fail> {
    withdraw(rt, b, &mut b.share(), 200)?;
    let (queue, writer, reader) = QueueCarrier::new(rt, alloc)?;
    let narrow = Narrow::new(queue);
    carried_at_the_end(rt, alloc, b, a, &narrow, writer, reader)
}

// How many frames B has for A there.
const MANY: usize = 201;

fn are_all_next<R: Threads + Wait + Sync>(rt: &R, alloc: Global) -> Result<bool, Fail> {
    let (a, b) = both(alloc)?;
    let answers = carried_by_a_narrow_queue(rt, alloc, &b, &a)?;
    Ok(answers.as_slice() == [Some(LinkAnswer::Next); MANY].as_slice())
}

// A frame comes to A whose stamp leaves no further one, and is asked for in each turn. The result is the number of
// turns, and whether the frame is still there.
fn asked_for<R: Wait>(
    rt: &R,
    alloc: Global,
    a: &Node,
    of_a: &mut Share,
) -> Result<(usize, bool), Fail> {
    let (queue, mut writer, reader) = QueueCarrier::new(rt, alloc)?;
    let late = Frame::new(1, LAST_STAMP, Body::AskRight { engine: 1 });
    if queue.put(&mut writer, 1, late).is_err() {
        return Err("there is room for the frame".into());
    }
    let (ends, waker, is_over) = (LinkEnds::new(), Parker::new(), AtomicBool::new(false));
    let mut order = Unruly::new([1; ASKED], &is_over);
    let committer = Committer {
        node: a,
        gate: &Open,
        sink: &NoSink,
    };
    let signals = ends.of_receiver(&waker, &is_over);
    let mut seen = receive_frames(rt, &committer, of_a, B, &queue, reader, &mut order, signals);
    let is_there = queue.get(&mut seen, 1) == Some(late);
    Ok((order.turns(), is_there))
}

// The same, with the count of commits.
fn refused<R: Wait>(rt: &R, alloc: Global) -> Result<(usize, bool, usize), Fail> {
    let a = node_of(alloc, A)?;
    let mut of_a = a.share();
    let (turns, is_there) = asked_for(rt, alloc, &a, &mut of_a)?;
    Ok((turns, is_there, of_a.receipts().len()))
}

#[test]
fn frames_are_committed_whatever_is_asked_for_and_one_that_is_refused_stays(
    rt: HostRuntime,
) -> Result<(), Fail> {
    let are_got = are_got(&rt, rt.alloc())?;
    let are_all_next = are_all_next(&rt, rt.alloc())?;
    let refused = refused(&rt, rt.alloc())?;
    assert!(rt; (are_got, are_all_next, refused) == (true, true, (ASKED, true, 0)));
    Ok(())
}
