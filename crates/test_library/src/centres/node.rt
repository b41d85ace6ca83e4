//! The log of a node: each node has its own, under a lock of its own.

use crate::centres::gather::{is_run, merged};
use crate::centres::held::Held;
use crate::line::{A, B};
use crate::nodes::{both, node_of};
use rbc_log::Entry;
use rbc_node::{Node, Open, Share, ShareFault};
use rbc_world::{Event, Outcome, Word, WorldEvent};
use std::alloc::Global;
use std::sync::Wait;
use std::sync::atomic::Ordering;
use std::test::*;
use std::thread;
use std::thread::Threads;

// The fault of a set at the node, if it is refused.
fn set<R: Wait>(rt: &R, node: &Node, share: &mut Share, section: u16) -> Option<ShareFault> {
    node.commit(rt, &Open, share, Event::Set(section)).err()
}

// A share with a receipt of A is used at a new node of A: before the node has taken anything, and after another set.
// The result is the faults of the four sets, and the count of the share's receipts.
fn set_where_a_begins_again<R: Wait>(
    rt: &R,
    a: &Node,
    begun_again: &Node,
) -> ([Option<ShareFault>; 4], usize) {
    let mut share = a.share();
    let faults = [
        set(rt, a, &mut share, 0),
        set(rt, begun_again, &mut share, 0),
        set(rt, begun_again, &mut begun_again.share(), 1),
        set(rt, begun_again, &mut share, 0),
    ];
    (faults, share.receipts().len())
}

fn stray<R: Wait>(rt: &R, alloc: Global) -> Result<([Option<ShareFault>; 4], usize), Fail> {
    let a = node_of(alloc, A)?;
    let begun_again = node_of(alloc, A)?;
    Ok(set_where_a_begins_again(rt, &a, &begun_again))
}

#[test]
fn a_share_is_stray_where_its_last_receipt_is_not(rt: HostRuntime) -> Result<(), Fail> {
    let is_stray = Some(ShareFault::Stray);
    assert!(rt; stray(&rt, rt.alloc())? == ([None, is_stray, None, is_stray], 1));
    Ok(())
}

/// The stamp of a set that is done, and its section.
type Done = Option<(u32, u16)>;

// The result of a set, if it is done.
fn done(answer: Result<Outcome, ShareFault>) -> Done {
    let outcome = answer.ok()?;
    match outcome.words().as_slice() {
        [Word::Done(section)] => Some((outcome.stamp, *section)),
        _ => None,
    }
}

// A takes a set that is held back. Meanwhile B takes one, and then A takes another, with a share of its own. The result
// is that of each set.
fn set_side_by_side<R: Threads + Wait + Sync>(
    rt: &R,
    gate: &Held,
    a: (&Node, &mut Share),
    b: (&Node, &mut Share),
    next_of_a: &mut Share,
) -> (Done, (Done, Done)) {
    let (a, of_a) = a;
    let (b, of_b) = b;
    thread::join(
        rt,
        || done(a.commit(rt, gate, of_a, Event::Set(0))),
        || {
            gate.wait_for(&gate.is_begun);
            let other = b.commit(rt, gate, of_b, Event::Set(2));
            gate.is_other_answered.store(true, Ordering::SeqCst);
            let next = a.commit(rt, &Open, next_of_a, Event::Set(1));
            gate.is_next_answered.store(true, Ordering::SeqCst);
            (done(other), done(next))
        },
    )
}

/// Whether the gate gave up, and the count of commits that are over.
type Gated = (bool, u32);

/// The results of the sets, those of the gate, and the merged entries of the nodes.
type SideBySide = ((Done, (Done, Done)), Gated, Vec<Entry>);

fn side_by_side<R: Threads + Wait + Sync>(rt: &R, alloc: Global) -> Result<SideBySide, Fail> {
    let (a, b) = both(alloc)?;
    let mut of_a = a.share();
    let mut next_of_a = a.share();
    let mut of_b = b.share();
    let gate = Held::new();
    let sets = set_side_by_side(rt, &gate, (&a, &mut of_a), (&b, &mut of_b), &mut next_of_a);
    let shares = vec![in alloc; of_a, next_of_a, of_b]?;
    let entries = merged(alloc, a, b, shares)?;
    let gated = (
        gate.gave_up.load(Ordering::SeqCst),
        gate.over.load(Ordering::SeqCst),
    );
    Ok((sets, gated, entries))
}

// Whether the entries are those of the three sets.
fn are_the_sets(alloc: Global, entries: &[Entry]) -> Result<bool, Fail> {
    let events = [
        WorldEvent::Set {
            centre: A,
            section: 0,
        },
        WorldEvent::Set {
            centre: B,
            section: 2,
        },
        WorldEvent::Set {
            centre: A,
            section: 1,
        },
    ];
    is_run(alloc, &events, entries, &[(A, 1), (B, 1), (A, 2)])
}

#[test]
fn a_commit_waits_for_the_lock_of_its_centre_alone(rt: HostRuntime) -> Result<(), Fail> {
    let (sets, gate, entries) = side_by_side(&rt, rt.alloc())?;
    let is_so = are_the_sets(rt.alloc(), &entries)?;
    let done = (Some((1, 0)), (Some((1, 2)), Some((2, 1))));
    assert!(rt; (sets, gate, is_so) == (done, (false, 2), true));
    Ok(())
}
