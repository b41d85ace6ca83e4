ghost use Rattle.std.specs.Prelude.{◌≡◌, map, IfOk, IfSome, OnOk};
ghost use Rattle.rbc_node.specs.Node.{centre_of};
ghost use Rattle.text_journal.specs.Order.{taken_at};
ghost use Rattle.serve_control.specs.Events.{IsCommitted};
ghost use Rattle.serve_line.specs.Journaling.Resuming.{first_share, AreResumed, CommitsAgain, IsResumed};

use rbc_log::CommitFault;
use rbc_msgs::{MsgFault, decode_train};
use rbc_node::{Node, Open, Share, ShareFault};
use std::alloc::{AllocError, AllocFailed, Global};
use std::sync::Wait;
use text_journal::Entry;
use text_script::{Event, StepFault, WorldEvent};

/// The reason why centres can't resume from journals.
#[derive(Clone, Copy, Debug, PartialEq, Eq)]
pub enum ResumeFault {
    /// Memory ran out.
    Memory,
    /// The centre of this number would not have taken an event of its journal with this result. The second number is
    /// the line of the first such event; the journal's lines count from 1. The journals are not from one run.
    Unfit(u8, usize),
}

impl From<AllocError> for ResumeFault {
    fn from(_error: AllocError) -> ResumeFault {
        ResumeFault::Memory
    }
}

impl<T: Drop> From<AllocFailed<T>> for ResumeFault {
    fn from(_error: AllocFailed<T>) -> ResumeFault {
        ResumeFault::Memory
    }
}

/// Commits the events of the centres' journals again, in the given order, each at its centre's node. Each answer must
/// have the stamp of its entry. The result is the receipts, one share for each node. After an error the committed
/// events stay in the nodes.
pub fn resume<R: Wait>(
    rt: &R,
    alloc: Global,
    nodes: &[Node],
    entries: &[Entry],
) -> Result<Vec<Share>, ResumeFault>
    ensures { IfOk result (λ shares. AreResumed nodes.now entries.now (map first_share nodes.now) shares.items) }
{
    let mut shares = first_shares(alloc, nodes)?;
    commit_all(rt, alloc, nodes, &mut shares, entries)?;
    Ok(shares)
}

// One share for each node.
fn first_shares(alloc: Global, nodes: &[Node]) -> Result<Vec<Share>, AllocError>
    ensures { IfOk result (λ shares. shares.items ≡ map first_share nodes.now) }
{
    let mut shares = Vec::new(alloc);
    for node in nodes {
        shares.push(node.share())?;
    }
    Ok(shares)
}

// Commits the events in order, each at its centre.
fn commit_all<R: Wait>(
    rt: &R,
    alloc: Global,
    nodes: &[Node],
    shares: &mut [Share],
    entries: &[Entry],
) -> Result<(), ResumeFault>
    ensures { OnOk result (AreResumed nodes.now entries.now shares.old shares.new) }
{
    for entry in entries {
        commit_entry(rt, alloc, nodes, shares, entry)?;
    }
    Ok(())
}

// Commits an event of a journal at its centre.
fn commit_entry<R: Wait>(
    rt: &R,
    alloc: Global,
    nodes: &[Node],
    shares: &mut [Share],
    entry: &Entry,
) -> Result<(), ResumeFault>
    ensures { OnOk result (IsResumed nodes.now entry.now shares.old shares.new) }
{
    let at = entry.centre();
    let place = at as usize;
    let Some(node) = nodes.get(place) else {
        return Err(ResumeFault::Unfit(at, 2));
    };
    if place >= shares.len() {
        return Err(ResumeFault::Unfit(at, 2));
    }
    let share = &mut shares[place];
    // The first line of a journal is not an event.
    let row = share.receipts().len().saturating_add(2);
    let Some(event) = event_of(rt, alloc, nodes, entry)? else {
        return Err(ResumeFault::Unfit(at, row));
    };
    match commit_again(rt, node, share, event, entry.stamp) {
        Err(ResumeFault::Unfit(..)) => Err(ResumeFault::Unfit(at, row)),
        done => done,
    }
}

// Commits an event again. Its answer must have this stamp.
fn commit_again<R: Wait>(
    rt: &R,
    node: &Node,
    share: &mut Share,
    event: Event,
    stamp: u32,
) -> Result<(), ResumeFault>
    ensures { OnOk result (CommitsAgain (centre_of node.now) share.old share.new event stamp) }
{
    match node.commit(rt, &Open, share, event) {
        Ok(outcome) if outcome.stamp == stamp => Ok(()),
        Err(ShareFault::Commit(CommitFault::Step(StepFault::Memory))) => Err(ResumeFault::Memory),
        _ => Err(ResumeFault::Unfit(node.share().centre(), 1)),
    }
}

// The event in the form in which its centre takes it. `None` if its bytes are not a message, or its frame was not sent.
fn event_of<R: Wait>(
    rt: &R,
    alloc: Global,
    nodes: &[Node],
    entry: &Entry,
) -> Result<Option<Event>, ResumeFault>
    ensures { IfOk result (λ found. IfSome found (λ e. IsCommitted (taken_at entry.now) e entry.now.event)) }
{
    match &entry.event {
        WorldEvent::Train { bytes, .. } => match decode_train(alloc, bytes) {
            Ok(message) => Ok(Some(Event::Train(message))),
            Err(MsgFault::Memory) => Err(ResumeFault::Memory),
            Err(_) => Ok(None),
        },
        WorldEvent::Set { section, .. } => Ok(Some(Event::Set(*section))),
        WorldEvent::Unset { section, .. } => Ok(Some(Event::Unset(*section))),
        WorldEvent::Deliver { from, to, number } => {
            let Some(node) = nodes.get(*from as usize) else {
                return Ok(None);
            };
            match node.frame(rt, *to, *number) {
                Some(frame) if frame.number() == *number => {
                    Ok(Some(Event::Deliver { from: *from, frame }))
                }
                _ => Ok(None),
            }
        }
    }
}
