ghost use Rattle.std.specs.Prelude.{◌≡◌, ◌<◌, ◌↔◌, IsTrue, All, length, IfOk, IfErr, OnOk, OnErr, vec_len};
ghost use Rattle.rbc_log.specs.Log.{IsReplaying};
ghost use Rattle.rbc_log.specs.Merge.{all_entries};
ghost use Rattle.rbc_node.specs.Gather.{AreAtPlaces, AreCentres, IsOrdered, StandIn, Rises, IsFound, AreShared};
ghost use Rattle.rbc_node.specs.Gather.{IsFamily, IsGatherFault, Unites, Gathers};
ghost use Rattle.rbc_node.specs.Receipts.{Has};
ghost use Rattle.rbc_node.specs.Sent.{IsSent, TakesSent, AllTakeSent};

use crate::counts::have_each_once;
use crate::family::Family;
use crate::gather_fault::GatherFault;
use crate::node::Node;
use crate::receipt::Receipt;
use crate::share::Share;
use rbc_centre::Event;
use rbc_line::Line;
use rbc_log::{CentreLog, Entry};
use std::alloc::{AllocError, Global};

/// Takes the nodes apart, and unites their logs, with the faults of `unite`. On a fault the nodes and the shares are
/// dropped. No clause can name the log that a node held: the answer is that of some logs that replay, one for each
/// node. Without a node it takes no memory.
pub fn gather(alloc: Global, nodes: Vec<Node>, shares: Vec<Share>) -> Result<Family, GatherFault>
    ensures { Gathers (vec_len nodes) shares.items result }
{
    unite(logs_of(alloc, nodes)?, shares.as_slice())
}

/// Takes the logs as a family. There is one for each centre of one line. The entries of each are the receipts of its
/// shares, each once and each share's in order. Each delivered frame was sent. Else the fault is returned: `Centres` is
/// tested first, then `Shares`, then `Foreign`. Its time grows with the entries and the receipts. For one log without
/// an entry it takes no memory.
pub fn unite(logs: Vec<CentreLog>, shares: &[Share]) -> Result<Family, GatherFault>
    ensures { Unites logs.items shares.now result }
{
    let logs = by_centre(logs)?;
    are_family(*logs.allocator(), logs.as_slice(), shares)?;
    Ok(Family::of(logs))
}

// Whether the logs, in the order of their centres, are a family whose entries are the receipts of the shares; else the
// fault.
fn are_family(alloc: Global, logs: &[CentreLog], shares: &[Share]) -> Result<(), GatherFault>
    ensures family { OnOk result (IsFamily logs.now) }
    ensures shared { OnOk result (AreShared logs.now shares.now) }
    ensures fault { IfErr result (IsGatherFault logs.now shares.now) }
{
    if !are_centres(logs) {
        return Err(GatherFault::Centres);
    }
    if !are_shared(alloc, logs, shares)? {
        return Err(GatherFault::Shares);
    }
    if !all_take_sent(logs) {
        return Err(GatherFault::Foreign);
    }
    Ok(())
}

// The same logs, in the order of their centres.
fn by_centre(mut logs: Vec<CentreLog>) -> Result<Vec<CentreLog>, AllocError>
    ensures ordered { IfOk result (λ ordered. IsOrdered logs.items ordered.items) }
    ensures memory { OnErr result (1 < length logs.items) }
{
    logs.sort_by_key(|log| log.number())?;
    Ok(logs)
}

// The logs that the nodes held.
fn logs_of(alloc: Global, mut nodes: Vec<Node>) -> Result<Vec<CentreLog>, AllocError>
    ensures count { IfOk result (λ logs. vec_len logs ≡ vec_len nodes) }
    ensures replays { IfOk result (λ logs. All IsReplaying logs.items) }
    ensures memory { OnErr result (0 < vec_len nodes) }
{
    let mut logs = Vec::new(alloc);
    while let Some(node) = nodes.pop() {
        logs.push(node.into_log())?;
    }
    Ok(logs)
}

// Whether the logs are one for each centre of one line, in the order of the centres.
fn are_centres(logs: &[CentreLog]) -> bool
    ensures exact { IsTrue result ↔ AreCentres logs.now }
    ensures replays { IsTrue result → All IsReplaying logs.now }
{
    match logs.first() {
        Some(first) => {
            logs.len() == first.line().centre_count() as usize && are_at_places(logs, first.line())
        }
        None => false,
    }
}

// Whether each log is of the line, and at the place of its centre's number.
fn are_at_places(logs: &[CentreLog], line: &Line) -> bool
    ensures exact { IsTrue result ↔ AreAtPlaces line.now logs.now }
    ensures replays { IsTrue result → All IsReplaying logs.now }
{
    for (c, log) in logs.iter().enumerate() {
        if log.core().number() as usize != c || !log.is_of_line(line) {
            return false;
        }
    }
    true
}

// Whether each log's entries are the receipts of its shares, each once, and each share's in its order.
fn are_shared(alloc: Global, logs: &[CentreLog], shares: &[Share]) -> Result<bool, AllocError>
    ensures exact { IfOk result (λ answer. IsTrue answer ↔ AreShared logs.now shares.now) }
    ensures memory { OnErr result (0 < length (all_entries logs.now)) }
{
    if !are_found(logs, shares) {
        return Ok(false);
    }
    have_each_once(alloc, logs, shares)
}

// Whether the receipts of each share are in the log of its centre.
fn are_found(logs: &[CentreLog], shares: &[Share]) -> bool
    ensures { IsTrue result ↔ All (IsFound logs.now) shares.now }
{
    shares.iter().all(|share| is_found(logs, share))
}

// Whether the receipts of the share are in the log of its centre.
fn is_found(logs: &[CentreLog], share: &Share) -> bool
    ensures { IsTrue result ↔ IsFound logs.now share.now }
{
    match logs.get(share.centre() as usize) {
        Some(log) => stand_in(log.entries(), share.receipts()),
        None => share.receipts().is_empty(),
    }
}

// Whether each receipt is at its position among the entries, and they have the order of the entries.
fn stand_in(entries: &[Entry], receipts: &[Receipt]) -> bool
    ensures { IsTrue result ↔ StandIn entries.now receipts.now }
{
    are_there(entries, receipts) && rise(receipts)
}

// Whether each receipt is at its position among the entries.
fn are_there(entries: &[Entry], receipts: &[Receipt]) -> bool
    ensures { IsTrue result ↔ All (Has entries.now) receipts.now }
{
    for receipt in receipts {
        if !receipt.is_in(entries) {
            return false;
        }
    }
    true
}

// Whether each receipt names a place above that of the one before.
fn rise(receipts: &[Receipt]) -> bool
    ensures { IsTrue result ↔ Rises receipts.now }
{
    for i in 1..receipts.len() {
        if receipts[i].place <= receipts[i - 1].place {
            return false;
        }
    }
    true
}

// Whether each frame that a log took was sent to its centre.
fn all_take_sent(logs: &[CentreLog]) -> bool
    ensures { IsTrue result ↔ AllTakeSent logs.now }
{
    for log in logs {
        if !takes_sent(logs, log) {
            return false;
        }
    }
    true
}

fn takes_sent(logs: &[CentreLog], log: &CentreLog) -> bool
    ensures { IsTrue result ↔ TakesSent logs.now log.now }
{
    let centre = log.number();
    log.entries()
        .iter()
        .all(|entry| is_sent(logs, centre, &entry.event))
}

// Whether the frame that the event brings to a centre was sent to it by the centre that is named, under its number.
fn is_sent(logs: &[CentreLog], centre: u8, event: &Event) -> bool
    ensures { IsTrue result ↔ IsSent logs.now centre event.now }
{
    match event {
        Event::Train(_) | Event::Set(_) | Event::Unset(_) => true,
        Event::Deliver { from, frame } => match logs.get(*from as usize) {
            Some(sender) => match sender.frame(centre, frame.number()) {
                Some(sent) => sent == *frame,
                None => false,
            },
            None => false,
        },
    }
}
