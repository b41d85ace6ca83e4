//! The commits at a node. If memory is refused, node and share stay as they were, and the next attempt commits the
//! event.

use crate::rows::refusals::line::{BEGINS, START};
use crate::rows::refusals::playing::Stopped;
use rbc_centre::{Event, Frame, StepFault};
use rbc_log::CommitFault;
use rbc_node::{Node, Open, Share, ShareFault};
use serve_workers::reading::Reads;
use serve_workers::{NoSink, SessionEnd, run_session};
use std::alloc::Global;
use std::sync::Wait;

/// A node, and the commits of one thread there.
#[derive(Drop)]
pub struct Slot {
    pub node: Node,
    pub share: Share,
}

// The counts of the log's entries, of the share's receipts, and of the frames from this centre to another.
fn counts<R: Wait>(rt: &R, seat: &Slot, to: u8) -> (usize, usize, u32) {
    let look = seat.node.look(rt);
    let log = look.log();
    (
        log.entries().len(),
        seat.share.receipts().len(),
        log.core().sent(to),
    )
}

// Commits the first event. If memory ran out and nothing has changed, commits the second.
fn commit<R: Wait>(
    rt: &R,
    seat: &mut Slot,
    to: u8,
    first: Event,
    second: Event,
) -> Result<(), Stopped> {
    let before = counts(rt, seat, to);
    match seat.node.commit(rt, &Open, &mut seat.share, first) {
        Ok(_) => return Ok(()),
        Err(ShareFault::Commit(CommitFault::Step(StepFault::Memory)))
            if counts(rt, seat, to) == before => {}
        Err(_) => return Err(Stopped::Otherwise),
    }
    match seat.node.commit(rt, &Open, &mut seat.share, second) {
        Ok(_) => Ok(()),
        Err(_) => Err(Stopped::Otherwise),
    }
}

/// The node takes the set of a section.
pub fn set<R: Wait>(rt: &R, seat: &mut Slot, to: u8, section: u16) -> Result<(), Stopped> {
    commit(rt, seat, to, Event::Set(section), Event::Set(section))
}

/// The node takes a frame of another centre. Then it takes the frame once more, as an old one.
pub fn take<R: Wait>(rt: &R, seat: &mut Slot, from: u8, frame: Frame) -> Result<(), Stopped> {
    commit(
        rt,
        seat,
        from,
        Event::Deliver { from, frame },
        Event::Deliver { from, frame },
    )
}

/// The frame of this number from this centre to another.
pub fn frame<R: Wait>(rt: &R, seat: &Slot, to: u8, number: u32) -> Result<Frame, Stopped> {
    match seat.node.frame(rt, to, number) {
        Some(frame) => Ok(frame),
        None => Err(Stopped::Otherwise),
    }
}

/// A session over the bytes of the train's start. If it ends because memory was refused, another session takes the
/// rest.
pub fn start<R: Wait>(rt: &R, alloc: Global, seat: &mut Slot) -> Result<(), Stopped> {
    let before = seat.share.receipts().len();
    for _ in 0..2 {
        let taken = seat.share.receipts().len().saturating_sub(before);
        let Some(bytes) = BEGINS.get(taken).and_then(|begin| START.get(*begin..)) else {
            return Err(Stopped::Otherwise);
        };
        let mut source = Reads::new(bytes);
        let end = run_session(
            rt,
            alloc,
            &seat.node,
            &Open,
            &mut seat.share,
            &mut source,
            &NoSink,
        );
        if end == SessionEnd::EndOfStream {
            return Ok(());
        }
    }
    Err(Stopped::Otherwise)
}
