ghost use Rattle.std.specs.Prelude.{◌≡◌, ◌≤◌, ℕ, Bool, List, Option, Some, OnOk};
ghost use Rattle.rbc_spec.specs.Frame.{Frame};
ghost use Rattle.rbc_node.specs.Node.{centre_of};
ghost use Rattle.serve_workers.specs.Carried.{AreKept, PutsInOrder, TakesTurn, TakesTurns};

use crate::committer::Committer;
use crate::order::Order;
use crate::signals::{Patience, Signals, Stage};
use crate::sink::AnswerSink;
use crate::writing::{AtOnce, Release};
use rbc_board::Carrier;
use rbc_centre::{Event, Frame};
use rbc_node::{Gate, Node, Share};
use serve_journal::Kept;
use std::sync::Wait;

/// The result of a worker that sent the frames of a link.
#[derive(Drop)]
pub struct Sent<S> {
    /// Its knowledge of the link.
    pub seen: S,
    /// The number of frames that it put: those with the numbers from 1 to this one.
    pub frames: u32,
    /// Shows that the journal of the sending centre keeps the events of those frames that wait for it.
    pub kept: Kept,
}

/// Puts the frames that a centre sends to another on their link, in the order of their numbers from 1 on. None is left
/// out, and each is the frame that the centre has sent under its number. A frame that the link does not take is put
/// again on the next turn. When no session is left, it ends if the centre has no further frame for the link, or the
/// receiving worker has ended. It also ends then if the link takes nothing for five seconds. Frames that were not put
/// stay with the centre.
pub fn send_frames<R: Wait, C: Carrier>(
    rt: &R,
    node: &Node,
    to: u8,
    carrier: &C,
    seen: C::Seen,
    signals: Signals<'_>,
) -> Sent<C::Seen>
    requires { C.is_of carrier.now seen }
    ensures link { C.is_of carrier.now result.seen }
    ensures puts { PutsInOrder (C.known result.seen) (centre_of node.now) to result.frames }
{
    send_kept_frames(rt, node, to, carrier, seen, signals, &AtOnce)
}

/// The same, but a frame that waits for its event is put once the journal of the sending centre keeps that. A frame
/// whose event the journal never keeps counts as one that the link does not take.
pub fn send_kept_frames<R: Wait, C: Carrier, L: Release>(
    rt: &R,
    node: &Node,
    to: u8,
    carrier: &C,
    mut seen: C::Seen,
    signals: Signals<'_>,
    release: &L,
) -> Sent<C::Seen>
    requires { C.is_of carrier.now seen }
    ensures link { C.is_of carrier.now result.seen }
    ensures puts { PutsInOrder (C.known result.seen) (centre_of node.now) to result.frames }
    ensures kept { AreKept (L.awaits release.now) (C.known result.seen) result.frames result.kept.stamp }
    ensures own { result.kept.centre ≡ centre_of node.now }
{
    let mut frames = 0;
    let mut kept = Kept::no_event(node.share().centre());
    let mut patience = Patience::new();
    for _ in rt.forever() {
        let stage = signals.stage();
        let number = frames + 1;
        if let Some(frame) = node.frame(rt, to, number) {
            if let Ok(()) = put_kept(rt, release, carrier, &mut seen, &mut kept, number, frame) {
                frames = frame.number();
                patience = Patience::new();
                signals.pass_on();
                continue;
            }
        } else if stage != Stage::Running {
            break;
        }
        if !patience.rests(rt, &signals, stage) {
            break;
        }
    }
    signals.end();
    Sent { seen, frames, kept }
}

// Puts a frame once the journal of its centre keeps its event, if the frame waits for it. Then `kept` shows that. The
// frame is returned if the link does not take it, or the journal never keeps its event.
fn put_kept<R: Wait, C: Carrier, L: Release>(
    rt: &R,
    release: &L,
    carrier: &C,
    seen: &mut C::Seen,
    kept: &mut Kept,
    number: u32,
    frame: Frame,
) -> Result<(), Frame>
    requires { C.is_of carrier.now seen.old }
    ensures link { C.is_of carrier.now seen.new }
    ensures ok { OnOk result (C.known seen.new number ≡ Some frame) }
    ensures own { OnOk result (frame.number ≡ number) }
    ensures event { OnOk result (L.awaits release.now frame.stamp ≤ kept.new.stamp) }
    ensures kept { kept.old.stamp ≤ kept.new.stamp }
    ensures centre { kept.new.centre ≡ kept.old.centre }
    ensures keeps { (n : ℕ) (f : Frame) → C.known seen.old n ≡ Some f → C.known seen.new n ≡ Some f }
{
    let stamp = release.awaited(frame.stamp());
    if kept.stamp() < stamp {
        let Some(more) = release.release(rt, kept.centre(), stamp) else {
            return Err(frame);
        };
        *kept = more;
    }
    carrier.put(seen, number, frame)
}

/// Gets the frames from a centre, under the numbers of the order, and commits each at this centre. To its earlier
/// receipts the share adds those of these deliveries, in their order, and no others. When no session is left, it ends
/// if a commit is refused. It also ends then if no frame is there and the sending worker has ended, or puts nothing for
/// five seconds.
pub fn receive_frames<R: Wait, C: Carrier, G: Gate, O: AnswerSink, N: Order>(
    rt: &R,
    committer: &Committer<'_, G, O>,
    share: &mut Share,
    from: u8,
    carrier: &C,
    mut seen: C::Seen,
    order: &mut N,
    signals: Signals<'_>,
) -> C::Seen
    requires { C.is_of carrier.now seen }
    ensures link { C.is_of carrier.now result }
    ensures takes { (turns : List (Option Bool)) × TakesTurns N.asks N.follows (C.known result)
        (centre_of committer.now.node.now) from order.old order.new share.old share.new turns }
{
    let mut patience = Patience::new();
    for _ in rt.forever() {
        let stage = signals.stage();
        match take_turn(rt, committer, share, from, carrier, &mut seen, order) {
            Some(true) => {
                patience = Patience::new();
                signals.pass_on();
                continue;
            }
            Some(false) if stage != Stage::Running => break,
            Some(false) | None => {}
        }
        if !patience.rests(rt, &signals, stage) {
            break;
        }
    }
    signals.end();
    seen
}

// Gets the frame under the number that the order asks for, commits it, and lets the order go on. The result is whether
// the commit was taken; `None` if no frame was there.
fn take_turn<R: Wait, C: Carrier, G: Gate, O: AnswerSink, N: Order>(
    rt: &R,
    committer: &Committer<'_, G, O>,
    share: &mut Share,
    from: u8,
    carrier: &C,
    seen: &mut C::Seen,
    order: &mut N,
) -> Option<bool>
    requires { C.is_of carrier.now seen.old }
    ensures link { C.is_of carrier.now seen.new }
    ensures keeps { (n : ℕ) (f : Frame) → C.known seen.old n ≡ Some f → C.known seen.new n ≡ Some f }
    ensures takes { TakesTurn N.asks N.follows (C.known seen.new)
        (centre_of committer.now.node.now) from order.old order.new share.old share.new result }
{
    let Some(frame) = carrier.get(seen, order.number()) else {
        order.go_on(false);
        return None;
    };
    match committer.commit(rt, share, Event::Deliver { from, frame }) {
        Ok(_) => {
            order.go_on(true);
            Some(true)
        }
        Err(_) => {
            order.go_on(false);
            Some(false)
        }
    }
}
