ghost use Rattle.std.specs.Prelude.{◌≡◌, ℕ, ◌-◌, ◌^◌, ◌<◌, ◌∷◌, [], List, IfErr, OnOk, OnErr};
ghost use Rattle.std.specs.Io.KnownBytes.{Consumes};
ghost use Rattle.rbc_centre.specs.declared.event.Event.TheVariants.{Train};
ghost use Rattle.rbc_node.specs.Node.{centre_of, RefusesAt};
ghost use Rattle.serve_workers.specs.Ends.{EndsSo};
ghost use Rattle.serve_workers.specs.Session.{Joins, CommitsAll, Serves};

use crate::end::SessionEnd;
use crate::reading::{Source, read_messages};
use crate::sink::AnswerSink;
use rbc_centre::Event;
use rbc_msgs::{Stream, TrainBody, TrainMsg};
use rbc_node::{Gate, Node, Share, ShareFault};
use std::alloc::Global;
use std::sync::Wait;

/// Reads the messages of a train from a source, and commits each to the centre's log, in order. It ends with the
/// source, at a fault of the bytes, at a failed read, or at a refused commit. The messages before a fault are committed
/// first. An incomplete message at the end commits nothing.
pub fn run_session<R: Wait, S: Source, G: Gate, O: AnswerSink>(
    rt: &R,
    alloc: Global,
    node: &Node,
    gate: &G,
    share: &mut Share,
    source: &mut S,
    sink: &O,
) -> SessionEnd
    requires { S.failures source.old < 2 ^ 64 - 1 }
    ensures serves { (read : List ℕ) × Consumes (S.left source.old) (S.left source.new) read
        × Serves (centre_of node.now) share.old share.new read result }
    ensures ends { EndsSo (S.left source.new) (S.failures source.old) (S.failures source.new) result }
{
    let mut stream = Stream::new(alloc);
    let mut messages = Vec::new(alloc);
    for _ in rt.forever() {
        let came = read_messages(source, &mut stream, &mut messages);
        if let Err(fault) = commit_all(rt, node, gate, share, &mut messages, sink) {
            return SessionEnd::Refused(fault);
        }
        if let Err(end) = came {
            return SessionEnd::from(end);
        }
    }
    unreachable!()
}

// Commits the messages in their order, and leaves none, or stops at the first refused commit.
fn commit_all<R: Wait, G: Gate, O: AnswerSink>(
    rt: &R,
    node: &Node,
    gate: &G,
    share: &mut Share,
    messages: &mut Vec<TrainMsg>,
    sink: &O,
) -> Result<(), ShareFault>
    ensures commits { CommitsAll (centre_of node.now) share.old share.new messages.old.items result }
    ensures none { OnOk result (messages.new.items ≡ []) }
{
    messages.reverse();
    while let Some(message) = messages.pop() {
        commit_one(rt, node, gate, share, message, sink)?;
    }
    Ok(())
}

// Commits one message. If it opened a session, the connection serves its engine from then on.
fn commit_one<R: Wait, G: Gate, O: AnswerSink>(
    rt: &R,
    node: &Node,
    gate: &G,
    share: &mut Share,
    message: TrainMsg,
    sink: &O,
) -> Result<(), ShareFault>
    ensures joins { OnOk result (Joins (centre_of node.now) share.old share.new (message ∷ [])) }
    ensures refused { IfErr result (RefusesAt (centre_of node.now) share.old (Train message)) }
    ensures err { OnErr result (share.new ≡ share.old) }
{
    let nid_engine = message.nid_engine();
    let opens = matches!(message.body(), TrainBody::InitiationOfSession);
    let outcome = node.commit(rt, gate, share, Event::Train(message))?;
    if opens && outcome.silence.is_none() {
        sink.opened(rt, nid_engine);
    }
    sink.answered(rt, &outcome);
    Ok(())
}
