ghost use Rattle.std.specs.Prelude.{◌≤◌, ℕ, List, take, length, IfOk, OnOk, OnErr};
ghost use Rattle.std.specs.Io.KnownBytes.{Appends, Keeps};
ghost use Rattle.serve_workers.specs.Writing.Row.{IsRow, IsBegunRow};

use crate::writing::release::{AtOnce, Release};
use crate::writing::reply::Reply;
use crossbeam_channel::Receiver;
use std::io::{ErrorKind, Write};
use std::sync::Wait;

/// A write did not succeed.
#[derive(Clone, Copy, Debug, PartialEq, Eq)]
pub struct WriteFailed;

/// Writes the received replies until no more can arrive, or a write fails. It ends at a reply that waits for an event.
/// The written bytes are whole messages; only after a failed write may the last one be incomplete.
pub fn run_writer<R: Wait, W: Write>(
    rt: &R,
    replies: &Receiver<Reply>,
    out: &mut W,
) -> Result<(), WriteFailed>
    ensures ok { OnOk result
        ((bytes : List ℕ) × IsRow bytes × Appends (W.contents out.old) (W.contents out.new) bytes) }
    ensures err { OnErr result
        ((bytes : List ℕ) × IsBegunRow bytes × Appends (W.contents out.old) (W.contents out.new) bytes) }
{
    run_held_writer(rt, replies, &AtOnce, out)
}

/// The same, but each reply that waits for an event is written once the journal of its centre keeps that. It ends at
/// the first reply whose event the journal will never keep.
pub fn run_held_writer<R: Wait, L: Release, W: Write>(
    rt: &R,
    replies: &Receiver<Reply>,
    release: &L,
    out: &mut W,
) -> Result<(), WriteFailed>
    ensures ok { OnOk result
        ((bytes : List ℕ) × IsRow bytes × Appends (W.contents out.old) (W.contents out.new) bytes) }
    ensures err { OnErr result
        ((bytes : List ℕ) × IsBegunRow bytes × Appends (W.contents out.old) (W.contents out.new) bytes) }
{
    for _ in rt.forever() {
        let Ok(reply) = replies.recv(rt) else {
            break;
        };
        let Some(kept) = release.release(rt, reply.centre(), reply.stamp()) else {
            break;
        };
        let Some(bytes) = reply.open(&kept) else {
            break;
        };
        write_whole(out, bytes)?;
    }
    Ok(())
}

/// Writes all bytes, or, if a write fails, the first of them.
pub(crate) fn write_whole<W: Write>(out: &mut W, bytes: &[u8]) -> Result<(), WriteFailed>
    ensures ok { OnOk result (Appends (W.contents out.old) (W.contents out.new) bytes.now) }
    ensures err { OnErr result ((n : ℕ) × Appends (W.contents out.old) (W.contents out.new) (take n bytes.now)) }
{
    let mut sent = 0;
    while sent < bytes.len() {
        match write_some(out, &bytes[sent..])? {
            0 => return Err(WriteFailed),
            count => sent += count,
        }
    }
    Ok(())
}

// Writes some bytes, and returns their number. An interrupted write has not failed: it is tried again.
fn write_some<W: Write>(out: &mut W, bytes: &[u8]) -> Result<usize, WriteFailed>
    ensures bound { IfOk result (λ count. count ≤ length bytes.now) }
    ensures ok { IfOk result (λ count. Appends (W.contents out.old) (W.contents out.new) (take count bytes.now)) }
    ensures err { OnErr result (Keeps (W.contents out.old) (W.contents out.new)) }
{
    for _ in 0..u64::MAX {
        match out.write(bytes) {
            Ok(count) => return Ok(count),
            Err(error) if error.kind() == ErrorKind::Interrupted => {}
            Err(_) => break,
        }
    }
    Err(WriteFailed)
}
