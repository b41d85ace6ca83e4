//! The shared writer of a connection, over bytes in memory.

use crate::codec::bytes::bytes_of;
use crate::line::{ACCEPTED, VERSION};
use crossbeam_channel::bounded;
use rbc_msgs::decode_track;
use serve_workers::writing::{Reply, SharedWriter, WriteFailed, run_writer};
use std::alloc::Global;
use std::io;
use std::io::{ErrorKind, Write};
use std::sync::{Mutex, Wait};
use std::test::*;

// The bytes of `ACCEPTED`, and after them those of `VERSION`.
const BOTH: &str = "2902800000009FFFFFE02002C00000005FFFFFE800";

/// Keeps what is written, five bytes a time. Where it is faulty, its second write fails, and no other.
#[derive(Drop)]
struct Tape<'a> {
    kept: &'a Mutex<Vec<u8>>,
    is_faulty: bool,
}

impl Write for Tape<'_> {
    fn write(&mut self, bytes: &[u8]) -> io::Result<usize> {
        let Some(mut kept) = self.kept.try_lock() else {
            return Err(io::Error::from(ErrorKind::Other));
        };
        if self.is_faulty && !kept.is_empty() {
            self.is_faulty = false;
            return Err(io::Error::from(ErrorKind::BrokenPipe));
        }
        let count = bytes.len().min(5);
        match kept.extend_from_slice(&bytes[..count]) {
            Ok(()) => Ok(count),
            Err(_) => Err(io::Error::from(ErrorKind::OutOfMemory)),
        }
    }

    fn flush(&mut self) -> io::Result<()> {
        Ok(())
    }
}

fn reply_of(alloc: Global, digits: &str) -> Result<Reply, Fail> {
    let bytes = bytes_of(alloc, digits)?;
    let message = decode_track(&bytes).ok().ok_or("it is a message")?;
    Ok(Reply::new(alloc, message).ok().ok_or("there is memory")?)
}

// The writer writes the reply, while the queue stays open or after it ended.
fn written<R: Wait>(
    rt: &R,
    alloc: Global,
    shared_writer: &SharedWriter<Tape<'_>>,
    reply: Reply,
    is_open: bool,
) -> Result<Result<(), WriteFailed>, Fail> {
    let (sender, replies) = bounded(alloc, 1)?;
    if sender.try_send(rt, reply).is_err() {
        return Err("there is room for the reply".into());
    }
    let _sender = if is_open {
        Some(sender)
    } else {
        drop(sender);
        None
    };
    Ok(run_writer(rt, &replies, &mut shared_writer.end(rt)))
}

/// What a write is answered: none where it was not this reply's turn.
type Answer = Option<Result<(), WriteFailed>>;

// A reply is written at once, if none waits.
fn written_now(shared_writer: &SharedWriter<Tape<'_>>, reply: &Reply) -> Answer {
    Some(shared_writer.turn()?.write(reply))
}

#[test]
fn no_reply_overtakes_one_that_waits(rt: HostRuntime) -> Result<(), Fail> {
    let wanted = bytes_of(rt.alloc(), BOTH)?;
    let kept = Mutex::new(Vec::new(rt.alloc()));
    let shared_writer = SharedWriter::new(Tape {
        kept: &kept,
        is_faulty: false,
    });
    let now = overtaken(&rt, rt.alloc(), &shared_writer, &kept)?;
    let kept = kept.lock(&rt);
    let answered = (None, true, Ok(()), Some(Ok(())));
    assert!(rt; (now, kept.as_slice()) == (answered, wanted.as_slice()));
    Ok(())
}

// A version comes while an acceptance waits, and again after it: what the first is answered, whether nothing is kept
// then, what the writer of the acceptance is answered, and what the second version is.
fn overtaken<R: Wait>(
    rt: &R,
    alloc: Global,
    shared_writer: &SharedWriter<Tape<'_>>,
    kept: &Mutex<Vec<u8>>,
) -> Result<(Answer, bool, Result<(), WriteFailed>, Answer), Fail> {
    let version = reply_of(alloc, VERSION)?;
    let accepted = reply_of(alloc, ACCEPTED)?;
    shared_writer.expect(&accepted);
    let first = written_now(shared_writer, &version);
    let is_empty = kept.lock(rt).is_empty();
    let waiting = written(rt, alloc, shared_writer, accepted, false)?;
    let second = written_now(shared_writer, &version);
    Ok((first, is_empty, waiting, second))
}

#[test]
fn nothing_is_written_after_a_failed_write(rt: HostRuntime) -> Result<(), Fail> {
    let kept = Mutex::new(Vec::new(rt.alloc()));
    let shared_writer = SharedWriter::new(Tape {
        kept: &kept,
        is_faulty: true,
    });
    let (now, waiting) = failed(&rt, rt.alloc(), &shared_writer)?;
    let count = kept.lock(&rt).len();
    let failed = Err(WriteFailed);
    assert!(rt; (now, waiting, count) == ([Some(failed), Some(failed)], failed, 5));
    Ok(())
}

// A version comes twice, and once more where the writer writes it: what the first two are answered, and how the writer
// ends.
fn failed<R: Wait>(
    rt: &R,
    alloc: Global,
    shared_writer: &SharedWriter<Tape<'_>>,
) -> Result<([Answer; 2], Result<(), WriteFailed>), Fail> {
    let version = reply_of(alloc, VERSION)?;
    let now = [
        written_now(shared_writer, &version),
        written_now(shared_writer, &version),
    ];
    shared_writer.expect(&version);
    Ok((now, written(rt, alloc, shared_writer, version, true)?))
}
