use crate::writing::reply::Reply;
use crate::writing::writer::{WriteFailed, write_whole};
use serve_journal::Kept;
use std::io;
use std::io::{ErrorKind, Write};
use std::sync::atomic::{AtomicU64, Ordering};
use std::sync::{Mutex, MutexGuard, Wait};

/// The output of one connection. Its writer writes the waiting replies. If none waits, the thread that reads the
/// connection writes its own reply. So a reply is never written among the bytes of another, and never before one that
/// waits.
#[derive(Drop)]
pub struct SharedWriter<W: Drop> {
    // The number of bytes that wait for the writer.
    waiting: AtomicU64,
    // `None` after a reply that was not written completely.
    out: Mutex<Option<W>>,
}

/// The right to write one reply at once: none waits, and none is written meanwhile.
#[derive(Drop)]
pub struct Turn<'a, W: Drop> {
    out: MutexGuard<'a, Option<W>>,
}

impl<W: Write + Drop> Turn<'_, W> {
    /// Writes a reply that waits for no event: another is not written. After a failed write nothing more is written.
    pub fn write(mut self, reply: &Reply) -> Result<(), WriteFailed> {
        let none = Kept::no_event(reply.centre());
        let (Some(out), Some(bytes)) = (&mut *self.out, reply.open(&none)) else {
            return Err(WriteFailed);
        };
        if write_whole(out, bytes).is_err() {
            *self.out = None;
            return Err(WriteFailed);
        }
        Ok(())
    }
}

impl<W: Write + Drop> SharedWriter<W> {
    /// The shared writer of this output. No reply waits.
    pub fn new(out: W) -> SharedWriter<W> {
        SharedWriter {
            waiting: AtomicU64::new(0),
            out: Mutex::new(Some(out)),
        }
    }

    /// From now on this reply waits. It is called before the reply is sent to the connection's writer.
    pub fn expect(&self, reply: &Reply) {
        self.waiting
            .fetch_add(reply.size() as u64, Ordering::SeqCst);
    }

    /// The right to write a reply at once, if no other waits and none is being written. It never blocks.
    pub fn turn(&self) -> Option<Turn<'_, W>> {
        let out = self.out.try_lock()?;
        if self.waiting.load(Ordering::SeqCst) != 0 {
            return None;
        }
        Some(Turn { out })
    }

    /// The end at which the connection's writer writes the waiting replies.
    pub fn end<'a, R: Wait>(&'a self, rt: &'a R) -> QueueWriter<'a, R, W> {
        QueueWriter {
            rt,
            shared_writer: self,
        }
    }
}

/// The end of a shared writer at which the connection's writer writes the waiting replies.
#[derive(Drop)]
pub struct QueueWriter<'a, R, W: Drop> {
    rt: &'a R,
    shared_writer: &'a SharedWriter<W>,
}

impl<R: Wait, W: Write + Drop> Write for QueueWriter<'_, R, W> {
    fn write(&mut self, bytes: &[u8]) -> io::Result<usize> {
        let mut place = self.shared_writer.out.lock(self.rt);
        let Some(out) = &mut *place else {
            return Err(io::Error::from(ErrorKind::BrokenPipe));
        };
        let count = out.write(bytes)?;
        self.shared_writer
            .waiting
            .fetch_sub(count as u64, Ordering::SeqCst);
        Ok(count)
    }

    fn flush(&mut self) -> io::Result<()> {
        Ok(())
    }
}
