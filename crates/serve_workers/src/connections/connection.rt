ghost use Rattle.std.specs.Prelude.{◌≡◌, false, IfSome};

use crate::writing::{Reply, SharedWriter, Turn};
use crossbeam_channel::{Sender, TrySendError};
use std::alloc::Global;
use std::io::Write;
use std::net::{Shutdown, TcpStream};
use std::sync::atomic::{AtomicBool, Ordering};
use std::sync::{Arc, Wait};
use std::{io, thread};

/// The offers of a reply to the channel of a connection before the train counts as too slow.
const OFFERS: u32 = 100;

/// A stream with several owners.
#[derive(Drop)]
pub struct Shared(pub Arc<TcpStream, Global>);

impl Write for Shared {
    fn write(&mut self, bytes: &[u8]) -> io::Result<usize> {
        let mut stream: &TcpStream = &self.0;
        stream.write(bytes)
    }

    fn flush(&mut self) -> io::Result<()> {
        Ok(())
    }
}

/// A train's connection, as the senders of messages to the train see it.
#[derive(Drop)]
pub struct Connection {
    /// The queue of replies to its writer.
    replies: Sender<Reply>,
    shared_writer: Arc<SharedWriter<Shared>, Global>,
    stream: Arc<TcpStream, Global>,
    /// Whether its train was too slow.
    is_cut: AtomicBool,
    /// Whether the centre ended it.
    is_ended: AtomicBool,
    /// Whether its replies wait for their events: then only its writer writes.
    is_held: bool,
}

impl Connection {
    /// A connection over this stream. Its writer has the receiver of the channel and the end of the shared writer.
    pub fn new(
        replies: Sender<Reply>,
        shared_writer: Arc<SharedWriter<Shared>, Global>,
        stream: Arc<TcpStream, Global>,
    ) -> Connection
        ensures { result.is_held ≡ false }
    {
        Connection {
            replies,
            shared_writer,
            stream,
            is_cut: AtomicBool::new(false),
            is_ended: AtomicBool::new(false),
            is_held: false,
        }
    }

    /// The same connection, whose replies wait for their events or not. If they do, only its writer writes.
    pub(crate) fn held(self, is_held: bool) -> Connection
        ensures { result.is_held ≡ is_held }
    {
        let mut connection = self;
        connection.is_held = is_held;
        connection
    }

    /// The right to write to the train in the calling thread, if no reply waits.
    pub(crate) fn turn(&self) -> Option<Turn<'_, Shared>>
        ensures { IfSome result (λ turn. self.now.is_held ≡ false) }
    {
        if self.is_held {
            return None;
        }
        self.shared_writer.turn()
    }

    /// Writes a reply in the calling thread. A failed write ends the connection.
    pub(crate) fn write(&self, turn: Turn<'_, Shared>, reply: &Reply) {
        if turn.write(reply).is_err() {
            self.shut();
        }
    }

    /// Sends a reply to the writer. If the train is too slow to take it, the connection is cut.
    pub(crate) fn say<R: Wait>(&self, rt: &R, reply: Reply) {
        self.shared_writer.expect(&reply);
        if !self.offer(rt, reply) {
            self.cut();
        }
    }

    // Offers a reply to the writer. It returns false if the writer did not take it, since too many replies wait.
    fn offer<R: Wait>(&self, rt: &R, reply: Reply) -> bool {
        let mut left = reply;
        for _ in 0..OFFERS {
            match self.replies.try_send(rt, left) {
                Ok(()) => return true,
                Err(TrySendError::Full(back)) => left = back,
                Err(_) => return false,
            }
            thread::yield_now();
        }
        false
    }

    /// Ends the connection because its train is too slow.
    pub(crate) fn cut(&self) {
        self.is_cut.store(true, Ordering::SeqCst);
        self.shut();
    }

    /// Whether the train was too slow.
    pub(crate) fn is_cut(&self) -> bool {
        self.is_cut.load(Ordering::SeqCst)
    }

    /// Whether the centre ended it.
    pub(crate) fn is_ended(&self) -> bool {
        self.is_ended.load(Ordering::SeqCst)
    }

    /// Ends the connection in both directions.
    pub(crate) fn shut(&self) {
        self.is_ended.store(true, Ordering::SeqCst);
        let _ = self.stream.shutdown(Shutdown::Both);
    }
}
