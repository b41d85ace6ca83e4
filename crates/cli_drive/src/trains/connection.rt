//! A connection to a port of this host that is opened again when it fails.

ghost use Rattle.std.specs.Prelude.{[], ◌&&◌, ◌+◌, ◌-◌, ◌<◌, ◌≡◌, ◌≤◌, ◌^◌, Err, is_some, min, nat_le, None, not, Ok};
ghost use Rattle.std.specs.Prelude.{true};
ghost use Rattle.std.specs.Prelude.{false, OnOk};
ghost use Rattle.cli_drive.specs.Failures.{is_nothing};
ghost use Rattle.cli_drive.specs.declared.trains.fault.TrainsFault.TheVariants.{Socket};

use crate::trains::fault::TrainsFault;
use crate::trains::inbox::Inbox;
use std::alloc::Global;
use std::io::{ErrorKind, Read, Write};
use std::net::{IpAddr, Ipv4Addr, Net, SocketAddr, TcpStream};

/// After this time a connection is opened again, in units of 10 ms.
const AGAIN: u32 = 200;

/// How often in succession a connection may fail to open.
const MOST_TRIES: u32 = 600;

/// How many pieces are read of a connection at once.
const MOST_PIECES: u32 = 64;

/// A connection to a port, if it is open.
#[derive(Drop)]
pub(crate) struct Connection {
    alloc: Global,
    port: u16,
    stream: Option<TcpStream>,
    pub(crate) inbox: Inbox,
    /// When it may be opened, in units of 10 ms.
    next: u32,
    /// How often it has failed to open since it was open last.
    tries: u32,
    /// How often it was opened.
    pub(crate) opened: u32,
}

impl Connection {
    ghost use Rattle.cli_drive.specs.Connections.{HasEnded, HasRead, is_due, KeepsCounts};

    pub(crate) fn new(alloc: Global, port: u16) -> Connection
        ensures port { result.port ≡ port }
        ensures shut { (result.stream ≡ None) × (result.inbox.bytes.items ≡ []) }
        ensures counts { (result.next ≡ 0) × (result.tries ≡ 0) × (result.opened ≡ 0) }
    {
        Connection {
            alloc,
            port,
            stream: None,
            inbox: Inbox::new(alloc),
            next: 0,
            tries: 0,
            opened: 0,
        }
    }

    /// Whether it is open.
    pub(crate) fn is_open(&self) -> bool
        ensures { result ≡ is_some self.now.stream }
    {
        self.stream.is_some()
    }

    /// It ends. A part of a message that has arrived is dropped.
    pub(crate) fn end(&mut self)
        ensures shut { HasEnded self.new }
        ensures counts { KeepsCounts self.old self.new }
    {
        self.stream = None;
        self.inbox = Inbox::new(self.alloc);
    }

    // Opens it, if it is not open and it is time. An error means that it has failed too often.
    fn open<R: Net<Stream = TcpStream>>(&mut self, rt: &R, now: u32) -> Result<(), TrainsFault>
        ensures early { is_due self.old now ≡ false → (result ≡ Ok tt) × (self.new ≡ self.old) }
        ensures again { is_due self.old now ≡ true → self.new.next ≡ min (now + AGAIN) (2 ^ 32 - 1) }
        ensures open { is_due self.old now ≡ true → is_some self.new.stream ≡ true → (result ≡ Ok tt)
            × (self.new.opened ≡ min (self.old.opened + 1) (2 ^ 32 - 1)) × (self.new.tries ≡ 0)
            × (self.new.inbox.bytes.items ≡ []) }
        ensures failed { is_due self.old now ≡ true → self.new.stream ≡ None
            → (self.new.opened ≡ self.old.opened) × (MOST_TRIES ≤ self.old.tries → result ≡ Err Socket)
            × (self.old.tries < MOST_TRIES → (result ≡ Ok tt) × (self.new.tries ≡ self.old.tries + 1)) }
        ensures port { self.new.port ≡ self.old.port }
    {
        if !self.is_due(now) {
            return Ok(());
        }
        self.next = now.saturating_add(AGAIN);
        match opened(rt, self.port) {
            Some(stream) => {
                self.begin(stream);
                Ok(())
            }
            None => self.fail(),
        }
    }

    // Whether it is to be opened: it is not open, and it is time.
    fn is_due(&self, now: u32) -> bool
        ensures { result ≡ is_due self.now now }
    {
        !self.is_open() && self.next <= now
    }

    // It was opened.
    fn begin(&mut self, stream: TcpStream)
        ensures open { (is_some self.new.stream ≡ true) × (self.new.inbox.bytes.items ≡ []) }
        ensures counts { (self.new.port ≡ self.old.port) × (self.new.next ≡ self.old.next) × (self.new.tries ≡ 0)
            × (self.new.opened ≡ min (self.old.opened + 1) (2 ^ 32 - 1)) }
    {
        self.inbox = Inbox::new(self.alloc);
        self.stream = Some(stream);
        self.tries = 0;
        self.opened = self.opened.saturating_add(1);
    }

    // It failed to open. An error means that it has failed too often.
    fn fail(&mut self) -> Result<(), TrainsFault>
        ensures often { MOST_TRIES ≤ self.old.tries → (result ≡ Err Socket) × (self.new ≡ self.old) }
        ensures again { self.old.tries < MOST_TRIES → (result ≡ Ok tt)
            × (self.new ≡ record self.old { tries = self.old.tries + 1 }) }
    {
        if self.tries >= MOST_TRIES {
            return Err(TrainsFault::Socket);
        }
        self.tries += 1;
        Ok(())
    }

    /// Opens it, if it is not open and it is time, and sends these bytes.
    pub(crate) fn say<R: Net<Stream = TcpStream>>(
        &mut self,
        rt: &R,
        bytes: &[u8],
        now: u32,
    ) -> Result<(), TrainsFault>
        ensures { self.new.port ≡ self.old.port }
    {
        self.open(rt, now)?;
        self.send(bytes);
        Ok(())
    }

    // Sends these bytes, if it is open. If it does not take all of them at once, it ends.
    fn send(&mut self, bytes: &[u8])
        ensures sent { is_some self.new.stream ≡ true → (is_some self.old.stream ≡ true)
            × (self.new.inbox ≡ self.old.inbox) }
        ensures ended { is_some self.old.stream ≡ true → self.new.stream ≡ None → HasEnded self.new }
        ensures shut { self.old.stream ≡ None → self.new ≡ self.old }
        ensures counts { KeepsCounts self.old self.new }
    {
        let Some(stream) = &mut self.stream else {
            return;
        };
        let is_sent = match stream.write(bytes) {
            Ok(count) => count == bytes.len(),
            Err(_) => false,
        };
        if !is_sent {
            self.end();
        }
    }

    /// Reads the bytes that have arrived. If the peer has ended the connection, it ends.
    pub(crate) fn read(&mut self) -> Result<(), TrainsFault>
        ensures read { OnOk result (HasRead self.old self.new) }
        ensures counts { KeepsCounts self.old self.new }
    {
        for _ in 0..MOST_PIECES {
            if !self.read_piece()? {
                break;
            }
        }
        Ok(())
    }

    // Reads one piece. Returns whether more bytes may have arrived.
    fn read_piece(&mut self) -> Result<bool, TrainsFault>
        ensures read { OnOk result (HasRead self.old self.new) }
        ensures counts { KeepsCounts self.old self.new }
    {
        let mut piece = [0u8; 1_024];
        let Some(stream) = &mut self.stream else {
            return Ok(false);
        };
        match stream.read(&mut piece) {
            Ok(count) if count > 0 => {
                let Some(bytes) = piece.get(..count) else {
                    return Ok(false);
                };
                self.inbox.add(bytes)?;
                Ok(true)
            }
            Err(error) if is_nothing(error.kind()) => Ok(false),
            _ => {
                self.end();
                Ok(false)
            }
        }
    }
}

// Whether a read has only found nothing yet.
fn is_nothing(kind: ErrorKind) -> bool
    ensures { result ≡ is_nothing kind }
{
    matches!(
        kind,
        ErrorKind::WouldBlock | ErrorKind::TimedOut | ErrorKind::Interrupted
    )
}

// A connection to this port that never waits.
fn opened<R: Net<Stream = TcpStream>>(rt: &R, port: u16) -> Option<TcpStream> {
    let address = SocketAddr::new(IpAddr::V4(Ipv4Addr::LOCALHOST), port);
    let Ok(stream) = TcpStream::connect(rt, address) else {
        return None;
    };
    if stream.set_nodelay(true).is_err() || stream.set_nonblocking(true).is_err() {
        return None;
    }
    Some(stream)
}
