ghost use Rattle.std.specs.Prelude.{◌≡◌, false, IfNone, IfOk, IfSome};
ghost use Rattle.serve_line.specs.Addresses.{is_port, is_tcp, IsSameStream, listens_at_port, port_number, tcp_of};

use crate::state::limits::ENDPOINT_REST_MS;
use std::alloc::{AllocError, Global};
use std::fmt::{Display, Formatter};
use std::io::{ErrorKind, Read, Write};
use std::net::{Shutdown, SocketAddr, TcpListener, TcpStream};
use std::os::fd::OwnedFd;
use std::os::unix::net::{UnixListener, UnixStream};
use std::sync::Arc;
use std::time::Duration;
use std::{fmt, io};

/// A connection at an endpoint.
#[derive(Drop)]
pub enum PeerStream {
    /// Over a port of this host.
    Tcp(Arc<TcpStream, Global>),
    /// Over a Unix socket.
    Unix(Arc<UnixStream, Global>),
}

impl PeerStream {
    /// The same connection, for a further owner.
    pub fn try_clone(&self) -> Result<PeerStream, AllocError>
        ensures { IfOk result (λ copy. IsSameStream self.now copy) }
    {
        match self {
            PeerStream::Tcp(stream) => Ok(PeerStream::Tcp(Arc::try_clone(stream)?)),
            PeerStream::Unix(stream) => Ok(PeerStream::Unix(Arc::try_clone(stream)?)),
        }
    }

    /// The connection over a port; `None` if it is over a Unix socket.
    pub fn into_tcp(self) -> Option<Arc<TcpStream, Global>>
        ensures { result ≡ tcp_of self }
    {
        match self {
            PeerStream::Tcp(stream) => Some(stream),
            PeerStream::Unix(_) => None,
        }
    }

    /// Ends the connection in both directions.
    pub fn shut(&self) {
        let _ = match self {
            PeerStream::Tcp(stream) => stream.shutdown(Shutdown::Both),
            PeerStream::Unix(stream) => stream.shutdown(Shutdown::Both),
        };
    }

    /// Lets the connection send at once. Each read and each write waits for the client no longer than these times.
    pub fn set_waits(&self, reading: Duration, writing: Duration) {
        match self {
            PeerStream::Tcp(stream) => set_waits(stream, reading, writing),
            PeerStream::Unix(stream) => {
                let _ = stream.set_read_timeout(Some(reading));
                let _ = stream.set_write_timeout(Some(writing));
            }
        }
    }
}

/// Lets a connection send at once. Each read and each write waits for the client no longer than these times.
pub(crate) fn set_waits(stream: &TcpStream, reading: Duration, writing: Duration) {
    let _ = stream.set_nodelay(true);
    let _ = stream.set_read_timeout(Some(reading));
    let _ = stream.set_write_timeout(Some(writing));
}

/// Lets `accept` on a listener wait for `ENDPOINT_REST_MS` at most. A further open file of the listener is enough.
pub(crate) fn bound_accept(listener: OwnedFd) -> io::Result<()> {
    // The limit is one of all sockets, and a listener has no call of its own for it.
    TcpStream::from(listener).set_read_timeout(Some(Duration::from_millis(ENDPOINT_REST_MS)))
}

impl Read for &PeerStream {
    fn read(&mut self, buf: &mut [u8]) -> io::Result<usize> {
        match *self {
            PeerStream::Tcp(stream) => {
                let mut reader: &TcpStream = stream;
                reader.read(buf)
            }
            PeerStream::Unix(stream) => {
                let mut reader: &UnixStream = stream;
                reader.read(buf)
            }
        }
    }
}

impl Write for &PeerStream {
    fn write(&mut self, buf: &[u8]) -> io::Result<usize> {
        match *self {
            PeerStream::Tcp(stream) => {
                let mut out: &TcpStream = stream;
                out.write(buf)
            }
            PeerStream::Unix(stream) => {
                let mut out: &UnixStream = stream;
                out.write(buf)
            }
        }
    }

    fn flush(&mut self) -> io::Result<()> {
        Ok(())
    }
}

/// The source of an endpoint's connections; `accept` on it waits for `ENDPOINT_REST_MS` at most.
#[derive(Drop)]
pub enum Listener {
    /// A port of this host.
    Tcp(TcpListener),
    /// A Unix socket.
    Unix(UnixListener),
}

impl Listener {
    /// The next connection. An error of the kind `WouldBlock` means that none came.
    pub fn accept(&self, alloc: Global) -> io::Result<PeerStream>
        ensures { IfOk result (λ stream. is_tcp stream ≡ listens_at_port self.now) }
    {
        let stream = match self {
            Listener::Tcp(listener) => {
                let (stream, _) = listener.accept()?;
                match Arc::new(alloc, stream) {
                    Ok(stream) => Some(PeerStream::Tcp(stream)),
                    Err(_) => None,
                }
            }
            Listener::Unix(listener) => {
                let (stream, _) = listener.accept()?;
                match Arc::new(alloc, stream) {
                    Ok(stream) => Some(PeerStream::Unix(stream)),
                    Err(_) => None,
                }
            }
        };
        stream.ok_or(io::Error::from(ErrorKind::OutOfMemory))
    }

    /// A further open file of the same source.
    pub fn try_clone(&self) -> io::Result<Listener>
        ensures { IfOk result (λ copy. listens_at_port copy ≡ listens_at_port self.now) }
    {
        match self {
            Listener::Tcp(listener) => Ok(Listener::Tcp(listener.try_clone()?)),
            Listener::Unix(listener) => Ok(Listener::Unix(listener.try_clone()?)),
        }
    }
}

/// The address of an endpoint.
#[derive(Drop)]
pub enum Address {
    /// A port of this host.
    Port(SocketAddr),
    /// The path of a Unix socket.
    Path(String),
}

impl Address {
    /// The number of the port; 0 if it is a path.
    pub fn port(&self) -> u16
        ensures { result ≡ port_number self.now }
    {
        match self {
            Address::Port(address) => address.port(),
            Address::Path(_) => 0,
        }
    }

    /// The address of the port; `None` if it is a path.
    pub fn socket(&self) -> Option<SocketAddr>
        ensures some { IfSome result (λ address. self.now ≡ Address.Port address) }
        ensures none { IfNone result (is_port self.now ≡ false) }
    {
        match self {
            Address::Port(address) => Some(*address),
            Address::Path(_) => None,
        }
    }
}

impl Display for Address {
    fn fmt<W: fmt::Write>(&self, f: &mut Formatter<W>) -> fmt::Result {
        match self {
            Address::Port(address) => write!(f, "{address}"),
            Address::Path(path) => write!(f, "{path}"),
        }
    }
}
