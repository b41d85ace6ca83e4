//! A client of the centres: a train or the interlocking.

use std::alloc::{AllocError, Global};
use std::io::{Error, ErrorKind, Read, Write};
use std::net::{SocketAddr, TcpStream};
use std::time::Duration;

/// The thing that a play expected and did not get.
#[derive(Clone, Copy, Debug)]
pub enum Missed {
    /// An open endpoint.
    Endpoint,
    /// A connection whose reads time out after `PATIENCE_S`.
    Waiting,
    /// A connection that accepts bytes.
    Taking,
    /// A successful read.
    Read,
    /// An answer before the connection ended.
    Ended,
    /// An answer within `PATIENCE_S` seconds.
    NoAnswer,
    /// This answer: another one was received.
    OtherAnswer,
    /// The end of a connection.
    StillOpen,
    /// An entry in a journal.
    Entry,
    /// A print or a journal, after the centres ended.
    Print,
    /// The exit status of the centres.
    Status,
    /// A run in the print.
    Audit,
    /// A note, or its number.
    Note,
    /// Hexadecimal digits.
    Digits,
    /// The time of the clock.
    Clock,
    /// Memory.
    Memory,
}

impl From<AllocError> for Missed {
    fn from(_: AllocError) -> Missed {
        Missed::Memory
    }
}

/// The result of a step of a play.
pub type Done<T> = Result<T, Missed>;

/// The seconds that a play waits for an answer. A busy host may give a centre no processor for seconds, so turns are
/// not counted.
pub const PATIENCE_S: u64 = 60;

/// A connection to an endpoint. Its reads wait for at most `PATIENCE_S` seconds.
pub fn connect(host: &HostRuntime, endpoint: SocketAddr) -> Done<TcpStream> {
    let stream = TcpStream::connect(host, endpoint)
        .ok()
        .ok_or(Missed::Endpoint)?;
    let patience = Duration::from_secs(PATIENCE_S);
    stream
        .set_read_timeout(Some(patience))
        .ok()
        .ok_or(Missed::Waiting)?;
    Ok(stream)
}

/// Sends these bytes.
pub fn say(stream: &TcpStream, bytes: &[u8]) -> Done<()> {
    let mut out = stream;
    out.write_all(bytes).ok().ok_or(Missed::Taking)?;
    Ok(())
}

/// The next `count` bytes.
pub fn heard(alloc: Global, stream: &TcpStream, count: usize) -> Done<Vec<u8>> {
    let mut bytes = vec![in alloc; 0u8; count]?;
    let mut input = stream;
    match input.read_exact(&mut bytes) {
        Ok(()) => Ok(bytes),
        Err(error) => Err(missed_by(&error)),
    }
}

/// The fault of a failed read.
pub fn missed_by(error: &Error) -> Missed {
    match error.kind() {
        ErrorKind::UnexpectedEof => Missed::Ended,
        ErrorKind::WouldBlock => Missed::NoAnswer,
        _ => Missed::Read,
    }
}

/// Sends the text, and expects this answer.
pub fn answers(alloc: Global, stream: &TcpStream, said: &str, wanted: &str) -> Done<()> {
    say(stream, said.as_bytes())?;
    if heard(alloc, stream, wanted.len())?.as_slice() != wanted.as_bytes() {
        return Err(Missed::OtherAnswer);
    }
    Ok(())
}

/// Whether the peer ends the connection without another byte.
pub fn is_ended(stream: &TcpStream) -> bool {
    let mut piece = [0u8; 1];
    let mut input = stream;
    match input.read(&mut piece) {
        Ok(count) => count == 0,
        Err(error) => error.kind() != ErrorKind::WouldBlock,
    }
}
