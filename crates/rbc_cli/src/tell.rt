//! Sends lines to the interlocking's endpoint of running centres.

ghost use Rattle.std.specs.Prelude.{◌≡◌, IfSome, map};
ghost use Rattle.rbc_cli.specs.Addresses.{IsAddress};
ghost use Rattle.rbc_cli.specs.Endings.{IsTold};
ghost use Rattle.rbc_cli.specs.Stops.{ends_with_stop};

use crate::train::fault_of;
use cli_commands::disk::Disk;
use cli_commands::files::Files as _;
use cli_commands::words::{TellWords, lines_of};
use cli_drive::telling::{LinesFault, Verdict, copy_answers, is_stop, judge, lines_in, request_of};
use cli_drive::{DriveFault, see_off};
use std::alloc::AllocError;
use std::fs::File;
use std::io;
use std::io::Write;
use std::net::{IpAddr, Ipv4Addr, Net, Shutdown, SocketAddr, TcpStream};
use std::os::fd::OwnedFd;
use std::os::unix::net::UnixStream;
use std::rt::Files;
use std::time::Duration;
use text_script::status::{Fault, report};

/// The name of standard input.
const INPUT: &str = "-";

/// The address of the interlocking's endpoint.
#[derive(Clone, Copy)]
enum Address<'a> {
    /// A port of this host.
    Port(u16),
    /// The path of a Unix socket.
    Path(&'a str),
}

/// The endpoint, and how long the client waits for it at each read and write.
#[derive(Clone, Copy)]
struct Callee<'a> {
    address: Address<'a>,
    timeout: Option<Duration>,
}

/// Why lines are not answered.
#[derive(Drop)]
enum TellFault<'a> {
    /// The fault of the program: its text and status are those of any command.
    Run(Fault<'a>),
    /// The endpoint is a number, but not that of a port.
    Port(&'a str),
    /// The lines are not sent.
    Lines(LinesFault),
}

impl From<AllocError> for TellFault<'_> {
    fn from(error: AllocError) -> Self {
        TellFault::Run(error.into())
    }
}

impl From<DriveFault> for TellFault<'_> {
    fn from(fault: DriveFault) -> Self {
        TellFault::Run(fault_of(fault))
    }
}

/// Sends the lines of the arguments, or of standard input if there are none, to the interlocking's endpoint. Prints the
/// answers, and returns the exit status: that of the verdict on them.
pub fn run_tell<R: Net<Stream = TcpStream> + Files<File = File> + AllocGlobal, O: Write, E: Write>(
    rt: &R,
    arguments: &[String],
    words: TellWords<'_>,
    out: &mut O,
    err: &mut E,
) -> u8 {
    let told = tell(rt, arguments, words, out);
    told_status(told, out, err)
}

// The exit status: that of the verdict, or that of the fault, which is reported.
fn told_status<O: Write, E: Write>(
    told: Result<Verdict, TellFault<'_>>,
    out: &mut O,
    err: &mut E,
) -> u8
    ensures { IsTold told.entry result }
{
    let written = match told {
        Ok(Verdict::Short) => return report(&Fault::Socket, out, err),
        Ok(verdict) => return verdict.status(),
        Err(TellFault::Run(fault)) => return report(&fault, out, err),
        Err(TellFault::Lines(LinesFault::Memory)) => {
            return report(&AllocError.into(), out, err);
        }
        Err(TellFault::Lines(fault)) => writeln!(err, "{fault}"),
        Err(TellFault::Port(number)) => writeln!(
            err,
            "rbcline: {number} is not a port: give a number from 1 to 65535, or the path of a socket (as ./{number})"
        ),
    };
    match written {
        Ok(()) => 2,
        Err(_) => 6,
    }
}

// Reads the lines, sends them, and judges the answers.
fn tell<'a, R: Net<Stream = TcpStream> + Files<File = File> + AllocGlobal, O: Write>(
    rt: &R,
    arguments: &'a [String],
    words: TellWords<'a>,
    out: &mut O,
) -> Result<Verdict, TellFault<'a>> {
    let callee = callee_of(words).ok_or(TellFault::Port(words.endpoint))?;
    let given = match lines_of(rt.alloc(), arguments) {
        Ok(given) => given,
        Err(fault) => return Err(TellFault::Run(fault)),
    };
    if !given.is_empty() {
        return tell_lines(rt, callee, &given, out);
    }
    let Some(text) = Disk(rt).text(INPUT) else {
        return Err(TellFault::Run(Fault::CannotRead(INPUT)));
    };
    let lines = lines_in(rt.alloc(), text.as_str())?;
    tell_lines(rt, callee, &lines, out)
}

// Sends the lines over a connection of their own, and judges the answers. If `stop` is the last, it then waits until
// the last train's connection has ended: the centres end a further connection after that.
fn tell_lines<'a, R: Net<Stream = TcpStream> + AllocGlobal, O: Write>(
    rt: &R,
    callee: Callee<'_>,
    lines: &[&str],
    out: &mut O,
) -> Result<Verdict, TellFault<'a>> {
    let request = match request_of(rt.alloc(), lines) {
        Ok(request) => request,
        Err(fault) => return Err(TellFault::Lines(fault)),
    };
    let waiting = if ends_with_stop(lines) {
        Some(connect(rt, callee)?)
    } else {
        None
    };
    let mut stream = connect(rt, callee)?;
    send(&mut stream, &request)?;
    let answers = copy_answers(rt.alloc(), &mut stream, out)?;
    if let Some(mut waiting) = waiting {
        see_off(&mut waiting)?;
    }
    Ok(judge(rt.alloc(), lines, &answers)?)
}

// Whether the last of the lines stops the centres.
fn ends_with_stop(lines: &[&str]) -> bool
    ensures { result ≡ ends_with_stop (map (λ line. line.now) lines.now) }
{
    match lines.last() {
        Some(line) => is_stop(line),
        None => false,
    }
}

// Sends the lines, and nothing more: the endpoint ends the connection after the last answer.
fn send(stream: &mut TcpStream, request: &[u8]) -> Result<(), DriveFault> {
    stream.write_all(request)?;
    stream.shutdown(Shutdown::Write)?;
    Ok(())
}

// The endpoint of the arguments. `None` if it is a number, but not that of a port.
fn callee_of<'a>(words: TellWords<'a>) -> Option<Callee<'a>>
    ensures { IfSome result (λ callee. IsAddress words.entry.endpoint.now callee.address) }
{
    let address = address_of(words.endpoint)?;
    let timeout = match words.timeout_s {
        Some(seconds) => Some(Duration::from_secs(u64::from(seconds))),
        None => None,
    };
    Some(Callee { address, timeout })
}

// The address of an endpoint. `None` if it is a number, but not that of a port.
fn address_of(endpoint: &str) -> Option<Address<'_>>
    ensures { IfSome result (IsAddress endpoint.now) }
{
    let is_number = !endpoint.is_empty() && endpoint.bytes().all(|byte| byte.is_ascii_digit());
    if !is_number {
        return Some(Address::Path(endpoint));
    }
    match endpoint.parse::<u16>() {
        Ok(port) if port > 0 => Some(Address::Port(port)),
        _ => None,
    }
}

fn connect<R: Net<Stream = TcpStream>>(
    rt: &R,
    callee: Callee<'_>,
) -> Result<TcpStream, DriveFault> {
    let stream = opened(rt, callee.address)?;
    stream.set_read_timeout(callee.timeout)?;
    stream.set_write_timeout(callee.timeout)?;
    Ok(stream)
}

// A connection to the address. The calls of a TCP connection that are used here are those of any socket.
fn opened<R: Net<Stream = TcpStream>>(rt: &R, address: Address<'_>) -> io::Result<TcpStream> {
    match address {
        Address::Port(port) => {
            let address = SocketAddr::new(IpAddr::V4(Ipv4Addr::LOCALHOST), port);
            TcpStream::connect(rt, address)
        }
        Address::Path(path) => {
            let stream = UnixStream::connect(rt, path)?;
            Ok(TcpStream::from(OwnedFd::from(stream)))
        }
    }
}
