//! Drives a train by hand.

ghost use Rattle.std.specs.Prelude.{◌≡◌};
ghost use Rattle.text_script.specs.Status.Statuses.{status_of};
ghost use Rattle.rbc_cli.specs.Endings.{drive_status};

use cli_commands::disk::Disk;
use cli_commands::files::Files as _;
use cli_drive::{DriveFault, drive, see_off, steps_of};
use std::fs::File;
use std::io::Write;
use std::net::{IpAddr, Ipv4Addr, Net, Shutdown, SocketAddr, TcpStream};
use std::rt::Files;
use std::time::Duration;
use text_script::StepFault;
use text_script::status::Fault;

/// The longest time in seconds that a centre may send nothing after the last line. The train then ends, even if the
/// centre has not ended the connection.
const QUIET_S: u64 = 2;

/// Sends the lines of a file to the centre at this port of this host, and prints the messages that it reads. It waits
/// for the centre for the given time, or without a limit. After the last line it reads on until the centre ends the
/// connection, or sends nothing for `QUIET_S`. A centre that ends it has taken all lines.
pub fn run_train<'a, R: Net<Stream = TcpStream> + Files<File = File> + AllocGlobal, O: Write>(
    rt: &R,
    port: u16,
    file: &'a str,
    timeout_s: Option<u32>,
    out: &mut O,
) -> Result<(), Fault<'a>> {
    let Some(text) = Disk(rt).text(file) else {
        return Err(Fault::CannotRead(file));
    };
    match run_text(rt, port, text.as_str(), timeout_s, out) {
        Ok(()) => Ok(()),
        Err(fault) => Err(fault_of(fault)),
    }
}

/// The fault of the program, by that of a connection.
pub fn fault_of(fault: DriveFault) -> Fault<'static>
    ensures { status_of result ≡ drive_status fault }
{
    match fault {
        DriveFault::Memory => Fault::Step(StepFault::Memory),
        DriveFault::Form(row) => Fault::Script(row),
        DriveFault::Socket => Fault::Socket,
        DriveFault::Write => Fault::Write,
    }
}

fn run_text<R: Net<Stream = TcpStream> + AllocGlobal, O: Write>(
    rt: &R,
    port: u16,
    text: &str,
    timeout_s: Option<u32>,
    out: &mut O,
) -> Result<(), DriveFault> {
    let steps = steps_of(rt.alloc(), text)?;
    let address = SocketAddr::new(IpAddr::V4(Ipv4Addr::LOCALHOST), port);
    let mut stream = TcpStream::connect(rt, address)?;
    // A message leaves at once, also before the one before it is acknowledged.
    stream.set_nodelay(true)?;
    if let Some(seconds) = timeout_s {
        let timeout = Some(Duration::from_secs(u64::from(seconds)));
        stream.set_read_timeout(timeout)?;
        stream.set_write_timeout(timeout)?;
    }
    drive(rt.alloc(), &steps, &mut stream, out)?;
    finish(&mut stream);
    Ok(())
}

// Sends nothing more, and reads on. The lines are done: the centre decides how the connection ends.
fn finish(stream: &mut TcpStream) {
    let _ = stream.shutdown(Shutdown::Write);
    let _ = stream.set_read_timeout(Some(Duration::from_secs(QUIET_S)));
    let _ = see_off(stream);
}
