ghost use Rattle.std.specs.Prelude.{ℕ, ◌≡◌, ◌≤◌, IfOk, length, List, OnOk, take};
ghost use Rattle.std.specs.Io.KnownBytes.{Appends, Consumes, IsAtEnd};
ghost use Rattle.cli_drive.specs.Messages.{AreMessages, IsMessage, messages_in, row_of};

use crate::fault::DriveFault;
use crate::head::{HEAD, length_of};
use crate::steps::Step;
use rbc_msgs::decode_track;
use std::alloc::Global;
use std::io::{ErrorKind, Read, Write};

/// The greatest length of a message in bytes.
const MOST_BYTES: usize = 1023;

/// Takes the steps in order over a connection to a centre. Prints each message that it reads in hexadecimal.
pub fn drive<C: Read + Write, O: Write>(
    alloc: Global,
    steps: &[Step],
    connection: &mut C,
    out: &mut O,
) -> Result<(), DriveFault>
    ensures { OnOk result ((bytes : List ℕ) × (text : List ℕ) × AreMessages (messages_in steps.now) bytes text
        × Appends (O.contents out.old) (O.contents out.new) text) }
{
    for step in steps {
        match step {
            Step::Send(bytes) => connection.write_all(bytes)?,
            Step::Wait(count) => {
                wait(alloc, *count, connection, out)?;
            }
        }
    }
    Ok(())
}

/// Reads to the end of a connection over which nothing more is sent. At the end the centre has taken all bytes. The
/// bytes that it sends meanwhile are dropped.
pub fn see_off<C: Read>(connection: &mut C) -> Result<(), DriveFault>
    ensures { OnOk result (IsAtEnd (C.remaining connection.new)) }
{
    let mut piece = [0u8; MOST_BYTES];
    for _ in 0..u64::MAX {
        match connection.read(&mut piece) {
            Ok(0) => return Ok(()),
            Err(error) if error.kind() != ErrorKind::Interrupted => break,
            _ => {}
        }
    }
    Err(DriveFault::Socket)
}

/// Reads and prints `count` messages. Returns the number of messages that were read.
fn wait<C: Read, O: Write>(
    alloc: Global,
    count: u16,
    connection: &mut C,
    out: &mut O,
) -> Result<u16, DriveFault>
    ensures count { IfOk result (λ read. read ≡ count) }
    ensures print { OnOk result ((bytes : List ℕ) × (text : List ℕ) × AreMessages count bytes text
        × Consumes (C.remaining connection.old) (C.remaining connection.new) bytes
        × Appends (O.contents out.old) (O.contents out.new) text) }
{
    let mut read = 0;
    for _ in 0..count {
        print_next(alloc, connection, out)?;
        read += 1;
    }
    Ok(read)
}

// Reads one message of a centre, and prints it.
fn print_next<C: Read, O: Write>(
    alloc: Global,
    connection: &mut C,
    out: &mut O,
) -> Result<(), DriveFault>
    ensures { OnOk result ((message : List ℕ) × IsMessage message
        × Consumes (C.remaining connection.old) (C.remaining connection.new) message
        × Appends (O.contents out.old) (O.contents out.new) (row_of message)) }
{
    let mut buffer = [0u8; MOST_BYTES];
    let length = next_message(connection, &mut buffer)?;
    print(alloc, &buffer[..length], out)
}

// Reads one message of a centre into the first bytes of a buffer. Returns its length.
fn next_message<C: Read>(connection: &mut C, buffer: &mut [u8]) -> Result<usize, DriveFault>
    requires { length buffer.old ≡ 1023 }
    ensures range { IfOk result (λ n. n ≤ 1023) }
    ensures message { IfOk result (λ n. IsMessage (take n buffer.new)) }
    ensures read { IfOk result (λ n.
        Consumes (C.remaining connection.old) (C.remaining connection.new) (take n buffer.new)) }
{
    let length = next_bytes(connection, buffer)?;
    match decode_track(&buffer[..length]) {
        Ok(_) => Ok(length),
        Err(_) => Err(DriveFault::Socket),
    }
}

// Reads the bytes up to L_MESSAGE, which is after NID_MESSAGE. Returns their number.
fn next_bytes<C: Read>(connection: &mut C, buffer: &mut [u8]) -> Result<usize, DriveFault>
    requires { length buffer.old ≡ 1023 }
    ensures range { IfOk result (λ n. n ≤ 1023) }
    ensures read { IfOk result (λ n.
        Consumes (C.remaining connection.old) (C.remaining connection.new) (take n buffer.new)) }
{
    connection.read_exact(&mut buffer[..HEAD])?;
    let length = length_of(buffer[1], buffer[2]);
    if length < HEAD || length > MOST_BYTES {
        return Err(DriveFault::Socket);
    }
    connection.read_exact(&mut buffer[HEAD..length])?;
    Ok(length)
}

// Prints a message in hexadecimal.
fn print<O: Write>(alloc: Global, message: &[u8], out: &mut O) -> Result<(), DriveFault>
    ensures { OnOk result (Appends (O.contents out.old) (O.contents out.new) (row_of message.now)) }
{
    let digits = hex::encode_upper(alloc, message)?;
    let printed = writeln!(out, "{digits}");
    if printed.is_err() || out.flush().is_err() {
        return Err(DriveFault::Write);
    }
    Ok(())
}
