//! Prints messages and frames field by field, for a reader or as JSON.

ghost use Rattle.std.specs.Prelude.{◌≡◌, ◌≤◌, length};
ghost use Rattle.text_fields.specs.Sections.{sender_of};

use crate::fault::{frame_refusal, message_refusal};
use crate::messages::Side;
use crate::printer::Printer;
use crate::walk::{fields_of, fields_of_frame, first_message};
use std::alloc::{AllocError, AllocFailed, Global};
use std::io;
use std::io::Write;

/// How fields are printed.
#[derive(Clone, Copy, PartialEq, Eq)]
pub enum Form {
    /// A line for each field.
    Text,
    /// A JSON object in a line for each field.
    Json,
}

/// Why fields are not printed.
#[derive(Clone, Copy)]
pub enum PrintFault {
    /// Memory ran out.
    Memory,
    /// The writer refused a write.
    Write,
}

impl From<AllocError> for PrintFault {
    fn from(_error: AllocError) -> PrintFault {
        PrintFault::Memory
    }
}

impl<T: Drop> From<AllocFailed<T>> for PrintFault {
    fn from(_error: AllocFailed<T>) -> PrintFault {
        PrintFault::Memory
    }
}

impl From<io::Error> for PrintFault {
    fn from(_error: io::Error) -> PrintFault {
        PrintFault::Write
    }
}

/// Prints the messages that follow each other in the bytes. Returns whether a decoder reads all of them.
pub fn print_messages<W: Write>(
    alloc: Global,
    bytes: &[u8],
    form: Form,
    out: &mut W,
) -> Result<bool, PrintFault> {
    let mut rest = bytes;
    let mut count = 0u32;
    let mut are_good = true;
    for _ in 0..bytes.len() {
        if rest.is_empty() {
            break;
        }
        let (message, others) = rest.split_at(first_message(rest));
        rest = others;
        count = count.saturating_add(1);
        let is_good = print_message(alloc, message, form, count, out)?;
        are_good = are_good && is_good;
    }
    out.flush()?;
    Ok(are_good)
}

// Prints the message of this number. Returns whether a decoder reads it.
fn print_message<W: Write>(
    alloc: Global,
    message: &[u8],
    form: Form,
    count: u32,
    out: &mut W,
) -> Result<bool, PrintFault>
    requires { length message.now ≤ 1023 }
{
    let seen = fields_of(alloc, message)?;
    let refusal = message_refusal(alloc, message, &seen)?;
    let printer = Printer {
        alloc,
        form,
        count,
        side: side_of(message),
        is_frame: false,
    };
    printer.print_message(message.len(), &seen, refusal, out)?;
    Ok(refusal.is_none())
}

// The sender of a message.
fn side_of(message: &[u8]) -> Side
    ensures { result ≡ sender_of message.now }
{
    match message {
        [number, ..] => Side::of((*number).into()),
        [] => Side::Centre,
    }
}

/// Prints the frame that the bytes are. Returns whether the decoder reads it.
pub fn print_frame<W: Write>(
    alloc: Global,
    bytes: &[u8],
    form: Form,
    out: &mut W,
) -> Result<bool, PrintFault> {
    let bytes = &bytes[..bytes.len().min(MOST_BYTES)];
    let seen = fields_of_frame(alloc, bytes)?;
    let refusal = frame_refusal(bytes, &seen);
    let is_good = refusal.is_none();
    let printer = Printer {
        alloc,
        form,
        count: 1,
        side: Side::Centre,
        is_frame: true,
    };
    printer.print(&seen, refusal, out)?;
    out.flush()?;
    Ok(is_good)
}

// A frame has at most 38 bytes.
const MOST_BYTES: usize = 1_023;
