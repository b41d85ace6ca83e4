//! Prints the bytes of messages or frames whose fields are given.

ghost use Rattle.std.specs.Prelude.{◌≡◌, ◌⊎◌, IfErr};
ghost use Rattle.text_script.specs.Status.Statuses.{status_of};

use crate::files::Files;
use std::alloc::{AllocError, Global};
use std::io::Write;
use text_fields::{EncodeFault, print_bytes};
use text_script::status::Fault;

/// Prints the bytes of the fields in this file, in the form of `decode --json`. A faulty line is named on standard
/// error, and the fault is that of a file which cannot be read.
pub fn encode<'a, F: Files, O: Write, E: Write>(
    alloc: Global,
    fields: &'a str,
    is_frame: bool,
    files: &F,
    out: &mut O,
    err: &mut E,
) -> Result<(), Fault<'a>>
    ensures { IfErr result (λ why. (status_of why ≡ 3) ⊎ (status_of why ≡ 5) ⊎ (status_of why ≡ 6)) }
{
    let Some(text) = files.text(fields) else {
        return Err(Fault::CannotRead(fields));
    };
    match print_bytes(alloc, text.as_str(), is_frame, out) {
        Ok(()) => Ok(()),
        Err(fault) => Err(fault_of(fields, fault, err)),
    }
}

// The fault of the command. A faulty line of the file is named.
fn fault_of<'a, E: Write>(fields: &'a str, fault: EncodeFault, err: &mut E) -> Fault<'a>
    ensures { (status_of result ≡ 3) ⊎ (status_of result ≡ 5) ⊎ (status_of result ≡ 6) }
{
    match fault {
        EncodeFault::Memory => AllocError.into(),
        EncodeFault::Write => Fault::Write,
        EncodeFault::Line(row, words) => match writeln!(err, "line {row}: {words}") {
            Ok(()) => Fault::CannotRead(fields),
            Err(_) => Fault::Write,
        },
    }
}
