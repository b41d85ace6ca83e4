//! Writes that end with a flush.

ghost use Rattle.std.specs.Io.KnownBytes.{Appends};
ghost use Rattle.std.specs.Prelude.{◌≡◌, ◌⊎◌, IsErrOf, OnOk};
ghost use Rattle.text_script.specs.declared.status.fault.Fault.TheVariants.{Write as Refused};

use std::fmt::Display;
use std::io;
use std::io::Write;
use text_script::status::Fault;

/// Writes a line.
pub fn tell<W: Write, T: Display + Drop>(out: &mut W, text: T) -> io::Result<()> {
    writeln!(out, "{text}")?;
    out.flush()
}

/// Writes all of these bytes.
pub fn write_whole<W: Write>(out: &mut W, bytes: &[u8]) -> io::Result<()>
    ensures { OnOk result (Appends (W.contents out.old) (W.contents out.new) bytes.now) }
{
    out.write_all(bytes)?;
    out.flush()
}

/// The result of a print, after the writer has all of it. A refused write is a fault.
pub fn flushed<'a, W: Write, T: Drop>(
    out: &mut W,
    done: Result<T, Fault<'a>>,
) -> Result<T, Fault<'a>>
    ensures { (result ≡ done.entry) ⊎ IsErrOf result Refused }
{
    match out.flush() {
        Ok(()) => done,
        Err(_) => Err(Fault::Write),
    }
}
