//! Reads fields in the form of `decode --json`, and prints the bytes of their messages or their frame.

ghost use Rattle.std.specs.Prelude.{[], ◌++◌, ◌-◌, ◌∷◌, ◌≡◌, length, OnOk};
ghost use Rattle.text_fields.specs.Reports.{NamesRow, Reports, place_in};

use crate::reading::{field_in, objects_in};
use crate::shown::Shown;
use crate::written::{Written, WrittenFault, frame_of, message_of};
use serde_json::Value;
use std::alloc::{AllocError, AllocFailed, Global};
use std::io;
use std::io::Write;

/// Why bytes are not printed.
#[derive(Drop)]
pub enum EncodeFault {
    /// Memory ran out.
    Memory,
    /// The writer refused a write.
    Write,
    /// The fault of this line of the text, in words; lines count from 1.
    Line(usize, String),
}

impl From<AllocError> for EncodeFault {
    ghost use Rattle.text_fields.specs.declared.encode.EncodeFault.TheVariants.{Memory};

    ghost from_gives = { λ _ fault. fault ≡ Memory };

    fn from(_error: AllocError) -> EncodeFault {
        EncodeFault::Memory
    }
}

impl<T: Drop> From<AllocFailed<T>> for EncodeFault {
    ghost use Rattle.text_fields.specs.declared.encode.EncodeFault.TheVariants.{Memory};

    ghost from_gives = { λ _ fault. fault ≡ Memory };

    fn from(_error: AllocFailed<T>) -> EncodeFault {
        EncodeFault::Memory
    }
}

impl From<io::Error> for EncodeFault {
    fn from(_error: io::Error) -> EncodeFault {
        EncodeFault::Write
    }
}

/// Prints the bytes of the messages, or of the frames, whose fields are the lines of a text, in hexadecimal. Each has a
/// line. Messages differ in the number `message`. The lines of faults, and empty ones, are left out.
pub fn print_bytes<W: Write>(
    alloc: Global,
    text: &str,
    is_frame: bool,
    out: &mut W,
) -> Result<(), EncodeFault> {
    let objects = objects_in(alloc, text)?;
    let mut whole = Whole::new(alloc, is_frame);
    print_objects(&objects, &mut whole, out)
}

fn print_objects<'a, W: Write>(
    objects: &'a [(usize, Value)],
    whole: &mut Whole<'a>,
    out: &mut W,
) -> Result<(), EncodeFault> {
    for (row, object) in objects {
        match field_in(object) {
            Some((message, written)) => whole.add(*row, message, written, out)?,
            None => return Err(no_field(whole.alloc, *row)),
        }
    }
    whole.print(out)
}

// The fault of a line that is not a field.
fn no_field(alloc: Global, row: usize) -> EncodeFault
    ensures { NamesRow row result }
{
    let words = "name, value, from and to are wanted, as decode --json prints them";
    match String::from_str(alloc, words) {
        Ok(words) => EncodeFault::Line(row, words),
        Err(error) => error.into(),
    }
}

/// The fields of one message or frame, each with the number of its line.
#[derive(Drop)]
struct Whole<'a> {
    alloc: Global,
    is_frame: bool,
    message: u64,
    rows: Vec<usize>,
    written: Vec<Written<'a>>,
}

impl<'a> Whole<'a> {
    fn new(alloc: Global, is_frame: bool) -> Whole<'a>
        ensures kind { (result.is_frame ≡ is_frame) × (result.message ≡ 0) }
        ensures none { (result.rows.items ≡ []) × (result.written.items ≡ []) }
    {
        Whole {
            alloc,
            is_frame,
            message: 0,
            rows: Vec::new(alloc),
            written: Vec::new(alloc),
        }
    }

    // Adds the field of a line. A field of another message comes after the print of this one.
    fn add<W: Write>(
        &mut self,
        row: usize,
        message: u64,
        written: Written<'a>,
        out: &mut W,
    ) -> Result<(), EncodeFault> {
        if self.message != message {
            self.print(out)?;
            self.begin(message);
        }
        Ok(self.push(row, written)?)
    }

    // No field of this message is there yet.
    fn begin(&mut self, message: u64)
        ensures kind { (self.new.is_frame ≡ self.old.is_frame) × (self.new.message ≡ message) }
        ensures none { (self.new.rows.items ≡ []) × (self.new.written.items ≡ []) }
    {
        self.rows.clear();
        self.written.clear();
        self.message = message;
    }

    fn push(&mut self, row: usize, written: Written<'a>) -> Result<(), AllocError>
        ensures rows { OnOk result (self.new.rows.items ≡ self.old.rows.items ++ row ∷ []) }
        ensures written { OnOk result (self.new.written.items ≡ self.old.written.items ++ written.entry ∷ []) }
    {
        self.rows.push(row)?;
        self.written.push(written)?;
        Ok(())
    }

    // Prints the bytes, if it has a field.
    fn print<W: Write>(&self, out: &mut W) -> Result<(), EncodeFault> {
        if self.written.is_empty() {
            return Ok(());
        }
        match self.bytes() {
            Ok(bytes) => print_digits(self.alloc, &bytes, out),
            Err(fault) => Err(self.fault_of(fault)),
        }
    }

    // The bytes of the fields.
    fn bytes(&self) -> Result<Vec<u8>, WrittenFault> {
        if self.is_frame {
            frame_of(self.alloc, &self.written)
        } else {
            message_of(self.alloc, &self.written)
        }
    }

    // The line of a fault, and its words.
    fn fault_of(&self, fault: WrittenFault) -> EncodeFault
        ensures { Reports self.now.rows.items (place_in fault (length self.now.written.items - 1)) result }
    {
        if let WrittenFault::Memory = fault {
            return EncodeFault::Memory;
        }
        let last = self.written.len().saturating_sub(1);
        let place = place_in(fault, last);
        let row = self.rows.get(place).copied().unwrap_or(0);
        match self.words_of(fault, place) {
            Ok(words) => EncodeFault::Line(row, words),
            Err(fault) => fault.into(),
        }
    }

    // The words of a fault at the field of this place.
    fn words_of(&self, fault: WrittenFault, place: usize) -> Result<String, AllocError> {
        let alloc = self.alloc;
        let Some(written) = self.written.get(place).copied() else {
            return Ok(String::new(alloc));
        };
        match fault {
            WrittenFault::Memory => Err(AllocError),
            WrittenFault::Room(_) => no_room(alloc, written),
            WrittenFault::Long => {
                String::from_str(
                    alloc,
                    "more than 1023 bytes: no message or frame is as long",
                )
            }
            WrittenFault::Other(at, shown) if at > place => missing(alloc, shown),
            WrittenFault::Other(_, shown) => other(alloc, written, shown),
        }
    }
}

// The place of the field of a fault, or the last one.
fn place_in(fault: WrittenFault, last: usize) -> usize
    ensures { result ≡ place_in fault last }
{
    match fault {
        WrittenFault::Memory | WrittenFault::Long => 0,
        WrittenFault::Room(place) | WrittenFault::Other(place, _) => place.min(last),
    }
}

// Prints bytes on a line.
fn print_digits<W: Write>(alloc: Global, bytes: &[u8], out: &mut W) -> Result<(), EncodeFault> {
    let digits = hex::encode_upper(alloc, bytes)?;
    writeln!(out, "{digits}")?;
    Ok(out.flush()?)
}

// The words for a value without room.
fn no_room(alloc: Global, written: Written) -> Result<String, AllocError> {
    let Written { name, width, value } = written;
    if width > 64 {
        return format!(in alloc; "{name} of {width} bits: a field has 1 to 64 bits");
    }
    let greatest = u64::MAX >> (64 - width).min(63);
    format!(in alloc; "{name} {value}: {width} bits have the values 0 to {greatest}")
}

// The words for a field that is missing after the last one.
fn missing(alloc: Global, shown: Option<Shown>) -> Result<String, AllocError> {
    let Some(shown) = shown else {
        return Ok(String::new(alloc));
    };
    let name = shown.field.name;
    let width = shown.width;
    format!(in alloc; "{name} is missing after this field: {width} bits")
}

// The words for a field in place of another.
fn other(alloc: Global, written: Written, shown: Option<Shown>) -> Result<String, AllocError> {
    let Written { name, width, .. } = written;
    match shown {
        Some(shown) => {
            let there = shown.field.name;
            let bits = shown.width;
            format!(in alloc; "{name} of {width} bits: {there} of {bits} bits has to be here")
        }
        None => format!(in alloc; "{name} of {width} bits: no field is left here"),
    }
}
