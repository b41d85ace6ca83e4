//! The bytes of a connection, as messages of a centre or as lines.

ghost use Rattle.std.specs.Prelude.{[], ◌+◌, ◌++◌, ◌<◌, ◌≡◌, ◌≤◌, drop, IfOk, IfSome, length, OnOk, option_map, take};
ghost use Rattle.std.specs.Prelude.{vec_len};
ghost use Rattle.cli_drive.specs.Inboxes.{first_length, IsCut, IsRowCut, row_end};

use crate::head::{HEAD, length_of};
use std::alloc::{AllocError, Global};
use std::mem;

/// The longest line of the control endpoint that is kept, in bytes.
const MOST_ROW: usize = 65_536;

/// The bytes of a connection that are not yet a whole message.
#[derive(Drop)]
pub(crate) struct Inbox {
    bytes: Vec<u8>,
}

/// The first message of an inbox.
#[derive(Drop)]
pub(crate) enum Came {
    /// Its bytes.
    Message(Vec<u8>),
    /// It is not whole.
    Nothing,
    /// The bytes are not a message.
    Garbage,
}

impl Inbox {
    pub(crate) fn new(alloc: Global) -> Inbox
        ensures { result.bytes.items ≡ [] }
    {
        Inbox {
            bytes: Vec::new(alloc),
        }
    }

    /// These bytes have arrived.
    pub(crate) fn add(&mut self, piece: &[u8]) -> Result<(), AllocError>
        ensures { OnOk result (self.new.bytes.items ≡ self.old.bytes.items ++ piece.now) }
    {
        self.bytes.extend_from_slice(piece)
    }

    /// Takes the first message out.
    pub(crate) fn message(&mut self) -> Result<Came, AllocError>
        ensures { IfOk result (λ came. IsCut self.old.bytes.items came self.new.bytes.items) }
    {
        let Some(length) = first_length(&self.bytes) else {
            return Ok(Came::Nothing);
        };
        if length < HEAD {
            return Ok(Came::Garbage);
        }
        if self.bytes.len() < length {
            return Ok(Came::Nothing);
        }
        Ok(Came::Message(self.cut(length)?))
    }

    /// Takes the first line out, without its line feed. A longer line than is kept is dropped.
    pub(crate) fn row(&mut self) -> Result<Option<Vec<u8>>, AllocError>
        ensures { IfOk result (λ row. IsRowCut self.old.bytes.items (option_map (λ row. row.items) row)
            self.new.bytes.items) }
    {
        if let Some(end) = row_end(&self.bytes) {
            return Ok(Some(self.cut_row(end)?));
        }
        if self.bytes.len() > MOST_ROW {
            self.bytes.clear();
        }
        Ok(None)
    }

    // Takes the bytes before the line feed at this place out, and drops it.
    fn cut_row(&mut self, end: usize) -> Result<Vec<u8>, AllocError>
        requires { end < vec_len self.old.bytes }
        ensures taken { IfOk result (λ row. row.items ≡ take end self.old.bytes.items) }
        ensures left { OnOk result (self.new.bytes.items ≡ drop (end + 1) self.old.bytes.items) }
    {
        let mut row = self.cut(end + 1)?;
        row.truncate(end);
        Ok(row)
    }

    // Takes this many bytes out.
    fn cut(&mut self, count: usize) -> Result<Vec<u8>, AllocError>
        requires { count ≤ vec_len self.old.bytes }
        ensures taken { IfOk result (λ taken. taken.items ≡ take count self.old.bytes.items) }
        ensures left { OnOk result (self.new.bytes.items ≡ drop count self.old.bytes.items) }
    {
        let rest = self.bytes.split_off(count)?;
        Ok(mem::replace(&mut self.bytes, rest))
    }
}

// The place of the first line feed.
fn row_end(bytes: &[u8]) -> Option<usize>
    ensures place { result ≡ row_end bytes.now }
    ensures range { IfSome result (λ end. end < length bytes.now) }
{
    bytes.iter().position(|byte| *byte == b'\n')
}

// L_MESSAGE of the first message.
fn first_length(bytes: &[u8]) -> Option<usize>
    ensures { result ≡ first_length bytes.now }
{
    match bytes {
        [_, second, third, ..] => Some(length_of(*second, *third)),
        _ => None,
    }
}
