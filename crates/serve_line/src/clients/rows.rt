ghost use Rattle.std.specs.List.{position_or_len};
ghost use Rattle.std.specs.Prelude.{◌≡◌, ◌<◌, ◌≤◌, [], IfSome, length, position, vec_len};
ghost use Rattle.serve_line.specs.Rows.{Gives, is_feed};

use crate::clients::limits::MOST_ROW;
use crate::failures::is_rest;
use std::alloc::Global;
use std::io::Read;

/// The most bytes of one read.
const PIECE: usize = 256;

/// The lines of a connection.
#[derive(Drop)]
pub(crate) struct RowReader<R: Drop> {
    reader: R,
    // The bytes after the last line that was given.
    held: Vec<u8>,
}

/// The result of a read of a connection.
#[derive(Drop)]
pub(crate) enum Came {
    /// A line, without the line feed that ends it.
    Row(Vec<u8>),
    /// No complete line yet.
    Nothing,
    /// No further line: the connection has ended, a line is too long, or memory ran out.
    End,
}

impl<R: Read + Drop> RowReader<R> {
    /// A reader of lines that has read nothing yet.
    pub fn new(alloc: Global, reader: R) -> RowReader<R>
        ensures { result.held.items ≡ [] }
    {
        RowReader {
            reader,
            held: Vec::new(alloc),
        }
    }

    /// The next line, if it is complete; else it reads once. A last line needs no line feed.
    pub fn next(&mut self) -> Came
        ensures { Gives self.old.held.items result self.new.held.items }
    {
        let end = end_of_row(&self.held);
        if end < self.held.len() {
            return self.cut(end);
        }
        if end > MOST_ROW {
            return Came::End;
        }
        self.read()
    }

    // Takes off the line that ends at this place.
    fn cut(&mut self, end: usize) -> Came
        requires whole { end < vec_len self.old.held }
        requires first { position_or_len is_feed self.old.held.items ≡ end }
        ensures { Gives self.old.held.items result self.new.held.items }
    {
        let Ok(rest) = self.held.split_off(end + 1) else {
            return Came::End;
        };
        self.held.truncate(end);
        Came::Row(std::mem::replace(&mut self.held, rest))
    }

    // Reads once. No line is complete.
    fn read(&mut self) -> Came
        requires few { vec_len self.old.held ≤ 4096 }
        requires none { position_or_len is_feed self.old.held.items ≡ vec_len self.old.held }
        ensures { Gives self.old.held.items result self.new.held.items }
    {
        let mut piece = [0u8; PIECE];
        match self.reader.read(&mut piece) {
            Ok(0) => self.last(),
            Ok(count) => match self.held.extend_from_slice(&piece[..count]) {
                Ok(()) => Came::Nothing,
                Err(_) => Came::End,
            },
            Err(error) if is_rest(error.kind()) => Came::Nothing,
            Err(_) => Came::End,
        }
    }

    // The bytes after the last line feed.
    fn last(&mut self) -> Came
        requires none { position_or_len is_feed self.old.held.items ≡ vec_len self.old.held }
        ensures { Gives self.old.held.items result self.new.held.items }
    {
        if self.held.is_empty() {
            return Came::End;
        }
        let nothing = Vec::new(*self.held.allocator());
        Came::Row(std::mem::replace(&mut self.held, nothing))
    }
}

// The place of the first line feed. Without one it is the number of bytes.
fn end_of_row(bytes: &[u8]) -> usize
    ensures place { result ≡ position_or_len is_feed bytes.now }
    ensures within { result ≤ length bytes.now }
{
    match first_feed(bytes) {
        Some(place) => place,
        None => bytes.len(),
    }
}

// The place of the first line feed.
fn first_feed(bytes: &[u8]) -> Option<usize>
    ensures place { result ≡ position is_feed bytes.now }
    ensures bound { IfSome result (λ place. place < length bytes.now) }
{
    bytes.iter().position(|byte| *byte == b'\n')
}
