ghost use Rattle.std.specs.Prelude.{◌≡◌};

use crate::reading::source::{ReadFailed, Source};
use std::io::{ErrorKind, Read};

/// A reader as a source: a socket, a file, or bytes in memory.
#[derive(Drop)]
pub struct Reads<R: Drop> {
    reader: R,
    failed: u64,
}

impl<R: Read + Drop> Reads<R> {
    /// The source that reads from this reader. No read of it has failed.
    pub fn new(reader: R) -> Reads<R>
        ensures reader { result.reader ≡ reader }
        ensures failures { result.failed ≡ 0 }
    {
        Reads { reader, failed: 0 }
    }
}

impl<R: Read + Drop> Source for Reads<R> {
    ghost left = { λ s. R.remaining s.reader };

    ghost failures = { λ s. s.failed };

    fn read(&mut self, buffer: &mut [u8]) -> Result<usize, ReadFailed> {
        // An interrupted read has not failed, as when the process is stopped and continues: it is tried again.
        for _ in 0..u64::MAX {
            match self.reader.read(buffer) {
                Ok(count) => return Ok(count),
                Err(error) if error.kind() == ErrorKind::Interrupted => {}
                Err(_) => break,
            }
        }
        self.failed += 1;
        Err(ReadFailed)
    }
}
