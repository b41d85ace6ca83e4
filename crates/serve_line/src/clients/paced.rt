ghost use Rattle.std.specs.Prelude.{◌≡◌, ◌+◌, ◌<◌, ◌≤◌, ℕ, false, IfNone, IfSome, IsTrue};
ghost use Rattle.std.specs.Prelude.{length, min, slice_get, slice_index, Some};

use crate::clients::binding::Binding;
use crate::clients::cutter::{Cutter, Head};
use crate::clients::rate_limit::RateLimit;
use serve_workers::reading::{ReadFailed, Source};
use std::io::{ErrorKind, Read};
use std::net::TcpStream;
use std::sync::Wait;
use std::time::Clock;

/// The most bytes of one read.
const PIECE: usize = 4_096;

/// The bytes of a train's connection. The last byte of a message is given when the engine of the message may send one
/// more. Until then that byte waits, and all following bytes.
#[derive(Drop)]
pub(crate) struct Paced<'a, R> {
    pieces: Pieces<'a, R>,
    failed: u64,
}

/// The bytes read from the connection, in pieces.
#[derive(Drop)]
struct Pieces<'a, R> {
    stream: &'a TcpStream,
    rate_limit: RateLimit<'a, R>,
    binding: Binding<'a, R>,
    // The engine of the message that was refused, since its train is served over another connection or none.
    refused: Option<u32>,
    cutter: Cutter,
    // The last piece read, and the number of its bytes that were given.
    piece: [u8; PIECE],
    end: usize,
    given: usize,
}

impl<'a, R: Wait + Clock> Paced<'a, R> {
    /// The bytes of a connection before its first byte.
    pub fn new(
        stream: &'a TcpStream,
        rate_limit: RateLimit<'a, R>,
        binding: Binding<'a, R>,
    ) -> Paced<'a, R>
        ensures failures { result.failed ≡ 0 }
    {
        let pieces = Pieces {
            stream,
            rate_limit,
            binding,
            refused: None,
            cutter: Cutter::FIRST,
            piece: [0; PIECE],
            end: 0,
            given: 0,
        };
        Paced { pieces, failed: 0 }
    }

    /// The engine of the message at which the connection ended, if that message was refused.
    pub fn refused(&self) -> Option<u32>
        ensures { result ≡ self.now.pieces.refused }
    {
        self.pieces.refused
    }
}

impl<R: Wait + Clock> Pieces<'_, R> {
    // The next byte to give, if one was read.
    fn next(&self) -> Option<u8>
        ensures some { IfSome result (λ byte. (self.now.given < self.now.end)
            × (slice_get self.now.piece self.now.given ≡ Some byte)) }
        ensures none { IfNone result (min self.now.end 4096 ≤ self.now.given) }
    {
        if self.given >= self.end {
            return None;
        }
        self.piece.get(self.given).copied()
    }

    // Reads a piece. The result is whether the read succeeded, also at the end of the stream. An interrupted read is
    // tried again.
    fn fill(&mut self) -> bool
        ensures read { IsTrue result → (self.new.given ≡ 0) × (self.new.end ≤ 4096) }
        ensures failed { result ≡ false → (self.new.given ≡ self.old.given) × (self.new.end ≡ self.old.end) }
    {
        for _ in 0..u64::MAX {
            let mut reader = self.stream;
            match reader.read(&mut self.piece) {
                Ok(count) => {
                    self.end = count;
                    self.given = 0;
                    return true;
                }
                Err(error) if error.kind() == ErrorKind::Interrupted => {}
                Err(_) => return false,
            }
        }
        false
    }

    // Gives bytes that were read, up to the last byte of a message. That byte is given first, after a wait. The result
    // is the number of bytes; `None` if the message is not taken.
    fn give(&mut self, buffer: &mut [u8]) -> Option<usize>
        ensures count { IfSome result (λ n. (n ≤ length buffer.new) × (self.new.given ≡ self.old.given + n)) }
        ensures bytes { IfSome result (λ n. (k : ℕ) → k < n
            → slice_index buffer.new k ≡ slice_index self.old.piece (self.old.given + k)) }
    {
        let mut count = 0usize;
        for place in buffer.iter_mut() {
            let Some(byte) = self.next() else {
                break;
            };
            let mut cutter = self.cutter;
            if let Some(head) = cutter.take(byte) {
                if count > 0 {
                    break;
                }
                if !self.admits(head) {
                    return None;
                }
            }
            *place = byte;
            self.cutter = cutter;
            self.given = self.given.saturating_add(1);
            count = count.saturating_add(1);
        }
        Some(count)
    }

    // Waits until a message may pass. The result is whether it is taken. If not, the connection has to leave its slot,
    // or the message is refused. A message that is refused at once takes nothing from the rate of its train.
    fn admits(&mut self, head: Head) -> bool
        ensures given { self.new.given ≡ self.old.given }
        ensures end { self.new.end ≡ self.old.end }
        ensures piece { self.new.piece ≡ self.old.piece }
        ensures refused { IsTrue result → self.new.refused ≡ self.old.refused }
    {
        if self.binding.admits(head) {
            if !self.rate_limit.admits(head.nid_engine) {
                return false;
            }
            if self.binding.admits(head) {
                return true;
            }
        }
        self.refused = Some(head.nid_engine);
        false
    }
}

impl<R: Wait + Clock> Source for Paced<'_, R> {
    ghost use Rattle.std.specs.Prelude.{None};

    ghost left = { λ s. None };

    ghost failures = { λ s. s.failed };

    fn read(&mut self, buffer: &mut [u8]) -> Result<usize, ReadFailed> {
        if self.pieces.next().is_some() || self.pieces.fill() {
            if let Some(count) = self.pieces.give(buffer) {
                return Ok(count.min(buffer.len()));
            }
        }
        self.failed += 1;
        Err(ReadFailed)
    }
}
