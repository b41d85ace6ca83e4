//! The connection of a train to a centre, in a capture.

ghost use Rattle.std.specs.Prelude.{◌≤◌, length};

use crate::records::Records;
use crate::segment::{End, Segment};
use std::alloc::AllocError;

const FIN: u8 = 1;

const SYN: u8 = 2;

const PSH: u8 = 8;

const ACK: u8 = 16;

/// An end, and the number of its next byte.
#[derive(Clone, Copy)]
pub(crate) struct Sender {
    pub end: End,
    pub next: u32,
}

/// Who sends a segment.
#[derive(Clone, Copy, PartialEq, Eq)]
pub(crate) enum By {
    Train,
    Centre,
}

/// A connection, by its two ends.
#[derive(Clone, Copy)]
pub(crate) struct Connection {
    pub train: Sender,
    pub centre: Sender,
}

impl Connection {
    /// Opens it: three segments without data.
    pub fn open(&mut self, records: &mut Records) -> Result<(), AllocError> {
        self.add(records, By::Train, SYN, &[])?;
        self.add(records, By::Centre, SYN | ACK, &[])?;
        self.add(records, By::Train, ACK, &[])
    }

    /// Sends bytes, in segments of 1 024 bytes at most.
    pub fn send(&mut self, records: &mut Records, by: By, data: &[u8]) -> Result<(), AllocError> {
        let mut rest = data;
        for _ in 0..=data.len() / 1_024 {
            let (piece, others) = rest.split_at(rest.len().min(1_024));
            self.add(records, by, PSH | ACK, piece)?;
            rest = others;
            if rest.is_empty() {
                break;
            }
        }
        Ok(())
    }

    /// The centre ends it.
    pub fn end(&mut self, records: &mut Records) -> Result<(), AllocError> {
        self.add(records, By::Centre, FIN | ACK, &[])?;
        self.add(records, By::Train, FIN | ACK, &[])?;
        self.add(records, By::Centre, ACK, &[])
    }

    fn add(
        &mut self,
        records: &mut Records,
        by: By,
        flags: u8,
        data: &[u8],
    ) -> Result<(), AllocError>
        requires { length data.now ≤ 1024 }
    {
        let (source, target) = match by {
            By::Train => (self.train, self.centre),
            By::Centre => (self.centre, self.train),
        };
        records.add(Segment {
            source: source.end,
            target: target.end,
            number: source.next,
            acknowledged: if flags == SYN { 0 } else { target.next },
            flags,
            data,
        })?;
        let next = source.next.wrapping_add(length_of(flags, data.len()));
        match by {
            By::Train => self.train.next = next,
            By::Centre => self.centre.next = next,
        }
        Ok(())
    }
}

// The numbers that a segment uses: one for each byte, and one for SYN or FIN.
fn length_of(flags: u8, count: usize) -> u32
    requires { count ≤ 1024 }
{
    let extra = if flags & (SYN | FIN) == 0 { 0 } else { 1 };
    count as u32 + extra
}
