//! The records of a capture.

ghost use Rattle.std.specs.Prelude.{◌≡◌, ◌+◌, ◌≤◌, ◌++◌, IfOk, OnOk, length};
ghost use Rattle.text_prints.specs.Capture.{file_header, record_of};

use crate::segment::{Segment, add, packet};
use std::alloc::{AllocError, Global};

/// The bytes of a capture, and the time of its last packet.
#[derive(Drop)]
pub(crate) struct Records {
    alloc: Global,
    bytes: Vec<u8>,
    seconds: u32,
    /// How many packets of this second are before the next.
    micros: u32,
}

impl Records {
    /// A capture without packets.
    pub fn new(alloc: Global) -> Result<Records, AllocError>
        ensures { IfOk result (λ records. records.bytes.items ≡ file_header) }
    {
        let mut bytes = Vec::new(alloc);
        add(
            &mut bytes,
            &[
                &0xA1B2_C3D4u32.to_le_bytes(),
                &2u16.to_le_bytes(),
                &4u16.to_le_bytes(),
                &0u32.to_le_bytes(),
                &0u32.to_le_bytes(),
                &65_535u32.to_le_bytes(),
                &101u32.to_le_bytes(),
            ],
        )?;
        Ok(Records {
            alloc,
            bytes,
            seconds: 0,
            micros: 0,
        })
    }

    /// The packets from here on are of this second. Those of one second are a microsecond apart.
    pub fn begin(&mut self, seconds: u32)
        ensures bytes { self.new.bytes.items ≡ self.old.bytes.items }
        ensures seconds { self.new.seconds ≡ seconds }
    {
        if seconds != self.seconds {
            self.seconds = seconds;
            self.micros = 0;
        }
    }

    /// Adds a segment of 1 024 bytes at most.
    pub fn add(&mut self, segment: Segment<'_>) -> Result<(), AllocError>
        requires { length segment.data.now ≤ 1024 }
        ensures bytes { OnOk result (self.new.bytes.items
            ≡ self.old.bytes.items ++ record_of self.old.seconds self.old.micros segment.entry) }
        ensures seconds { self.new.seconds ≡ self.old.seconds }
        ensures micros { self.old.micros + 1 ≤ 4294967295 → OnOk result (self.new.micros ≡ self.old.micros + 1) }
    {
        let packet = packet(self.alloc, segment)?;
        let length = 40 + segment.data.len() as u32;
        add(
            &mut self.bytes,
            &[
                &self.seconds.to_le_bytes(),
                &self.micros.to_le_bytes(),
                &length.to_le_bytes(),
                &length.to_le_bytes(),
                &packet,
            ],
        )?;
        self.micros = self.micros.saturating_add(1);
        Ok(())
    }

    /// The bytes of the capture.
    pub fn into_bytes(self) -> Vec<u8>
        ensures { result ≡ self.bytes }
    {
        self.bytes
    }
}
