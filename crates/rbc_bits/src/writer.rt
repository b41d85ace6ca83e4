ghost use Rattle.std.specs.Prelude.{◌≡◌, ◌+◌, ◌-◌, ◌^◌, ◌<◌, ◌≤◌, ◌++◌, [], IfOk, OnOk, OnErr, IsOkUnless};
ghost use Rattle.rbc_bits.specs.Bits.{field, bits_of, filled};

use crate::fault::BitFault;
use std::alloc::Global;
use std::marker::Model;

/// The bits that were written so far: whole bytes, and fewer than 64 bits after them. A refusal writes nothing.
#[derive(Debug, Drop)]
pub struct BitWriter {
    bytes: Vec<u8>,
    held: u64,
    count: u32,
}

impl Model for BitWriter {
    ghost use Rattle.std.specs.Prelude.{◌^◌, ◌<◌, ◌++◌, Bool, List};
    ghost use Rattle.rbc_bits.specs.Bits.{field, bits_of};

    ghost Value = { List Bool };

    ghost view = { λ w. bits_of w.bytes.items ++ field w.count w.held };

    ghost invariant = { λ w. (w.count < 64) × (w.held < 2 ^ w.count) };
}

impl BitWriter {
    /// No bits, and memory for this number of bytes.
    pub fn with_capacity(alloc: Global, bytes: usize) -> Result<Self, BitFault>
        ensures ok { IfOk result (λ w. w ≡ []) }
        ensures memory { IsOkUnless result BitFault.Memory }
    {
        Ok(BitWriter {
            bytes: Vec::with_capacity(alloc, bytes)?,
            held: 0,
            count: 0,
        })
    }

    /// Writes a field of n bits.
    #[inline(always)]
    pub fn put(&mut self, value: u64, n: u32) -> Result<(), BitFault>
        requires width { n ≤ 64 }
        requires fits { value < 2 ^ n }
        ensures ok { OnOk result (self.new ≡ self.old ++ field n value) }
        ensures err { OnErr result (self.new ≡ self.old) }
        ensures memory { IsOkUnless result BitFault.Memory }
    {
        let count = self.count + n;
        if count < 64 {
            self.held = self.held << n | value;
            self.count = count;
        } else {
            self.held = push_full(&mut self.bytes, self.held, self.count, value, n)?;
            self.count = count - 64;
        }
        Ok(())
    }

    /// The bytes: the bits written, followed by 0 to 7 zero bits.
    #[inline(always)]
    pub fn finish(self) -> Result<Vec<u8>, BitFault>
        ensures ok { IfOk result (λ bytes. bits_of bytes.items ≡ filled self) }
        ensures memory { IsOkUnless result BitFault.Memory }
    {
        let BitWriter {
            mut bytes,
            held,
            count,
        } = self;
        if count > 0 {
            let word = (held << (64 - count)).to_be_bytes();
            bytes.extend_from_slice(&word[..((count + 7) / 8) as usize])?;
        }
        Ok(bytes)
    }
}

// Appends a field that fills the 64-bit buffer: writes out eight bytes, and returns the bits left over.
#[inline(always)]
fn push_full(
    bytes: &mut Vec<u8>,
    held: u64,
    count: u32,
    value: u64,
    n: u32,
) -> Result<u64, BitFault>
    requires held { held < 2 ^ count }
    requires count { count < 64 }
    requires full { 64 ≤ count + n }
    requires width { n ≤ 64 }
    requires fits { value < 2 ^ n }
    ensures ok { IfOk result
        (λ left. bits_of bytes.new.items ++ field (count + n - 64) left
        ≡ (bits_of bytes.old.items ++ field count held) ++ field n value) }
    ensures left { IfOk result (λ left. left < 2 ^ (count + n - 64)) }
    ensures err { OnErr result (bytes.new.items ≡ bytes.old.items) }
    ensures memory { IsOkUnless result BitFault.Memory }
{
    let after = count + n - 64;
    let bits = u128::from(held) << n | u128::from(value);
    let word = ((bits >> after) as u64).to_be_bytes();
    bytes.extend_from_slice(&word)?;
    Ok((bits & ((1 << after) - 1)) as u64)
}
