ghost use Rattle.std.specs.Prelude.{◌≡◌, ◌+◌, ◌-◌, ◌*◌, ◌/◌, ◌^◌, ◌<◌, ◌≤◌, ◌++◌, length, take, IfOk, IfSome, OnErr};
ghost use Rattle.std.specs.Prelude.{MatchResult};
ghost use Rattle.rbc_bits.specs.Bits.{field, bits_of};
ghost use Rattle.rbc_bits.specs.Reading.{field_at};

use crate::fault::BitFault;
use std::marker::Model;

/// Bits that are still to be read, in one word of 128 bits. A refusal moves nothing.
#[derive(Debug, Drop)]
pub struct BitWord {
    /// The bits are at its front.
    word: u128,
    left: u32,
}

impl Model for BitWord {
    ghost use Rattle.std.specs.Prelude.{◌≤◌, Bool, List, take};
    ghost use Rattle.rbc_bits.specs.Bits.{field};

    ghost Value = { List Bool };

    ghost view = { λ w. take w.left (field 128 w.word) };

    ghost invariant = { λ w. w.left ≤ 128 };
}

impl BitWord {
    /// No bits.
    #[inline(always)]
    pub(crate) fn empty() -> BitWord
        ensures { length result ≡ 0 }
    {
        BitWord { word: 0, left: 0 }
    }

    /// The n bits of a number before its last `after` bits.
    #[inline(always)]
    pub(crate) fn of(number: u128, n: u32, after: u32) -> BitWord
        requires { (1 ≤ n) × (n + after ≤ 128) }
        ensures { result ≡ field n (number / 2 ^ after) }
    {
        BitWord {
            word: number << (128 - n - after),
            left: n,
        }
    }

    /// How many bits are left.
    #[inline(always)]
    pub fn remaining(&self) -> u32
        ensures { result ≡ length self.now }
    {
        self.left
    }

    /// Sixteen bytes that begin with them.
    #[inline(always)]
    pub fn to_bytes(self) -> [u8; 16]
        ensures { take (length self) (bits_of result) ≡ self }
    {
        self.word.to_be_bytes()
    }

    /// Reads the field of the next n bits, which are there: so nothing is tested.
    #[inline(always)]
    pub fn next(&mut self, n: u32) -> u64
        requires width { (1 ≤ n) × (n ≤ 64) }
        requires there { n ≤ length self.old }
        ensures field { self.old ≡ field n result ++ self.new }
        ensures fits { result < 2 ^ n }
        ensures length { length self.old ≡ n + length self.new }
    {
        let value = (self.word >> (128 - n)) as u64;
        self.word <<= n;
        self.left -= n;
        value
    }

    /// Reads the field of the next n bits.
    #[inline(always)]
    pub(crate) fn take(&mut self, n: u32) -> Result<u64, BitFault>
        requires { (1 ≤ n) × (n ≤ 64) }
        ensures field { IfOk result (λ v. self.old ≡ field n v ++ self.new) }
        ensures fits { IfOk result (λ v. v < 2 ^ n) }
        ensures next { MatchResult result
            (λ v. field_at BitFault.Short n self.old ≡ Ok (v, self.new))
            (λ e. field_at BitFault.Short n self.old ≡ Err e) }
        ensures err { OnErr result (self.new ≡ self.old) }
    {
        if self.left < n {
            return Err(BitFault::Short);
        }
        Ok(self.next(n))
    }
}

/// The number whose binary digits are the bits of sixteen bytes.
#[inline(always)]
pub(crate) fn number_of_sixteen(bytes: &[u8]) -> Option<u128>
    ensures { IfSome result (λ number. (16 ≤ length bytes.now) × (bits_of (take 16 bytes.now) ≡ field 128 number)) }
{
    let high = bytes.first_chunk::<8>()?;
    let low = bytes[8..].first_chunk::<8>()?;
    let high = u128::from(u64::from_be_bytes(*high));
    let low = u128::from(u64::from_be_bytes(*low));
    Some((high << 64) + low)
}
