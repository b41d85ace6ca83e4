ghost use Rattle.std.specs.Prelude.{ℕ, ◌≡◌, ◌+◌, ◌*◌, ◌^◌, ◌<◌, ◌≤◌, ◌++◌, length, take, drop, IfOk, IfSome, OnErr};
ghost use Rattle.std.specs.Prelude.{MatchResult};
ghost use Rattle.rbc_bits.specs.Bits.{field, bits_of};
ghost use Rattle.rbc_bits.specs.Reading.{field_at, part_at};

use crate::fault::BitFault;
use crate::part::BitPart;
use crate::word::{BitWord, number_of_sixteen};
use std::marker::Model;

/// The bits of a message that are still to be read. A refusal moves nothing.
#[derive(Debug, Drop)]
pub struct BitReader<'a> {
    bytes: &'a [u8],
    used: u32,
    left: u32,
}

impl<'a> Model for BitReader<'a> {
    ghost use Rattle.std.specs.Prelude.{◌+◌, ◌*◌, ◌^◌, ◌≤◌, Bool, List, length, take, drop};
    ghost use Rattle.rbc_bits.specs.Bits.{bits_of};

    ghost Value = { List Bool };

    ghost view = { λ r. take r.left (drop r.used (bits_of r.bytes.now)) };

    ghost invariant = { λ r. (length r.bytes.now ≤ 2 ^ 28) × (r.used + r.left ≤ 8 * length r.bytes.now) };
}

impl<'a> BitReader<'a> {
    /// All bits of the bytes. A radio message has at most 1 023 bytes.
    pub fn new(bytes: &'a [u8]) -> Self
        requires { length bytes.now ≤ 2 ^ 28 }
        ensures { result ≡ bits_of bytes.now }
    {
        BitReader {
            bytes,
            used: 0,
            left: 8 * bytes.len() as u32,
        }
    }

    /// How many bits are left.
    #[inline(always)]
    pub fn remaining(&self) -> u32
        ensures { result ≡ length self.now }
    {
        self.left
    }

    /// Reads the field of the next n bits.
    #[inline(always)]
    pub fn take(&mut self, n: u32) -> Result<u64, BitFault>
        requires { n ≤ 64 }
        ensures field { IfOk result (λ v. self.old ≡ field n v ++ self.new) }
        ensures fits { IfOk result (λ v. v < 2 ^ n) }
        // The same as a function of the bits: `Short` if and only if fewer than n bits are left.
        ensures next { MatchResult result
            (λ v. field_at BitFault.Short n self.old ≡ Ok (v, self.new))
            (λ e. field_at BitFault.Short n self.old ≡ Err e) }
        ensures err { OnErr result (self.new ≡ self.old) }
    {
        let part = self.cut(n)?;
        Ok(field_from(part.bytes, part.used, n))
    }

    /// Cuts off the next n bits, to be read by themselves.
    #[inline(always)]
    pub fn cut(&mut self, n: u32) -> Result<BitReader<'a>, BitFault>
        ensures part { IfOk result (λ part. self.old ≡ part ++ self.new) }
        ensures length { IfOk result (λ part. length part ≡ n) }
        // The same as a function of the bits: `Short` if and only if fewer than n bits are left.
        ensures next { MatchResult result
            (λ part. part_at BitFault.Short n self.old ≡ Ok (part, self.new))
            (λ e. part_at BitFault.Short n self.old ≡ Err e) }
        ensures err { OnErr result (self.new ≡ self.old) }
    {
        if self.remaining() < n {
            return Err(BitFault::Short);
        }
        let part = BitReader {
            bytes: self.bytes,
            used: self.used,
            left: n,
        };
        self.used += n;
        self.left -= n;
        Ok(part)
    }

    /// The bits that are left, to be read to the last of them.
    #[inline(always)]
    pub fn part(self) -> BitPart<'a>
        ensures { result ≡ self.entry }
    {
        match self.word_part() {
            Some(part) => part,
            None => BitPart::new(BitWord::empty(), self),
        }
    }

    /// The same, if they fit in one word.
    #[inline(always)]
    pub fn word_part(&self) -> Option<BitPart<'a>>
        ensures { IfSome result (λ part. part ≡ self.now) }
    {
        let word = self.word()?;
        let others = BitReader {
            bytes: self.bytes,
            used: self.used,
            left: 0,
        };
        Some(BitPart::new(word, others))
    }

    /// The bits that are left as one word, if they fit and enough bytes are before their end.
    #[inline(always)]
    pub fn word(&self) -> Option<BitWord>
        ensures { IfSome result (λ word. word ≡ self.now) }
    {
        if self.left == 0 {
            return Some(BitWord::empty());
        }
        let end = self.used + self.left;
        let last = ((end + 7) / 8) as usize;
        if self.left > MOST_IN_A_WORD || last < 16 {
            return None;
        }
        let number = number_of_sixteen(&self.bytes[last - 16..last])?;
        let after = 8 * last as u32 - end;
        Some(BitWord::of(number, self.left, after))
    }
}

// The number of bits that sixteen bytes always have, if the last bit is in the last byte.
const MOST_IN_A_WORD: u32 = 121;

// The field of n bits after the first `used` bits: from eight bytes, if it is in them.
#[inline(always)]
fn field_from(bytes: &[u8], used: u32, n: u32) -> u64
    requires small { length bytes.now ≤ 2 ^ 28 }
    requires width { n ≤ 64 }
    requires within { used + n ≤ 8 * length bytes.now }
    ensures fits { result < 2 ^ n }
    ensures field { drop used (bits_of bytes.now) ≡ field n result ++ drop (used + n) (bits_of bytes.now) }
{
    let first = first_of_eight(bytes.len(), used);
    match bytes[first..].first_chunk::<8>() {
        Some(word) if n > 0 && n <= 57 => {
            let after = 8 * first as u32 + 64 - (used + n);
            u64::from_be_bytes(*word) >> after & ((1 << n) - 1)
        }
        _ => long_field(bytes, used, n),
    }
}

// The first of the eight bytes that are read for a field after the first `used` bits. It is that of the field's first
// bit, or an earlier one if fewer than eight are left.
#[inline(always)]
fn first_of_eight(count: usize, used: u32) -> usize
    requires { used ≤ 8 * count }
    ensures before { 8 * result ≤ used }
    ensures within { result ≤ count }
    ensures near { (n : ℕ) → n ≤ 57 → used + n ≤ 8 * count → result + 8 ≤ count → used + n ≤ 8 * result + 64 }
{
    let first = (used / 8) as usize;
    let last = count.saturating_sub(8);
    if first < last { first } else { last }
}

// A field that spans at most nine bytes.
#[inline(never)]
fn long_field(bytes: &[u8], used: u32, n: u32) -> u64
    requires small { length bytes.now ≤ 2 ^ 28 }
    requires width { n ≤ 64 }
    requires within { used + n ≤ 8 * length bytes.now }
    ensures fits { result < 2 ^ n }
    ensures field { drop used (bits_of bytes.now) ≡ field n result ++ drop (used + n) (bits_of bytes.now) }
{
    let end = used + n;
    let first = (used / 8) as usize;
    let last = ((end + 7) / 8) as usize;
    let after = 8 * last as u32 - end;
    let number = number_of(&bytes[first..last]) >> after;
    (number & ((1 << n) - 1)) as u64
}

// The number whose binary digits are the bits of the bytes.
fn number_of(bytes: &[u8]) -> u128
    requires { length bytes.now ≤ 9 }
    ensures { bits_of bytes.now ≡ field (8 * length bytes.now) result }
{
    let mut number = 0u128;
    for byte in bytes {
        number = number * 256 + u128::from(*byte);
    }
    number
}
