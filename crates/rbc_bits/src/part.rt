ghost use Rattle.std.specs.Prelude.{◌≡◌, ◌⊎◌, ◌^◌, ◌<◌, ◌≤◌, ◌++◌, [], length, IfOk, OnErr, MatchResult};
ghost use Rattle.rbc_bits.specs.Bits.{field};
ghost use Rattle.rbc_bits.specs.Reading.{field_at};

use crate::fault::BitFault;
use crate::reader::BitReader;
use crate::word::BitWord;
use std::marker::Model;

/// Bits of a message that are read field by field, to the last of them. Up to 121 of them are in one word. A refusal
/// moves nothing.
#[derive(Debug, Drop)]
pub struct BitPart<'a> {
    word: BitWord,
    /// The bits outside that word.
    others: BitReader<'a>,
}

impl<'a> Model for BitPart<'a> {
    ghost use Rattle.std.specs.Prelude.{◌≡◌, ◌++◌, Bool, List, [], ◌⊎◌};

    ghost Value = { List Bool };

    ghost view = { λ p. p.word ++ p.others };

    ghost invariant = { λ p. (p.word ≡ []) ⊎ (p.others ≡ []) };
}

impl<'a> BitPart<'a> {
    #[inline(always)]
    pub(crate) fn new(word: BitWord, others: BitReader<'a>) -> BitPart<'a>
        requires { (word ≡ []) ⊎ (others ≡ []) }
        ensures { result ≡ word ++ others.entry }
    {
        BitPart { word, others }
    }

    /// How many bits are left.
    #[inline(always)]
    pub fn remaining(&self) -> u32
        ensures { result ≡ length self.now }
    {
        self.word.remaining() + self.others.remaining()
    }

    /// Reads the field of the next n bits.
    #[inline(always)]
    pub fn take(&mut self, n: u32) -> Result<u64, BitFault>
        requires { (1 ≤ n) × (n ≤ 64) }
        ensures field { IfOk result (λ v. self.old ≡ field n v ++ self.new) }
        ensures fits { IfOk result (λ v. v < 2 ^ n) }
        // The same as a function of the bits: `Short` if and only if fewer than n bits are left.
        ensures next { MatchResult result
            (λ v. field_at BitFault.Short n self.old ≡ Ok (v, self.new))
            (λ e. field_at BitFault.Short n self.old ≡ Err e) }
        ensures err { OnErr result (self.new ≡ self.old) }
    {
        if let Ok(value) = self.word.take(n) {
            return Ok(value);
        }
        take_other(&self.word, &mut self.others, n)
    }
}

// Reads the field of the next n bits, which the word does not have; if the word has some bits, these are the last. It
// is inlined, so that the word stays in registers.
#[inline(always)]
fn take_other(word: &BitWord, others: &mut BitReader, n: u32) -> Result<u64, BitFault>
    requires width { n ≤ 64 }
    requires few { length word.now < n }
    requires one { (word.now ≡ []) ⊎ (others.old ≡ []) }
    ensures field { IfOk result (λ v. word.now ++ others.old ≡ field n v ++ (word.now ++ others.new)) }
    ensures fits { IfOk result (λ v. v < 2 ^ n) }
    ensures next { MatchResult result
        (λ v. field_at BitFault.Short n (word.now ++ others.old) ≡ Ok (v, word.now ++ others.new))
        (λ e. field_at BitFault.Short n (word.now ++ others.old) ≡ Err e) }
    ensures one { (word.now ≡ []) ⊎ (others.new ≡ []) }
    ensures err { OnErr result (others.new ≡ others.old) }
{
    if word.remaining() > 0 {
        return Err(BitFault::Short);
    }
    others.take(n)
}
