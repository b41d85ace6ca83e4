ghost use Rattle.std.specs.Prelude.{◌≡◌, ◌+◌, ◌-◌, ◌/◌, ◌%◌, ◌^◌, ◌<◌, ◌≤◌, ◌++◌, [], length, take, IfOk, OnOk};
ghost use Rattle.std.specs.Prelude.{IsOkUnless};
ghost use Rattle.std.specs.Int.{w64, to_be_bytes};
ghost use Rattle.rbc_bits.specs.Bits.{field, bits_of, filled};

use crate::fault::BitFault;
use crate::writer::BitWriter;
use std::alloc::Global;
use std::marker::Model;

// The number of bytes of 256 bits.
const MOST_BYTES: usize = 32;

/// The bits written so far, at most 256. They are in two words, and no call takes the address of these. So they stay in
/// registers, and the position of each field is known if those before it are.
#[derive(Debug, Drop)]
pub struct BitRow {
    /// The first bits.
    front: u128,
    /// The bits after 128 others.
    back: u128,
    /// How many bits the front has.
    first: u32,
    /// How many bits the back has.
    second: u32,
}

impl Model for BitRow {
    ghost use Rattle.std.specs.Prelude.{◌≡◌, ◌^◌, ◌<◌, ◌≤◌, ◌++◌, Bool, List};
    ghost use Rattle.rbc_bits.specs.Bits.{field};

    ghost Value = { List Bool };

    ghost view = { λ r. field r.first r.front ++ field r.second r.back };

    ghost use Rattle.rbc_bits.specs.RowView.{IsRow};

    ghost invariant = { λ r. IsRow r.front r.back r.first r.second };
}

impl BitRow {
    /// No bits.
    #[inline(always)]
    pub fn new() -> BitRow
        ensures { result ≡ [] }
    {
        BitRow {
            front: 0,
            back: 0,
            first: 0,
            second: 0,
        }
    }

    /// Writes a field of n bits.
    #[inline(always)]
    pub fn put(&mut self, value: u64, n: u32)
        requires width { (1 ≤ n) × (n ≤ 64) }
        requires fits { value < 2 ^ n }
        requires room { length self.old + n ≤ 256 }
        ensures value { self.new ≡ self.old ++ field n value }
        ensures length { length self.new ≡ length self.old + n }
    {
        let value = u128::from(value);
        let room = 128 - self.first;
        if n <= room {
            self.front = self.front << n | value;
            self.first += n;
        } else {
            let after = n - room;
            self.front = self.front << room | value >> after;
            self.back = self.back << after | value & ((1 << after) - 1);
            self.first = 128;
            self.second += after;
        }
    }

    /// The bytes: the bits written, followed by 0 to 7 zero bits.
    #[inline(always)]
    pub fn finish(self, alloc: Global) -> Result<Vec<u8>, BitFault>
        ensures ok { IfOk result (λ bytes. bits_of bytes.items ≡ filled self) }
        ensures memory { IsOkUnless result BitFault.Memory }
    {
        let (first, second) = halves(at_top(self.front, self.first));
        let (third, fourth) = halves(at_top(self.back, self.second));
        let count = (self.first + self.second + 7) / 8;
        bytes_of(alloc, first, second, third, fourth, count as usize)
    }

    /// A writer that has written these bits, with memory for this number of bytes.
    #[inline(always)]
    pub fn writer(self, alloc: Global, bytes: usize) -> Result<BitWriter, BitFault>
        ensures ok { IfOk result (λ w. w ≡ self) }
        ensures memory { IsOkUnless result BitFault.Memory }
    {
        let mut writer = BitWriter::with_capacity(alloc, bytes)?;
        write(&mut writer, self.front, self.first)?;
        write(&mut writer, self.back, self.second)?;
        Ok(writer)
    }
}

// The bits that a word holds, with zero bits after them.
#[inline(always)]
fn at_top(held: u128, count: u32) -> u128
    requires count { count ≤ 128 }
    requires held { held < 2 ^ count }
    ensures { field 128 result ≡ field count held ++ field (128 - count) 0 }
{
    if count == 0 {
        return 0;
    }
    held << (128 - count)
}

// The bits that a word holds, after those of a writer.
fn write(writer: &mut BitWriter, held: u128, count: u32) -> Result<(), BitFault>
    requires count { count ≤ 128 }
    requires held { held < 2 ^ count }
    ensures ok { OnOk result (writer.new ≡ writer.old ++ field count held) }
    ensures memory { IsOkUnless result BitFault.Memory }
{
    let (high, low) = halves(held);
    if count <= 64 {
        return writer.put(low, count);
    }
    writer.put(high, count - 64)?;
    writer.put(low, 64)
}

// The halves of a word.
#[inline(always)]
fn halves(word: u128) -> (u64, u64)
    ensures high { result.0 ≡ word / 2 ^ 64 }
    ensures low { result.1 ≡ word % 2 ^ 64 }
{
    let low = word & ((1 << 64) - 1);
    ((word >> 64) as u64, low as u64)
}

// The first bytes of four words, the highest first. The list stays in registers: so it is not copied after the call.
#[inline(always)]
fn bytes_of(
    alloc: Global,
    first: u64,
    second: u64,
    third: u64,
    fourth: u64,
    count: usize,
) -> Result<Vec<u8>, BitFault>
    ensures ok { IfOk result
        (λ bytes. bytes.items
        ≡ take count ((to_be_bytes w64 first ++ to_be_bytes w64 second)
        ++ (to_be_bytes w64 third ++ to_be_bytes w64 fourth))) }
    ensures memory { IsOkUnless result BitFault.Memory }
{
    match Vec::from_array(alloc, [0; MOST_BYTES]) {
        Ok(mut bytes) => {
            write_words(bytes.as_mut_slice(), first, second, third, fourth);
            bytes.truncate(count);
            Ok(bytes)
        }
        Err(_) => Err(BitFault::Memory),
    }
}

// Writes the bytes of four words, the highest first. It is a call, so that the processor writes each word once, and not
// the bytes of its fields.
#[inline(never)]
fn write_words(bytes: &mut [u8], first: u64, second: u64, third: u64, fourth: u64)
    requires { length bytes.old ≡ 32 }
    ensures { bytes.new
        ≡ (to_be_bytes w64 first ++ to_be_bytes w64 second) ++ (to_be_bytes w64 third ++ to_be_bytes w64 fourth) }
{
    bytes[..8].copy_from_slice(&first.to_be_bytes());
    bytes[8..16].copy_from_slice(&second.to_be_bytes());
    bytes[16..24].copy_from_slice(&third.to_be_bytes());
    bytes[24..].copy_from_slice(&fourth.to_be_bytes());
}
