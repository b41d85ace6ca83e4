//! The numbers at the front of bytes, the highest byte first, each with the bytes after it.

ghost use Rattle.std.specs.Prelude.{◌≡◌, ◌+◌, ◌≤◌, ◌++◌, length};
ghost use Rattle.rbc_line.specs.SectionRuns.{run_of};
ghost use Rattle.rbc_linkmsg.specs.Spelling.{spelled, run_fields, AllFit};
ghost use Rattle.byteorder.specs.Endian.{big_bytes};

use byteorder::{BigEndian, ByteOrder};
use rbc_line::SectionRun;

/// A number of four bytes.
pub(crate) fn take_u32(bytes: &[u8]) -> (u32, &[u8])
    requires { 4 ≤ length bytes.now }
    ensures taken { bytes.now ≡ big_bytes 4 result.0 ++ result.1.now }
    ensures length { length bytes.now ≡ 4 + length result.1.now }
{
    (BigEndian::read_u32(bytes), &bytes[4..])
}

/// A number of two bytes.
pub(crate) fn take_u16(bytes: &[u8]) -> (u16, &[u8])
    requires { 2 ≤ length bytes.now }
    ensures taken { bytes.now ≡ big_bytes 2 result.0 ++ result.1.now }
    ensures length { length bytes.now ≡ 2 + length result.1.now }
{
    (BigEndian::read_u16(bytes), &bytes[2..])
}

/// A byte.
pub(crate) fn take_u8(bytes: &[u8]) -> (u8, &[u8])
    requires { 1 ≤ length bytes.now }
    ensures taken { bytes.now ≡ big_bytes 1 result.0 ++ result.1.now }
    ensures length { length bytes.now ≡ 1 + length result.1.now }
{
    (bytes[0], &bytes[1..])
}

/// The first section and how many they are, which are all.
#[tactic(auto, unfolding(crate::specs::Spelling::spelled))]
pub(crate) fn read_run(bytes: &[u8]) -> SectionRun
    requires { length bytes.now ≡ 3 }
    ensures spelled { bytes.now ≡ spelled (run_fields (run_of result)) }
    ensures fits { AllFit (run_fields (run_of result)) }
{
    let (first, rest) = take_u16(bytes);
    let (count, _rest) = take_u8(rest);
    SectionRun {
        first,
        count: u16::from(count),
    }
}
