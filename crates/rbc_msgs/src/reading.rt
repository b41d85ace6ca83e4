//! The parts that all messages have, read in the order of the tests.

ghost use Rattle.std.specs.Prelude.{◌≡◌, ℕ, ◌^◌, ◌<◌, ◌≤◌, ◌++◌, length, take, IfOk, OnOk};
ghost use Rattle.rbc_bits.specs.Bits.{field, bits_of};
ghost use Rattle.rbc_spec.specs.Message.{unknown_time};
ghost use Rattle.rbc_bits.specs.Reading.{field_at};
ghost use Rattle.rbc_msgs.specs.Layout.{Begins, IsFilling, length_limit};
ghost use Rattle.rbc_packets.specs.Steps.{Takes};
ghost use Rattle.rbc_msgs.specs.Reading.{start_at, whole_at, time_at, fixed_at, required_at, end_at};

use crate::fault::MsgFault;
use rbc_bits::BitReader;

// T_TRAIN of a message whose time is not known (SUBSET-026 7.5.1).
const T_TRAIN_UNKNOWN: u32 = 4_294_967_295;

/// NID_MESSAGE and L_MESSAGE.
#[tactic(auto, unfolding(crate::specs::Reading::start_at))]
#[inline(always)]
pub(crate) fn start_of(bytes: &[u8]) -> Result<(u64, usize), MsgFault>
    ensures exact { result ≡ start_at bytes.now }
    ensures taken { IfOk result (λ x. Begins (bits_of (take 3 bytes.now)) (field 8 x.0 ++ field 10 x.1)) }
    ensures number { IfOk result (λ x. x.0 < 2 ^ 8) }
    ensures length { IfOk result (λ x. x.1 < length_limit) }
{
    if bytes.len() < 3 {
        return Err(MsgFault::Short);
    }
    // L_MESSAGE is in the second byte and the two highest bits of the third.
    let l_message = usize::from(bytes[1]) * 4 + usize::from(bytes[2]) / 64;
    Ok((u64::from(bytes[0]), l_message))
}

/// The bits after L_MESSAGE, of a message of at least `least` bytes.
#[tactic(auto, unfolding(crate::specs::Reading::whole_at))]
#[inline(always)]
pub(crate) fn whole(least: usize, l_message: usize, bytes: &[u8]) -> Result<BitReader<'_>, MsgFault>
    requires { l_message < length_limit }
    ensures exact { result ≡ whole_at least l_message bytes.now }
    ensures taken { IfOk result (λ rest. (start : ℕ) × (bits_of bytes.now ≡ field 18 start ++ rest)) }
    ensures length { OnOk result (length bytes.now ≡ l_message) }
{
    if l_message < least {
        return Err(MsgFault::Length);
    }
    if bytes.len() < l_message {
        return Err(MsgFault::Short);
    }
    if l_message < bytes.len() {
        return Err(MsgFault::Length);
    }
    let mut reader = BitReader::new(bytes);
    let _start = take(&mut reader, 18)?;
    Ok(reader)
}

/// T_TRAIN of a header.
#[tactic(auto, unfolding(crate::specs::Reading::time_at))]
#[inline(always)]
pub(crate) fn take_time(reader: &mut BitReader) -> Result<u32, MsgFault>
    ensures exact { Takes (λ x. x) result reader.new (time_at reader.old) }
    ensures taken { IfOk result (λ t. reader.old ≡ field 32 t ++ reader.new) }
    ensures known { IfOk result (λ t. t < unknown_time) }
{
    let t_train = take(reader, 32)? as u32;
    if t_train == T_TRAIN_UNKNOWN {
        return Err(MsgFault::Value);
    }
    Ok(t_train)
}

/// A field of n bits that is given one value.
#[tactic(auto, unfolding(crate::specs::Reading::fixed_at))]
#[inline(always)]
pub(crate) fn take_fixed(reader: &mut BitReader, n: u32, value: u64) -> Result<(), MsgFault>
    requires { n ≤ 64 }
    ensures exact { Takes (λ x. x) result reader.new (fixed_at n value reader.old) }
    ensures taken { OnOk result (reader.old ≡ field n value ++ reader.new) }
{
    let found = take(reader, n)?;
    if found != value {
        return Err(MsgFault::Value);
    }
    Ok(())
}

/// NID_PACKET of a required packet.
#[tactic(auto, unfolding(crate::specs::Reading::required_at))]
#[inline(always)]
pub(crate) fn required(reader: &mut BitReader, nid_packet: u64) -> Result<(), MsgFault>
    ensures exact { Takes (λ x. x) result reader.new (required_at nid_packet reader.old) }
    ensures taken { OnOk result (reader.old ≡ field 8 nid_packet ++ reader.new) }
{
    if take_number(reader)? != nid_packet {
        return Err(MsgFault::Missing);
    }
    Ok(())
}

/// NID_PACKET of a packet that is required, with any number.
#[inline(always)]
pub(crate) fn take_number(reader: &mut BitReader) -> Result<u64, MsgFault>
    ensures exact { Takes (λ x. x) result reader.new (field_at MsgFault.Missing 8 reader.old) }
    ensures taken { IfOk result (λ v. reader.old ≡ field 8 v ++ reader.new) }
    ensures fits { IfOk result (λ v. v < 2 ^ 8) }
{
    match reader.take(8) {
        Ok(value) => Ok(value),
        Err(_) => Err(MsgFault::Missing),
    }
}

/// Checks the filling bits after the last field; 8 or more bits are the fault `more`.
#[tactic(auto, unfolding(crate::specs::Reading::end_at))]
#[inline(always)]
pub(crate) fn end(mut reader: BitReader, more: MsgFault) -> Result<(), MsgFault>
    ensures exact { result ≡ end_at more reader.entry }
    ensures filling { OnOk result (IsFilling reader.entry) }
{
    let left = reader.remaining();
    if left >= 8 {
        return Err(more);
    }
    if left == 0 {
        return Ok(());
    }
    if take(&mut reader, left)? != 0 {
        return Err(MsgFault::Padding);
    }
    Ok(())
}

/// A field of n bits.
#[inline(always)]
pub(crate) fn take(reader: &mut BitReader, n: u32) -> Result<u64, MsgFault>
    requires { n ≤ 64 }
    ensures exact { Takes (λ x. x) result reader.new (field_at MsgFault.Short n reader.old) }
    ensures taken { IfOk result (λ v. reader.old ≡ field n v ++ reader.new) }
    ensures fits { IfOk result (λ v. v < 2 ^ n) }
{
    match reader.take(n) {
        Ok(value) => Ok(value),
        Err(_) => Err(MsgFault::Short),
    }
}
