//! The parts that packets have in common, read in the order of the tests. Those of usual packets (`usual_..`) are read
//! as few fields; if they are others, no fault is returned.

ghost use Rattle.std.specs.Prelude.{◌≡◌, ◌+◌, ◌^◌, ◌<◌, ◌≤◌, ◌++◌, ◌∷◌, [], length, IfOk, OnOk, IfSome, OnSome};
ghost use Rattle.rbc_bits.specs.Bits.{field};
ghost use Rattle.rbc_vars.specs.Values.{q_scale_value, direction_value, q_length_value, m_level_value};
ghost use Rattle.rbc_bits.specs.Reading.{field_at, part_at};
ghost use Rattle.rbc_packets.specs.Steps.{Takes};
ghost use Rattle.rbc_packets.specs.Reading.{train_part_at, track_part_at, none_left, fixed_at, q_scale_at};
ghost use Rattle.rbc_packets.specs.Reading.{direction_at, q_length_at, m_level_at};
ghost use Rattle.rbc_packets.specs.TrackReading.{radio_at};
ghost use Rattle.rbc_packets.specs.TrackSpelling.{no_radio};
ghost use Rattle.rbc_packets.specs.Layout.{joined};

use crate::fault::PacketFault;
use rbc_bits::{BitPart, BitReader};
use rbc_vars::{Direction, MLevel, QLength, QScale};

// NID_PACKET and L_PACKET.
const TRAIN_HEADER: u32 = 21;

// NID_PACKET, Q_DIR and L_PACKET.
const TRACK_HEADER: u32 = 23;

/// NID_RADIO of all ones: no number is given.
pub(crate) const NO_RADIO: u64 = 18_446_744_073_709_551_615;

/// The bits of a train's packet after its header.
#[tactic(auto, unfolding(crate::specs::Reading::train_part_at))]
#[inline(always)]
pub(crate) fn train_part<'a>(reader: &mut BitReader<'a>) -> Result<BitReader<'a>, PacketFault>
    ensures exact { Takes (λ x. x) result reader.new (train_part_at reader.old) }
    ensures taken { IfOk result (λ part. reader.old ≡ field 13 (21 + length part) ++ (part ++ reader.new)) }
    ensures few { IfOk result (λ part. length part < 8171) }
{
    let l_packet = take_header(reader, 13)? as u32;
    if l_packet < TRAIN_HEADER {
        return Err(PacketFault::Length);
    }
    cut(reader, l_packet - TRAIN_HEADER)
}

/// The bits of a packet of a centre after its header. Q_DIR is nominal.
#[tactic(auto, unfolding(crate::specs::Reading::track_part_at))]
#[inline(always)]
pub(crate) fn track_part<'a>(reader: &mut BitReader<'a>) -> Result<BitReader<'a>, PacketFault>
    ensures exact { Takes (λ x. x) result reader.new (track_part_at reader.old) }
    ensures taken { IfOk result
        (λ part. reader.old ≡ field 2 1 ++ (field 13 (23 + length part) ++ (part ++ reader.new))) }
{
    let q_dir = take_header(reader, 2)?;
    let l_packet = take_header(reader, 13)? as u32;
    if l_packet < TRACK_HEADER {
        return Err(PacketFault::Length);
    }
    let part = cut(reader, l_packet - TRACK_HEADER)?;
    if q_dir != 1 {
        return Err(PacketFault::Value);
    }
    Ok(part)
}

/// Checks that nothing follows the last field of a packet.
#[tactic(auto, unfolding(crate::specs::Reading::none_left))]
#[inline(always)]
pub(crate) fn end(part: BitPart) -> Result<(), PacketFault>
    ensures exact { result ≡ none_left part.entry }
    ensures none { OnOk result (part.entry ≡ []) }
{
    if part.remaining() > 0 {
        return Err(PacketFault::Length);
    }
    Ok(())
}

/// A field of n bits that is given one value.
#[tactic(auto, unfolding(crate::specs::Reading::fixed_at))]
#[inline(always)]
pub(crate) fn take_fixed(part: &mut BitPart, n: u32, value: u64) -> Result<(), PacketFault>
    requires { (1 ≤ n) × (n ≤ 64) }
    ensures exact { Takes (λ x. x) result part.new (fixed_at n value part.old) }
    ensures taken { OnOk result (part.old ≡ field n value ++ part.new) }
{
    let found = take(part, n)?;
    if found != value {
        return Err(PacketFault::Value);
    }
    Ok(())
}

/// Q_SCALE.
#[tactic(auto, unfolding(crate::specs::Reading::q_scale_at))]
#[inline(always)]
pub(crate) fn q_scale(part: &mut BitPart) -> Result<QScale, PacketFault>
    ensures exact { Takes (λ x. x) result part.new (q_scale_at part.old) }
    ensures taken { IfOk result (λ v. part.old ≡ field 2 (q_scale_value v) ++ part.new) }
{
    match QScale::of(take(part, 2)?) {
        Some(q_scale) => Ok(q_scale),
        None => Err(PacketFault::Value),
    }
}

/// Q_DIRLRBG, Q_DLRBG or Q_DIRTRAIN.
#[tactic(auto, unfolding(crate::specs::Reading::direction_at))]
#[inline(always)]
pub(crate) fn direction(part: &mut BitPart) -> Result<Direction, PacketFault>
    ensures exact { Takes (λ x. x) result part.new (direction_at part.old) }
    ensures taken { IfOk result (λ v. part.old ≡ field 2 (direction_value v) ++ part.new) }
{
    match Direction::of(take(part, 2)?) {
        Some(direction) => Ok(direction),
        None => Err(PacketFault::Value),
    }
}

/// Q_LENGTH.
#[tactic(auto, unfolding(crate::specs::Reading::q_length_at))]
#[inline(always)]
pub(crate) fn q_length(part: &mut BitPart) -> Result<QLength, PacketFault>
    ensures exact { Takes (λ x. x) result part.new (q_length_at part.old) }
    ensures taken { IfOk result (λ v. part.old ≡ field 2 (q_length_value v) ++ part.new) }
{
    match QLength::of(take(part, 2)?) {
        Some(q_length) => Ok(q_length),
        None => Err(PacketFault::Value),
    }
}

/// M_LEVEL.
#[tactic(auto, unfolding(crate::specs::Reading::m_level_at))]
#[inline(always)]
pub(crate) fn m_level(part: &mut BitPart) -> Result<MLevel, PacketFault>
    ensures exact { Takes (λ x. x) result part.new (m_level_at part.old) }
    ensures taken { IfOk result (λ v. part.old ≡ field 3 (m_level_value v) ++ part.new) }
{
    match MLevel::of(take(part, 3)?) {
        Some(m_level) => Ok(m_level),
        None => Err(PacketFault::Value),
    }
}

/// NID_RADIO, without a number, and Q_SLEEPSESSION, which is not asked for.
#[tactic(auto, unfolding(crate::specs::TrackReading::radio_at, crate::specs::Layout::joined))]
#[inline(always)]
pub(crate) fn take_radio(part: &mut BitPart) -> Result<(), PacketFault>
    ensures exact { Takes (λ x. x) result part.new (radio_at part.old) }
    ensures taken { OnOk result (part.old ≡ joined ((64, no_radio) ∷ (1, 0) ∷ []) ++ part.new) }
{
    take_fixed(part, 64, NO_RADIO)?;
    take_fixed(part, 1, 0)
}

/// A field of n bits, which has to be wholly within L_PACKET.
#[inline(always)]
pub(crate) fn take(part: &mut BitPart, n: u32) -> Result<u64, PacketFault>
    requires { (1 ≤ n) × (n ≤ 64) }
    ensures exact { Takes (λ x. x) result part.new (field_at PacketFault.Length n part.old) }
    ensures taken { IfOk result (λ v. part.old ≡ field n v ++ part.new) }
    ensures fits { IfOk result (λ v. v < 2 ^ n) }
{
    match part.take(n) {
        Ok(value) => Ok(value),
        Err(_) => Err(PacketFault::Length),
    }
}

// A field of a header, which has to be wholly within the message.
#[inline(always)]
fn take_header(reader: &mut BitReader, n: u32) -> Result<u64, PacketFault>
    requires { n ≤ 64 }
    ensures exact { Takes (λ x. x) result reader.new (field_at PacketFault.Short n reader.old) }
    ensures taken { IfOk result (λ v. reader.old ≡ field n v ++ reader.new) }
    ensures fits { IfOk result (λ v. v < 2 ^ n) }
{
    match reader.take(n) {
        Ok(value) => Ok(value),
        Err(_) => Err(PacketFault::Short),
    }
}

// The next n bits, which have to be wholly within the message.
#[inline(always)]
fn cut<'a>(reader: &mut BitReader<'a>, n: u32) -> Result<BitReader<'a>, PacketFault>
    ensures exact { Takes (λ x. x) result reader.new (part_at PacketFault.Short n reader.old) }
    ensures taken { IfOk result (λ part. reader.old ≡ part ++ reader.new) }
    ensures length { IfOk result (λ part. length part ≡ n) }
{
    match reader.cut(n) {
        Ok(part) => Ok(part),
        Err(_) => Err(PacketFault::Short),
    }
}

/// NID_PACKET, Q_DIR (nominal) and L_PACKET of a packet of a centre, as one field of 23 bits.
#[inline(always)]
pub(crate) fn track_header(nid_packet: u64, l_packet: u64) -> u64
    requires number { nid_packet < 2 ^ 8 }
    requires length { l_packet < 2 ^ 13 }
    ensures value { field 23 result ≡ joined ((8, nid_packet) ∷ (2, 1) ∷ (13, l_packet) ∷ []) }
    ensures range { result < 2 ^ 23 }
{
    32_768 * nid_packet + 8_192 + l_packet
}

/// The header of a packet of a centre, with its NID_PACKET.
#[inline(always)]
pub(crate) fn usual_header(reader: &mut BitReader, nid_packet: u64, l_packet: u64) -> Option<()>
    requires number { nid_packet < 2 ^ 8 }
    requires length { l_packet < 2 ^ 13 }
    ensures { OnSome result (reader.old ≡ joined ((8, nid_packet) ∷ (2, 1) ∷ (13, l_packet) ∷ []) ++ reader.new) }
{
    usual_fixed(reader, 23, track_header(nid_packet, l_packet))
}

/// NID_RADIO, without a number, and Q_SLEEPSESSION, which is not asked for: 65 ones but for the last, which is a zero.
#[tactic(auto, unfolding(rbc_bits::specs::Bits::field, crate::specs::Layout::joined))]
#[inline(always)]
pub(crate) fn usual_radio(reader: &mut BitReader) -> Option<()>
    ensures { OnSome result (reader.old ≡ joined ((64, no_radio) ∷ (1, 0) ∷ []) ++ reader.new) }
{
    usual_fixed(reader, 32, 4_294_967_295)?;
    usual_fixed(reader, 33, 8_589_934_590)
}

/// A field of n bits that is given one value.
#[inline(always)]
pub(crate) fn usual_fixed(reader: &mut BitReader, n: u32, value: u64) -> Option<()>
    requires { n ≤ 64 }
    ensures { OnSome result (reader.old ≡ field n value ++ reader.new) }
{
    if usual_field(reader, n)? != value {
        return None;
    }
    Some(())
}

/// A field of n bits.
#[inline(always)]
pub(crate) fn usual_field(reader: &mut BitReader, n: u32) -> Option<u64>
    requires { n ≤ 64 }
    ensures taken { IfSome result (λ v. reader.old ≡ field n v ++ reader.new) }
    ensures fits { IfSome result (λ v. v < 2 ^ n) }
{
    reader.take(n).ok()
}
