//! The parts of a train's message, written one after the other, and how long they are.

ghost use Rattle.std.specs.Prelude.{◌≡◌, ◌≢◌, ◌+◌, ◌<◌, ◌≤◌, ◌++◌, ◌^◌, length, All, IfOk, IfErr, OnOk, IsOkUnless};
ghost use Rattle.std.specs.List.{flat_map, AllByRecursion};
ghost use Rattle.rbc_bits.specs.Bits.{bits_of, filled};
ghost use Rattle.rbc_packets.specs.Layout.{joined};
ghost use Rattle.rbc_packets.specs.PositionSpelling.{PositionFits};
ghost use Rattle.rbc_spec.specs.Message.{unknown_time};
ghost use Rattle.rbc_msgs.specs.Layout.{length_limit};
ghost use Rattle.rbc_msgs.specs.TrainSpelling.{train_number, train_header, position_packet, train_body_bits};
ghost use Rattle.rbc_msgs.specs.TrainSpelling.{packet_bits, train_length, TrainFits, IsFurther};

use crate::fault::EncodeFault;
use crate::number::TrainNumber;
use crate::train::TrainMsg;
use crate::train_body::TrainBody;
use rbc_bits::{BitRow, BitWriter};
use rbc_packets::{Opaque, Position};
use std::alloc::Global;

// NID_MESSAGE, L_MESSAGE, T_TRAIN and NID_ENGINE.
const HEADER_BITS: u64 = 74;

// NID_PACKET and L_PACKET.
const PACKET_HEADER_BITS: u64 = 21;

// The number of bits of 1 023 bytes.
const MOST_BITS: u64 = 8184;

/// L_MESSAGE: how many bytes the message has.
pub(crate) fn length_of(message: &TrainMsg) -> Result<u64, EncodeFault>
    ensures ok { IfOk result (λ n. n ≡ train_length message.now) }
    ensures limit { IfOk result (λ n. n < length_limit) }
    ensures fault { IfErr result (λ e. e ≡ EncodeFault.TooLong) }
    ensures too_long { IfErr result (λ e. 1023 < train_length message.now) }
{
    let bits = HEADER_BITS + body_bits(message.body());
    let bits = with_further(bits, message.further())?;
    if bits > MOST_BITS {
        return Err(EncodeFault::TooLong);
    }
    Ok((bits + 7) / 8)
}

// The number of bits with those of the packets. The count ends if there are too many.
fn with_further(front: u64, packets: &[Opaque]) -> Result<u64, EncodeFault>
    requires { front < 2 ^ 14 }
    ensures ok { IfOk result (λ n. n ≡ front + length (flat_map packet_bits packets.now)) }
    ensures few { IfOk result (λ n. n < 2 ^ 15) }
    ensures fault { IfErr result (λ e. e ≡ EncodeFault.TooLong) }
    ensures too_long { IfErr result (λ e. 8184 < front + length (flat_map packet_bits packets.now)) }
{
    let mut bits = front;
    for packet in packets {
        if bits > MOST_BITS {
            return Err(EncodeFault::TooLong);
        }
        bits += packet_length(packet);
    }
    Ok(bits)
}

// How many bits a packet has.
fn packet_length(packet: &Opaque) -> u64
    ensures value { result ≡ length (packet_bits packet.now) }
    ensures range { result < 2 ^ 13 }
{
    PACKET_HEADER_BITS + u64::from(packet.bits().remaining())
}

// The number of bits between the header and the further packets.
fn body_bits(body: &TrainBody) -> u64
    ensures value { result ≡ length (train_body_bits body.now) }
    ensures range { result < 8400 }
{
    match body {
        TrainBody::TrainData { position, packet } => { position.l_packet() + packet_length(packet) }
        TrainBody::Request { position, .. } => 5 + position.l_packet(),
        TrainBody::Report { position } => position.l_packet(),
        TrainBody::ShorteningGranted { position, .. } => 32 + position.l_packet(),
        TrainBody::ShorteningRejected { position, .. } => 32 + position.l_packet(),
        TrainBody::EndOfMission { position } => position.l_packet(),
        TrainBody::StartOfMission { position, .. } => 2 + position.l_packet(),
        TrainBody::InitiationOfSession
        | TrainBody::TerminationOfSession
        | TrainBody::SessionEstablished => 0,
    }
}

// NID_MESSAGE.
fn number_of(body: &TrainBody) -> u64
    ensures value { result ≡ train_number body.now }
    ensures range { result < 2 ^ 8 }
{
    let number = match body {
        TrainBody::TrainData { .. } => TrainNumber::TrainData,
        TrainBody::Request { .. } => TrainNumber::Request,
        TrainBody::Report { .. } => TrainNumber::Report,
        TrainBody::ShorteningGranted { .. } => TrainNumber::ShorteningGranted,
        TrainBody::ShorteningRejected { .. } => TrainNumber::ShorteningRejected,
        TrainBody::EndOfMission { .. } => TrainNumber::EndOfMission,
        TrainBody::InitiationOfSession => TrainNumber::InitiationOfSession,
        TrainBody::TerminationOfSession => TrainNumber::TerminationOfSession,
        TrainBody::StartOfMission { .. } => TrainNumber::StartOfMission,
        TrainBody::SessionEstablished => TrainNumber::SessionEstablished,
    };
    number as u64
}

// The header.
#[tactic(auto, unfolding(rbc_packets::specs::Layout::joined))]
#[inline(always)]
fn header(l_message: u64, message: &TrainMsg) -> BitRow
    requires { l_message < length_limit }
    ensures ok { result ≡ joined (train_header l_message message.now) }
    ensures length { length result ≡ 74 }
    ensures fits { (message.now.t_train < unknown_time) × (message.now.nid_engine < 2 ^ 24) }
{
    let mut row = BitRow::new();
    row.put(number_of(message.body()), 8);
    row.put(l_message, 10);
    row.put(message.t_train().into(), 32);
    row.put(message.nid_engine().into(), 24);
    row
}

/// The bytes of a message that has room for L_MESSAGE. Each body is finished separately, so the positions of its fields
/// are known before they are written.
#[tactic(auto, unfolding(rbc_packets::specs::Layout::joined))]
pub(crate) fn bytes(
    alloc: Global,
    l_message: u64,
    message: &TrainMsg,
) -> Result<Vec<u8>, EncodeFault>
    requires { l_message < length_limit }
    ensures ok { IfOk result
        (λ bytes. bits_of bytes.items
        ≡ filled ((joined (train_header l_message message.now) ++ train_body_bits message.now.body)
        ++ flat_map packet_bits message.now.further)) }
    ensures fits { OnOk result (TrainFits message.now) }
    ensures memory { IsOkUnless result EncodeFault.Memory }
{
    let mut row = header(l_message, message);
    let further = message.further();
    match message.body() {
        TrainBody::TrainData { position, packet } => {
            position.write_packet(&mut row);
            if let Some(()) = packet.put_few(&mut row) {
                return finish(alloc, l_message, row, further);
            }
            let writer = row.writer(alloc, l_message as usize)?;
            let writer = packet.write_packet(writer)?;
            with_packets(writer, further)
        }
        TrainBody::Request {
            q_marqstreason,
            position,
        } => {
            row.put(q_marqstreason.value(), 5);
            with_position(alloc, l_message, row, position, further)
        }
        TrainBody::Report { position } | TrainBody::EndOfMission { position } => {
            with_position(alloc, l_message, row, position, further)
        }
        TrainBody::ShorteningGranted { request, position }
        | TrainBody::ShorteningRejected { request, position } => {
            row.put(request.value(), 32);
            with_position(alloc, l_message, row, position, further)
        }
        TrainBody::StartOfMission { q_status, position } => {
            row.put(q_status.value(), 2);
            with_position(alloc, l_message, row, position, further)
        }
        TrainBody::InitiationOfSession
        | TrainBody::TerminationOfSession
        | TrainBody::SessionEstablished => finish(alloc, l_message, row, further),
    }
}

// The bytes of bits, of a position report after them, and of further packets.
#[inline(always)]
fn with_position(
    alloc: Global,
    l_message: u64,
    mut row: BitRow,
    position: &Position,
    further: &[Opaque],
) -> Result<Vec<u8>, EncodeFault>
    requires room { length row + 137 ≤ 256 }
    requires further { All (λ p. p.nid_packet ≢ 0) further.now }
    ensures ok { IfOk result
        (λ bytes. bits_of bytes.items
        ≡ filled ((row ++ joined (position_packet position.now)) ++ flat_map packet_bits further.now)) }
    ensures fits { OnOk result (PositionFits position.now × AllByRecursion IsFurther further.now) }
    ensures memory { IsOkUnless result EncodeFault.Memory }
{
    position.write_packet(&mut row);
    finish(alloc, l_message, row, further)
}

// The bytes of bits, and of further packets after them.
#[inline(always)]
fn finish(
    alloc: Global,
    l_message: u64,
    row: BitRow,
    further: &[Opaque],
) -> Result<Vec<u8>, EncodeFault>
    requires { All (λ p. p.nid_packet ≢ 0) further.now }
    ensures ok { IfOk result (λ bytes. bits_of bytes.items ≡ filled (row ++ flat_map packet_bits further.now)) }
    ensures fits { OnOk result (AllByRecursion IsFurther further.now) }
    ensures memory { IsOkUnless result EncodeFault.Memory }
{
    if further.is_empty() {
        return Ok(row.finish(alloc)?);
    }
    let writer = row.writer(alloc, l_message as usize)?;
    with_packets(writer, further)
}

// The written bytes, and further packets after them, in their order.
fn with_packets(mut writer: BitWriter, packets: &[Opaque]) -> Result<Vec<u8>, EncodeFault>
    requires { All (λ p. p.nid_packet ≢ 0) packets.now }
    ensures ok { IfOk result (λ bytes. bits_of bytes.items ≡ filled (writer ++ flat_map packet_bits packets.now)) }
    ensures fits { OnOk result (AllByRecursion IsFurther packets.now) }
    ensures memory { IsOkUnless result EncodeFault.Memory }
{
    for packet in packets {
        writer = packet.write_packet(writer)?;
    }
    Ok(writer.finish()?)
}
