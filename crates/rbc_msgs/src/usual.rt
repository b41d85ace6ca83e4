//! The usual messages of trains: with a position report of the usual length and without a further packet. If the length
//! and the number are known before one is read, the positions of its fields are known, and only values are tested.
//! `None` is another message, or a fault; then the bytes are read field by field.

ghost use Rattle.std.specs.Prelude.{◌≡◌, ◌^◌, ◌<◌, ◌++◌, Bool, List, [], Ok, length, IfSome, OnSome};
ghost use Rattle.rbc_spec.specs.Message.{unknown_time};
ghost use Rattle.rbc_bits.specs.Bits.{field, bits_of};
ghost use Rattle.rbc_packets.specs.Layout.{joined};
ghost use Rattle.rbc_packets.specs.PositionSpelling.{PositionFits};
ghost use Rattle.rbc_msgs.specs.Layout.{IsFilling, length_limit};
ghost use Rattle.rbc_msgs.specs.Numbers.{train_number_value};
ghost use Rattle.rbc_msgs.specs.TrainSpelling.{position_packet, train_number, train_body_bits, TrainBodyFits};
ghost use Rattle.rbc_msgs.specs.TrainSpelling.{SpellsTrain};
ghost use Rattle.rbc_msgs.specs.TrainReading.{read_train};

use crate::fault::MsgFault;
use crate::number::TrainNumber;
use crate::reading::{end, required, start_of, take, take_time, whole};
use crate::train::TrainMsg;
use crate::train_body::TrainBody;
use crate::train_reading::data_packet;
use rbc_bits::{BitReader, BitWord};
use rbc_packets::{Packets, Position};
use rbc_vars::{QMarqstreason, QStatus, TTrain};
use std::alloc::Global;

// The least number of bytes of train data after a position report of the usual length. If there are as many, the
// positions of the report's fields are known.
const SHORTEST_DATA: usize = 28;

// T_TRAIN, NID_ENGINE, and the bits after the header.
#[derive(Drop)]
struct Header<'a> {
    t_train: u32,
    nid_engine: u32,
    rest: BitReader<'a>,
}

/// Message 136.
#[inline(always)]
pub(crate) fn report(bytes: &[u8]) -> Option<TrainMsg>
    ensures exact { IfSome result (λ m. read_train bytes.now ≡ Ok m) }
    ensures found { IfSome result (λ m. SpellsTrain bytes.now m) }
{
    let header = read_header(TrainNumber::Report, bytes)?;
    let position = last_position(header.rest)?;
    let body = TrainBody::Report { position };
    Some(TrainMsg::new(header.t_train, header.nid_engine, body, Packets::none()))
}

/// Message 132.
#[inline(always)]
pub(crate) fn request(bytes: &[u8]) -> Option<TrainMsg>
    ensures exact { IfSome result (λ m. read_train bytes.now ≡ Ok m) }
    ensures found { IfSome result (λ m. SpellsTrain bytes.now m) }
{
    let mut header = read_header(TrainNumber::Request, bytes)?;
    let Ok(value) = take(&mut header.rest, 5) else {
        return None;
    };
    let q_marqstreason = QMarqstreason::new(value);
    let position = last_position(header.rest)?;
    let body = TrainBody::Request {
        q_marqstreason,
        position,
    };
    Some(TrainMsg::new(header.t_train, header.nid_engine, body, Packets::none()))
}

/// Message 137.
#[inline(always)]
pub(crate) fn granted(bytes: &[u8]) -> Option<TrainMsg>
    ensures exact { IfSome result (λ m. read_train bytes.now ≡ Ok m) }
    ensures found { IfSome result (λ m. SpellsTrain bytes.now m) }
{
    let mut header = read_header(TrainNumber::ShorteningGranted, bytes)?;
    let Ok(value) = take(&mut header.rest, 32) else {
        return None;
    };
    let request = TTrain::new(value);
    let position = last_position(header.rest)?;
    let body = TrainBody::ShorteningGranted { request, position };
    Some(TrainMsg::new(header.t_train, header.nid_engine, body, Packets::none()))
}

/// Message 138.
#[inline(always)]
pub(crate) fn rejected(bytes: &[u8]) -> Option<TrainMsg>
    ensures exact { IfSome result (λ m. read_train bytes.now ≡ Ok m) }
    ensures found { IfSome result (λ m. SpellsTrain bytes.now m) }
{
    let mut header = read_header(TrainNumber::ShorteningRejected, bytes)?;
    let Ok(value) = take(&mut header.rest, 32) else {
        return None;
    };
    let request = TTrain::new(value);
    let position = last_position(header.rest)?;
    let body = TrainBody::ShorteningRejected { request, position };
    Some(TrainMsg::new(header.t_train, header.nid_engine, body, Packets::none()))
}

/// Message 150.
#[inline(always)]
pub(crate) fn end_of_mission(bytes: &[u8]) -> Option<TrainMsg>
    ensures exact { IfSome result (λ m. read_train bytes.now ≡ Ok m) }
    ensures found { IfSome result (λ m. SpellsTrain bytes.now m) }
{
    let header = read_header(TrainNumber::EndOfMission, bytes)?;
    let position = last_position(header.rest)?;
    let body = TrainBody::EndOfMission { position };
    Some(TrainMsg::new(header.t_train, header.nid_engine, body, Packets::none()))
}

/// Message 157.
#[inline(always)]
pub(crate) fn start_of_mission(bytes: &[u8]) -> Option<TrainMsg>
    ensures exact { IfSome result (λ m. read_train bytes.now ≡ Ok m) }
    ensures found { IfSome result (λ m. SpellsTrain bytes.now m) }
{
    let mut header = read_header(TrainNumber::StartOfMission, bytes)?;
    let Ok(value) = take(&mut header.rest, 2) else {
        return None;
    };
    let q_status = QStatus::of(value)?;
    let position = last_position(header.rest)?;
    let body = TrainBody::StartOfMission { q_status, position };
    Some(TrainMsg::new(header.t_train, header.nid_engine, body, Packets::none()))
}

/// Message 129.
#[inline(always)]
pub(crate) fn train_data(alloc: Global, bytes: &[u8]) -> Option<TrainMsg>
    ensures exact { IfSome result (λ m. read_train bytes.now ≡ Ok m) }
    ensures found { IfSome result (λ m. SpellsTrain bytes.now m) }
{
    if bytes.len() < SHORTEST_DATA {
        return None;
    }
    let mut header = read_header(TrainNumber::TrainData, bytes)?;
    let bits = position_bits(&mut header.rest)?;
    let position = Position::of_usual(bits)?;
    let Ok(packet) = data_packet(alloc, &mut header.rest) else {
        return None;
    };
    let Ok(()) = end(header.rest, MsgFault::Packet) else {
        return None;
    };
    let body = TrainBody::TrainData { position, packet };
    Some(TrainMsg::new(header.t_train, header.nid_engine, body, Packets::none()))
}

/// Messages 155, 156 and 159.
#[inline(always)]
pub(crate) fn bare(bytes: &[u8]) -> Option<TrainMsg>
    ensures exact { IfSome result (λ m. read_train bytes.now ≡ Ok m) }
    ensures found { IfSome result (λ m. SpellsTrain bytes.now m) }
{
    if bytes.is_empty() {
        return None;
    }
    let Ok(number) = TrainNumber::of(bytes[0].into()) else {
        return None;
    };
    let header = read_header(number, bytes)?;
    let Ok(()) = end(header.rest, MsgFault::Packet) else {
        return None;
    };
    let body = bare_body(number)?;
    Some(TrainMsg::new(header.t_train, header.nid_engine, body, Packets::none()))
}

// The body of a message of this number, if it has no bits.
#[inline(always)]
fn bare_body(number: TrainNumber) -> Option<TrainBody>
    ensures number { IfSome result (λ body. train_number body ≡ train_number_value number) }
    ensures bits { IfSome result (λ body. train_body_bits body ≡ []) }
    ensures fits { IfSome result TrainBodyFits }
{
    match number {
        TrainNumber::InitiationOfSession => Some(TrainBody::InitiationOfSession),
        TrainNumber::TerminationOfSession => Some(TrainBody::TerminationOfSession),
        TrainNumber::SessionEstablished => Some(TrainBody::SessionEstablished),
        _ => None,
    }
}

// The header of the message of this number.
#[inline(always)]
fn read_header(number: TrainNumber, bytes: &[u8]) -> Option<Header<'_>>
    ensures taken { IfSome result
        (λ h. bits_of bytes.now ≡ field 8 (train_number_value number) ++ (field 10 (length bytes.now)
        ++ (field 32 h.t_train ++ (field 24 h.nid_engine ++ h.rest)))) }
    ensures time { IfSome result (λ h. h.t_train < unknown_time) }
    ensures engine { IfSome result (λ h. h.nid_engine < 2 ^ 24) }
    ensures length { OnSome result (length bytes.now < length_limit) }
{
    let Ok((found, l_message)) = start_of(bytes) else {
        return None;
    };
    if found != number.value() {
        return None;
    }
    let Ok(mut rest) = whole(number.least_length(), l_message, bytes) else {
        return None;
    };
    let Ok(t_train) = take_time(&mut rest) else {
        return None;
    };
    let Ok(nid_engine) = take(&mut rest, 24) else {
        return None;
    };
    Some(Header {
        t_train,
        nid_engine: nid_engine as u32,
        rest,
    })
}

// A position report of the usual length, followed only by filling bits.
#[inline(always)]
fn last_position(mut rest: BitReader) -> Option<Position>
    ensures taken { IfSome result
        (λ p. (left : List Bool) × (rest.entry ≡ joined (position_packet p) ++ left) × IsFilling left) }
    ensures fits { IfSome result PositionFits }
{
    let bits = position_bits(&mut rest)?;
    let Ok(()) = end(rest, MsgFault::Packet) else {
        return None;
    };
    let position = Position::of_usual(bits)?;
    Some(position)
}

// NID_PACKET and L_PACKET of a position report of the usual length, and the bits after them.
#[inline(always)]
fn position_bits(reader: &mut BitReader) -> Option<BitWord>
    ensures taken { IfSome result (λ bits. reader.old ≡ field 8 0 ++ (field 13 129 ++ (bits ++ reader.new))) }
    ensures length { IfSome result (λ bits. length bits ≡ 108) }
{
    let Ok(()) = required(reader, Position::NID_PACKET) else {
        return None;
    };
    Position::usual_bits(reader)
}
