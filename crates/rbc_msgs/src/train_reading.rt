//! The fields after the header of a train's message, in the order of the tests.

ghost use Rattle.std.specs.Prelude.{◌≡◌, ◌^◌, ◌<◌, ◌++◌, [], ◌∷◌, length, IfOk, IfErr};
ghost use Rattle.std.specs.List.{flat_map, AllByRecursion};
ghost use Rattle.rbc_packets.specs.Layout.{joined};
ghost use Rattle.rbc_packets.specs.Packet.{PacketFits};
ghost use Rattle.rbc_packets.specs.PositionSpelling.{PositionFits};
ghost use Rattle.rbc_packets.specs.Steps.{Takes, TakesUnless};
ghost use Rattle.rbc_msgs.specs.Numbers.{train_number_value};
ghost use Rattle.rbc_msgs.specs.TrainSpelling.{train_number, train_body_bits, position_packet, packet_bits};
ghost use Rattle.rbc_msgs.specs.TrainSpelling.{TrainBodyFits, IsFurther};
ghost use Rattle.rbc_msgs.specs.Kept.{data_packets, MayKeep};
ghost use Rattle.rbc_msgs.specs.TrainReading.{position_packet_at, data_packet_at, train_data_at, request_at};
ghost use Rattle.rbc_msgs.specs.TrainReading.{answered_at, start_of_mission_at, train_body_at, further_packet_at};
ghost use Rattle.rbc_msgs.specs.TrainReading.{further_at};

use crate::fault::MsgFault;
use crate::number::TrainNumber;
use crate::reading::{required, take};
use crate::train_body::TrainBody;
use rbc_bits::BitReader;
use rbc_packets::{Opaque, Packets, Position};
use rbc_vars::{QMarqstreason, QStatus, TTrain};
use std::alloc::Global;

// NID_PACKET of the train data, which are kept without being read.
const TRAIN_DATA: u8 = 11;

/// The body of the message of this NID_MESSAGE.
pub(crate) fn read_body(
    alloc: Global,
    number: TrainNumber,
    reader: &mut BitReader,
) -> Result<TrainBody, MsgFault>
    ensures exact { TakesUnless MsgFault.Memory (λ x. x) result reader.new (train_body_at number reader.old) }
    ensures taken { IfOk result (λ body. reader.old ≡ train_body_bits body ++ reader.new) }
    ensures number { IfOk result (λ body. train_number body ≡ train_number_value number) }
    ensures fits { IfOk result TrainBodyFits }
    // Memory is needed only for the train data.
    ensures memory { IfErr result
        (λ e. e ≡ MsgFault.Memory → MayKeep (λ x. data_packets x.0) (train_body_at number reader.old)) }
{
    match number {
        TrainNumber::TrainData => train_data(alloc, reader),
        TrainNumber::Request => request(reader),
        TrainNumber::Report => {
            let position = position(reader)?;
            Ok(TrainBody::Report { position })
        }
        TrainNumber::ShorteningGranted => {
            let (request, position) = answered(reader)?;
            Ok(TrainBody::ShorteningGranted { request, position })
        }
        TrainNumber::ShorteningRejected => {
            let (request, position) = answered(reader)?;
            Ok(TrainBody::ShorteningRejected { request, position })
        }
        TrainNumber::EndOfMission => {
            let position = position(reader)?;
            Ok(TrainBody::EndOfMission { position })
        }
        TrainNumber::InitiationOfSession => Ok(TrainBody::InitiationOfSession),
        TrainNumber::TerminationOfSession => Ok(TrainBody::TerminationOfSession),
        TrainNumber::StartOfMission => start_of_mission(reader),
        TrainNumber::SessionEstablished => Ok(TrainBody::SessionEstablished),
    }
}

#[tactic(auto, unfolding(crate::specs::TrainReading::train_data_at))]
fn train_data(alloc: Global, reader: &mut BitReader) -> Result<TrainBody, MsgFault>
    ensures exact { TakesUnless MsgFault.Memory (λ x. x) result reader.new (train_data_at reader.old) }
    ensures taken { IfOk result (λ body. reader.old ≡ train_body_bits body ++ reader.new) }
    ensures number { IfOk result (λ body. train_number body ≡ 129) }
    ensures fits { IfOk result TrainBodyFits }
    ensures memory { IfErr result
        (λ e. e ≡ MsgFault.Memory → MayKeep (λ x. data_packets x.0) (train_data_at reader.old)) }
{
    let position = position(reader)?;
    let packet = data_packet(alloc, reader)?;
    Ok(TrainBody::TrainData { position, packet })
}

#[tactic(auto, unfolding(crate::specs::TrainReading::request_at, rbc_packets::specs::Layout::joined))]
fn request(reader: &mut BitReader) -> Result<TrainBody, MsgFault>
    ensures exact { Takes (λ x. x) result reader.new (request_at reader.old) }
    ensures taken { IfOk result (λ body. reader.old ≡ train_body_bits body ++ reader.new) }
    ensures number { IfOk result (λ body. train_number body ≡ 132) }
    ensures fits { IfOk result TrainBodyFits }
{
    let q_marqstreason = QMarqstreason::new(take(reader, 5)?);
    let position = position(reader)?;
    Ok(TrainBody::Request {
        q_marqstreason,
        position,
    })
}

// T_TRAIN of the request that is answered, and the position.
#[tactic(auto, unfolding(crate::specs::TrainReading::answered_at, rbc_packets::specs::Layout::joined))]
fn answered(reader: &mut BitReader) -> Result<(TTrain, Position), MsgFault>
    ensures exact { Takes (λ x. x) result reader.new (answered_at reader.old) }
    ensures taken { IfOk result (λ x. reader.old ≡ joined ((32, x.0) ∷ position_packet x.1) ++ reader.new) }
    ensures time { IfOk result (λ x. x.0 < 2 ^ 32) }
    ensures fits { IfOk result (λ x. PositionFits x.1) }
{
    let request = TTrain::new(take(reader, 32)?);
    let position = position(reader)?;
    Ok((request, position))
}

#[tactic(auto, unfolding(crate::specs::TrainReading::start_of_mission_at, rbc_packets::specs::Layout::joined))]
fn start_of_mission(reader: &mut BitReader) -> Result<TrainBody, MsgFault>
    ensures exact { Takes (λ x. x) result reader.new (start_of_mission_at reader.old) }
    ensures taken { IfOk result (λ body. reader.old ≡ train_body_bits body ++ reader.new) }
    ensures number { IfOk result (λ body. train_number body ≡ 157) }
    ensures fits { IfOk result TrainBodyFits }
{
    let Some(q_status) = QStatus::of(take(reader, 2)?) else {
        return Err(MsgFault::Value);
    };
    let position = position(reader)?;
    Ok(TrainBody::StartOfMission { q_status, position })
}

// Packet 0, which is required.
#[tactic(auto, unfolding(crate::specs::TrainReading::position_packet_at, rbc_packets::specs::Layout::joined))]
#[inline(always)]
fn position(reader: &mut BitReader) -> Result<Position, MsgFault>
    ensures exact { Takes (λ x. x) result reader.new (position_packet_at reader.old) }
    ensures taken { IfOk result (λ p. reader.old ≡ joined (position_packet p) ++ reader.new) }
    ensures fits { IfOk result PositionFits }
{
    required(reader, Position::NID_PACKET)?;
    Ok(Position::read_packet(reader)?)
}

/// Packet 11, which is required.
#[tactic(auto, unfolding(crate::specs::TrainReading::data_packet_at, rbc_packets::specs::Layout::joined))]
pub(crate) fn data_packet(alloc: Global, reader: &mut BitReader) -> Result<Opaque, MsgFault>
    ensures exact { TakesUnless MsgFault.Memory (λ x. x) result reader.new (data_packet_at reader.old) }
    ensures taken { IfOk result (λ p. reader.old ≡ packet_bits p ++ reader.new) }
    ensures number { IfOk result (λ p. p.nid_packet ≡ 11) }
    ensures fits { IfOk result PacketFits }
    ensures memory { IfErr result (λ e. e ≡ MsgFault.Memory → MayKeep (λ x. x.0 ∷ []) (data_packet_at reader.old)) }
{
    required(reader, TRAIN_DATA.into())?;
    Ok(Opaque::read_packet(alloc, TRAIN_DATA, reader)?)
}

/// The further packets, as long as 8 bits or more are left.
#[inline(always)]
pub(crate) fn read_further(alloc: Global, reader: &mut BitReader) -> Result<Packets, MsgFault>
    ensures exact { TakesUnless MsgFault.Memory (λ x. x) result reader.new (further_at (length reader.old) reader.old) }
    ensures taken { IfOk result (λ ps. reader.old ≡ flat_map packet_bits ps ++ reader.new) }
    ensures fits { IfOk result (AllByRecursion IsFurther) }
    // Memory is needed only for a further packet.
    ensures memory { IfErr result
        (λ e. e ≡ MsgFault.Memory → MayKeep (λ x. x.0) (further_at (length reader.old) reader.old)) }
{
    if reader.remaining() < 8 {
        return Ok(Packets::none());
    }
    read_some(alloc, reader)
}

// The same, if there may be some. It is a separate call, since few messages have any.
#[inline(never)]
fn read_some(alloc: Global, reader: &mut BitReader) -> Result<Packets, MsgFault>
    ensures exact { TakesUnless MsgFault.Memory (λ x. x) result reader.new (further_at (length reader.old) reader.old) }
    ensures taken { IfOk result (λ ps. reader.old ≡ flat_map packet_bits ps ++ reader.new) }
    ensures fits { IfOk result (AllByRecursion IsFurther) }
    // Memory is needed only for a further packet.
    ensures memory { IfErr result
        (λ e. e ≡ MsgFault.Memory → MayKeep (λ x. x.0) (further_at (length reader.old) reader.old)) }
{
    let mut further = Vec::new(alloc);
    while reader.remaining() >= 8 {
        further.push(further_packet(alloc, reader)?)?;
    }
    Ok(Packets::of(alloc, further)?)
}

#[tactic(auto, unfolding(crate::specs::TrainReading::further_packet_at, rbc_packets::specs::Layout::joined))]
fn further_packet(alloc: Global, reader: &mut BitReader) -> Result<Opaque, MsgFault>
    ensures exact { TakesUnless MsgFault.Memory (λ x. x) result reader.new (further_packet_at reader.old) }
    ensures taken { IfOk result (λ p. reader.old ≡ packet_bits p ++ reader.new) }
    ensures fits { IfOk result IsFurther }
{
    let nid_packet = take(reader, 8)?;
    if nid_packet == Position::NID_PACKET {
        return Err(MsgFault::Value);
    }
    Ok(Opaque::read_packet(alloc, nid_packet as u8, reader)?)
}
