//! The parts of a centre's message, written one after the other, and how long they are.

ghost use Rattle.std.specs.Prelude.{◌≡◌, ◌<◌, ◌++◌, ◌^◌, ◌∷◌, [], length, IfOk, IsOkUnless};
ghost use Rattle.rbc_bits.specs.Bits.{bits_of, filled};
ghost use Rattle.rbc_packets.specs.Layout.{joined};
ghost use Rattle.rbc_spec.specs.Message.{unknown_time};
ghost use Rattle.rbc_msgs.specs.Bodies.{track_body};
ghost use Rattle.rbc_msgs.specs.Layout.{length_limit};
ghost use Rattle.rbc_msgs.specs.TrackSpelling.{track_number, track_body_fields, track_length, TrackBodyFits};

use crate::fault::EncodeFault;
use crate::number::TrackNumber;
use crate::track::{TrackBody, TrackMsg, VERSION_2_0};
use rbc_bits::BitRow;
use rbc_packets::{Authority, SessionOrder, Transition};
use std::alloc::Global;

// NID_MESSAGE, L_MESSAGE, T_TRAIN, M_ACK and NID_LRBG.
const HEADER_BITS: u64 = 75;

/// L_MESSAGE: how many bytes the message has.
#[inline(always)]
pub(crate) fn length_of(body: TrackBody) -> u64
    ensures value { result ≡ track_length (track_body body) }
    ensures limit { result < length_limit }
{
    let bits = match body {
        TrackBody::Authority(_) | TrackBody::ShorteningRequest(_) => Authority::L_PACKET,
        TrackBody::DataAcknowledged(_) => 32,
        TrackBody::Transition(_) => Transition::L_PACKET,
        TrackBody::EndSession(_) => SessionOrder::L_PACKET,
        TrackBody::SystemVersion => 7,
        TrackBody::TerminationAcknowledged | TrackBody::TrainRejected | TrackBody::TrainAccepted =>
            0,
    };
    (HEADER_BITS + bits + 7) / 8
}

/// NID_MESSAGE.
#[inline(always)]
pub(crate) fn number_of(body: TrackBody) -> u64
    ensures value { result ≡ track_number (track_body body) }
    ensures range { result < 2 ^ 8 }
{
    let number = match body {
        TrackBody::Authority(_) => TrackNumber::MovementAuthority,
        TrackBody::DataAcknowledged(_) => TrackNumber::DataAcknowledged,
        TrackBody::ShorteningRequest(_) => TrackNumber::ShorteningRequest,
        TrackBody::Transition(_) | TrackBody::EndSession(_) => TrackNumber::GeneralMessage,
        TrackBody::SystemVersion => TrackNumber::SystemVersion,
        TrackBody::TerminationAcknowledged => TrackNumber::TerminationAcknowledged,
        TrackBody::TrainRejected => TrackNumber::TrainRejected,
        TrackBody::TrainAccepted => TrackNumber::TrainAccepted,
    };
    number as u64
}

/// The header of a message of this NID_MESSAGE and L_MESSAGE.
#[tactic(auto, unfolding(rbc_packets::specs::Layout::joined))]
#[inline(always)]
pub(crate) fn header(number: u64, l_message: u64, message: &TrackMsg) -> BitRow
    requires number { number < 2 ^ 8 }
    requires length { l_message < length_limit }
    ensures ok { result
        ≡ joined ((8, number) ∷ (10, l_message) ∷ (32, message.now.t_train) ∷ (1, 0)
        ∷ (24, message.now.nid_lrbg) ∷ []) }
    ensures length { length result ≡ 75 }
    ensures fits { (message.now.t_train < unknown_time) × (message.now.nid_lrbg < 2 ^ 24) }
{
    let mut row = BitRow::new();
    row.put(number, 8);
    row.put(l_message, 10);
    row.put(message.t_train().into(), 32);
    row.put(0, 1);
    row.put(message.nid_lrbg().into(), 24);
    row
}

/// The bytes of a message of this header and this body. Each body is finished separately, so the positions of its
/// fields are known before they are written.
#[tactic(auto, unfolding(rbc_packets::specs::Layout::joined))]
#[inline(always)]
pub(crate) fn bytes(alloc: Global, mut row: BitRow, body: TrackBody) -> Result<Vec<u8>, EncodeFault>
    requires { length row ≡ 75 }
    ensures ok { IfOk result
        (λ bytes. bits_of bytes.items ≡ filled (row ++ joined (track_body_fields (track_body body)))) }
    ensures fits { TrackBodyFits (track_body body) }
    ensures memory { IsOkUnless result EncodeFault.Memory }
{
    match body {
        TrackBody::Authority(authority) | TrackBody::ShorteningRequest(authority) => {
            authority.write_packet(&mut row);
            Ok(row.finish(alloc)?)
        }
        TrackBody::DataAcknowledged(t_train) => {
            row.put(t_train.value(), 32);
            Ok(row.finish(alloc)?)
        }
        TrackBody::Transition(transition) => {
            transition.write_packet(&mut row);
            Ok(row.finish(alloc)?)
        }
        TrackBody::EndSession(order) => {
            order.write_packet(&mut row);
            Ok(row.finish(alloc)?)
        }
        TrackBody::SystemVersion => {
            row.put(VERSION_2_0, 7);
            Ok(row.finish(alloc)?)
        }
        TrackBody::TerminationAcknowledged | TrackBody::TrainRejected | TrackBody::TrainAccepted =>
            Ok(row.finish(alloc)?),
    }
}
