//! The fields after the header of a centre's message, in the order of the tests.

ghost use Rattle.std.specs.Prelude.{◌≡◌, ◌++◌, ◌∷◌, IfOk};
ghost use Rattle.rbc_bits.specs.Bits.{field};
ghost use Rattle.rbc_packets.specs.Layout.{joined, track_packet};
ghost use Rattle.rbc_packets.specs.TrackSpelling.{authority_fields, AuthorityFits};
ghost use Rattle.rbc_packets.specs.Steps.{Takes};
ghost use Rattle.rbc_msgs.specs.Bodies.{track_body};
ghost use Rattle.rbc_msgs.specs.Numbers.{track_number_value};
ghost use Rattle.rbc_msgs.specs.TrackSpelling.{track_number, track_body_fields, TrackBodyFits};
ghost use Rattle.rbc_msgs.specs.TrackReading.{end_of_authority_at, transition_order_at, end_of_session_at};
ghost use Rattle.rbc_msgs.specs.TrackReading.{general_at, track_body_at};

use crate::fault::MsgFault;
use crate::number::TrackNumber;
use crate::reading::{required, take, take_fixed, take_number};
use crate::track::{TrackBody, VERSION_2_0};
use rbc_bits::BitReader;
use rbc_packets::{Authority, SessionOrder, Transition};
use rbc_vars::TTrain;

/// The body of the message of this NID_MESSAGE.
#[tactic(auto, unfolding(rbc_packets::specs::Layout::joined))]
#[inline(always)]
pub(crate) fn read_body(number: TrackNumber, reader: &mut BitReader) -> Result<TrackBody, MsgFault>
    ensures exact { Takes track_body result reader.new (track_body_at number reader.old) }
    ensures taken { IfOk result (λ body. reader.old ≡ joined (track_body_fields (track_body body)) ++ reader.new) }
    ensures number { IfOk result (λ body. track_number (track_body body) ≡ track_number_value number) }
    ensures fits { IfOk result (λ body. TrackBodyFits (track_body body)) }
{
    match number {
        TrackNumber::MovementAuthority => {
            let authority = authority(reader)?;
            Ok(TrackBody::Authority(authority))
        }
        TrackNumber::DataAcknowledged => {
            let t_train = TTrain::new(take(reader, 32)?);
            Ok(TrackBody::DataAcknowledged(t_train))
        }
        TrackNumber::ShorteningRequest => {
            let authority = authority(reader)?;
            Ok(TrackBody::ShorteningRequest(authority))
        }
        TrackNumber::GeneralMessage => general(reader),
        TrackNumber::SystemVersion => {
            take_fixed(reader, 7, VERSION_2_0)?;
            Ok(TrackBody::SystemVersion)
        }
        TrackNumber::TerminationAcknowledged => Ok(TrackBody::TerminationAcknowledged),
        TrackNumber::TrainRejected => Ok(TrackBody::TrainRejected),
        TrackNumber::TrainAccepted => Ok(TrackBody::TrainAccepted),
    }
}

// Packet 15, which is required.
#[tactic(auto, unfolding(crate::specs::TrackReading::end_of_authority_at, rbc_packets::specs::Layout::joined))]
#[inline(always)]
fn authority(reader: &mut BitReader) -> Result<Authority, MsgFault>
    ensures exact { Takes (λ a. a.l_endsection) result reader.new (end_of_authority_at reader.old) }
    ensures taken { IfOk result (λ a. reader.old ≡ joined ((8, 15) ∷ track_packet (authority_fields a)) ++ reader.new) }
    ensures fits { IfOk result AuthorityFits }
{
    required(reader, Authority::NID_PACKET)?;
    Ok(Authority::read_packet(reader)?)
}

// Packet 131 or packet 42, one of which is required.
#[tactic(auto, unfolding(crate::specs::TrackReading::general_at, rbc_packets::specs::Layout::joined))]
#[inline(always)]
fn general(reader: &mut BitReader) -> Result<TrackBody, MsgFault>
    ensures exact { Takes track_body result reader.new (general_at reader.old) }
    ensures taken { IfOk result (λ body. reader.old ≡ joined (track_body_fields (track_body body)) ++ reader.new) }
    ensures number { IfOk result (λ body. track_number (track_body body) ≡ 24) }
    ensures fits { IfOk result (λ body. TrackBodyFits (track_body body)) }
{
    match take_number(reader)? {
        Transition::NID_PACKET => transition(reader),
        SessionOrder::NID_PACKET => end_of_session(reader),
        _ => Err(MsgFault::Missing),
    }
}

#[tactic(auto, unfolding(crate::specs::TrackReading::transition_order_at, rbc_packets::specs::Layout::joined))]
#[inline(always)]
fn transition(reader: &mut BitReader) -> Result<TrackBody, MsgFault>
    ensures exact { Takes track_body result reader.new (transition_order_at reader.old) }
    ensures taken { IfOk result
        (λ body. field 8 131 ++ reader.old ≡ joined (track_body_fields (track_body body)) ++ reader.new) }
    ensures number { IfOk result (λ body. track_number (track_body body) ≡ 24) }
    ensures fits { IfOk result (λ body. TrackBodyFits (track_body body)) }
{
    let transition = Transition::read_packet(reader)?;
    Ok(TrackBody::Transition(transition))
}

#[tactic(auto, unfolding(crate::specs::TrackReading::end_of_session_at, rbc_packets::specs::Layout::joined))]
#[inline(always)]
fn end_of_session(reader: &mut BitReader) -> Result<TrackBody, MsgFault>
    ensures exact { Takes track_body result reader.new (end_of_session_at reader.old) }
    ensures taken { IfOk result
        (λ body. field 8 42 ++ reader.old ≡ joined (track_body_fields (track_body body)) ++ reader.new) }
    ensures number { IfOk result (λ body. track_number (track_body body) ≡ 24) }
    ensures fits { IfOk result (λ body. TrackBodyFits (track_body body)) }
{
    let order = SessionOrder::read_packet(reader)?;
    Ok(TrackBody::EndSession(order))
}
