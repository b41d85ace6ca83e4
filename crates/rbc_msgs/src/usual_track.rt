//! Messages of centres with fields at known positions: a movement authority, a transition order, the end of a session,
//! or only a header. If the length and the number are known before one is read, only values are tested. `None` is
//! another message, or a fault; then the bytes are read field by field.

ghost use Rattle.std.specs.Prelude.{◌≡◌, ◌^◌, ◌<◌, ◌++◌, [], Ok, length, IfSome, OnSome};
ghost use Rattle.rbc_spec.specs.Message.{unknown_time};
ghost use Rattle.rbc_bits.specs.Bits.{field, bits_of};
ghost use Rattle.rbc_msgs.specs.Bodies.{track_body};
ghost use Rattle.rbc_msgs.specs.Layout.{IsFilling, length_limit};
ghost use Rattle.rbc_msgs.specs.Numbers.{track_number_value};
ghost use Rattle.rbc_msgs.specs.TrackSpelling.{track_number, track_body_fields, TrackBodyFits, SpellsTrack};
ghost use Rattle.rbc_msgs.specs.TrackReading.{read_track};

use crate::fault::MsgFault;
use crate::number::TrackNumber;
use crate::reading::{end, start_of, take, take_fixed, take_time, whole};
use crate::track::{TrackBody, TrackMsg};
use rbc_bits::BitReader;
use rbc_packets::{Authority, SessionOrder, Transition};

// T_TRAIN, NID_LRBG, and the bits after the header.
#[derive(Drop)]
struct Header<'a> {
    t_train: u32,
    nid_lrbg: u32,
    rest: BitReader<'a>,
}

/// Message 3.
#[inline(always)]
pub(crate) fn authority(bytes: &[u8]) -> Option<TrackMsg>
    ensures exact { IfSome result (λ m. read_track bytes.now ≡ Ok m) }
    ensures found { IfSome result (λ m. SpellsTrack bytes.now m) }
{
    let mut header = read_header(TrackNumber::MovementAuthority, bytes)?;
    let authority = Authority::usual(&mut header.rest)?;
    message(header, TrackBody::Authority(authority))
}

/// Message 24 with packet 131.
#[inline(always)]
pub(crate) fn transition(bytes: &[u8]) -> Option<TrackMsg>
    ensures exact { IfSome result (λ m. read_track bytes.now ≡ Ok m) }
    ensures found { IfSome result (λ m. SpellsTrack bytes.now m) }
{
    let mut header = read_header(TrackNumber::GeneralMessage, bytes)?;
    let transition = Transition::usual(&mut header.rest)?;
    message(header, TrackBody::Transition(transition))
}

/// Message 24 with packet 42.
#[inline(always)]
pub(crate) fn end_of_session(bytes: &[u8]) -> Option<TrackMsg>
    ensures exact { IfSome result (λ m. read_track bytes.now ≡ Ok m) }
    ensures found { IfSome result (λ m. SpellsTrack bytes.now m) }
{
    let mut header = read_header(TrackNumber::GeneralMessage, bytes)?;
    let order = SessionOrder::usual(&mut header.rest)?;
    message(header, TrackBody::EndSession(order))
}

/// Messages 39, 40 and 41.
#[inline(always)]
pub(crate) fn bare(bytes: &[u8]) -> Option<TrackMsg>
    ensures exact { IfSome result (λ m. read_track bytes.now ≡ Ok m) }
    ensures found { IfSome result (λ m. SpellsTrack bytes.now m) }
{
    if bytes.is_empty() {
        return None;
    }
    let Ok(number) = TrackNumber::of(bytes[0].into()) else {
        return None;
    };
    let header = read_header(number, bytes)?;
    message(header, bare_body(number)?)
}

// The body of a message of this number, if it has no bits.
#[inline(always)]
fn bare_body(number: TrackNumber) -> Option<TrackBody>
    ensures number { IfSome result (λ body. track_number (track_body body) ≡ track_number_value number) }
    ensures fields { IfSome result (λ body. track_body_fields (track_body body) ≡ []) }
    ensures fits { IfSome result (λ body. TrackBodyFits (track_body body)) }
{
    match number {
        TrackNumber::TerminationAcknowledged => Some(TrackBody::TerminationAcknowledged),
        TrackNumber::TrainRejected => Some(TrackBody::TrainRejected),
        TrackNumber::TrainAccepted => Some(TrackBody::TrainAccepted),
        _ => None,
    }
}

// The header of the message of this number.
#[inline(always)]
fn read_header(number: TrackNumber, bytes: &[u8]) -> Option<Header<'_>>
    ensures taken { IfSome result
        (λ h. bits_of bytes.now ≡ field 8 (track_number_value number) ++ (field 10 (length bytes.now)
        ++ (field 32 h.t_train ++ (field 1 0 ++ (field 24 h.nid_lrbg ++ h.rest))))) }
    ensures time { IfSome result (λ h. h.t_train < unknown_time) }
    ensures group { IfSome result (λ h. h.nid_lrbg < 2 ^ 24) }
    ensures length { OnSome result (length bytes.now < length_limit) }
{
    let Ok((found, l_message)) = start_of(bytes) else {
        return None;
    };
    if found != number.value() {
        return None;
    }
    let Ok(mut rest) = whole(number.least_length(), l_message, bytes) else {
        return None;
    };
    let Ok(t_train) = take_time(&mut rest) else {
        return None;
    };
    let Ok(()) = take_fixed(&mut rest, 1, 0) else {
        return None;
    };
    let Ok(nid_lrbg) = take(&mut rest, 24) else {
        return None;
    };
    Some(Header {
        t_train,
        nid_lrbg: nid_lrbg as u32,
        rest,
    })
}

// The message with this header and body, if only filling bits follow them.
#[inline(always)]
fn message(header: Header, body: TrackBody) -> Option<TrackMsg>
    requires time { header.t_train < unknown_time }
    requires group { header.nid_lrbg < 2 ^ 24 }
    ensures value { IfSome result (λ m. m
        ≡ record { t_train = header.entry.t_train; nid_lrbg = header.entry.nid_lrbg; body = track_body body }) }
    ensures filling { OnSome result (IsFilling header.entry.rest) }
{
    let Ok(()) = end(header.rest, MsgFault::Length) else {
        return None;
    };
    Some(TrackMsg::new(header.t_train, header.nid_lrbg, body))
}
