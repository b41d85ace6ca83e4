//! The body of a frame, each kind's fields at their places.

ghost use Rattle.std.specs.Prelude.{◌≡◌, ◌+◌, ◌<◌, ◌≤◌, ◌++◌, ◌∷◌, [], length, drop, OnOk};
ghost use Rattle.rbc_line.specs.SectionRuns.{run_of};
ghost use Rattle.rbc_spec.specs.Frame.{HasBodyRange};
ghost use Rattle.rbc_linkmsg.specs.Bodies.{body_of, place_of};
ghost use Rattle.rbc_linkmsg.specs.Spelling as spelling;

use crate::body::{Body, YieldedPlace, Yielding};
use crate::kind::FrameKind;
use byteorder::{BigEndian, ByteOrder};
use rbc_line::SectionRun;
use std::alloc::AllocError;

/// The kind of the frame.
pub(crate) fn kind_of(body: Body) -> FrameKind
    ensures { result ≡ spelling.kind_of (body_of body) }
{
    match body {
        Body::AskRight { .. } => FrameKind::AskRight,
        Body::GiveRight { .. } => FrameKind::GiveRight,
        Body::RefuseRight { .. } => FrameKind::RefuseRight,
        Body::ReturnRight { .. } => FrameKind::ReturnRight,
        Body::RouteAsk { .. } => FrameKind::RouteAsk,
        Body::RouteInfo { .. } => FrameKind::RouteInfo,
        Body::RouteWithdraw { .. } => FrameKind::RouteWithdraw,
        Body::RouteReturn { .. } => FrameKind::RouteReturn,
        Body::Announce { .. } => FrameKind::Announce,
        Body::Cancel { .. } => FrameKind::Cancel,
        Body::TakingOver { .. } => FrameKind::TakingOver,
        Body::Yield { .. } => FrameKind::Yield,
    }
}

/// The fields after the kind.
pub(crate) fn put_body(bytes: &mut Vec<u8>, body: Body) -> Result<(), AllocError>
    requires { HasBodyRange (body_of body) }
    ensures { OnOk result
        (bytes.new.items ≡ bytes.old.items ++ spelling.spelled (spelling.body_fields (body_of body))) }
{
    match body {
        Body::AskRight { engine }
        | Body::GiveRight { engine }
        | Body::RefuseRight { engine }
        | Body::ReturnRight { engine } => bytes.extend_from_slice(&engine_bytes(engine)),
        Body::RouteAsk {
            engine,
            first,
            most,
        } => {
            let run = SectionRun { first, count: most };
            bytes.extend_from_slice(&route_bytes(engine, run))
        }
        Body::RouteInfo { engine, run } | Body::RouteReturn { engine, run } => {
            bytes.extend_from_slice(&route_bytes(engine, run))
        }
        Body::RouteWithdraw { engine, section } => {
            bytes.extend_from_slice(&section_bytes(engine, section))
        }
        Body::Announce {
            handover,
            engine,
            track,
        } => bytes.extend_from_slice(&announced_bytes(handover, engine, track)),
        Body::Cancel { handover, engine } | Body::TakingOver { handover, engine } => {
            bytes.extend_from_slice(&handover_bytes(handover, engine))
        }
        Body::Yield {
            handover,
            engine,
            yielding,
        } => bytes.extend_from_slice(&yield_bytes(handover, engine, yielding)),
    }
}

// Only NID_ENGINE.
#[inline(always)]
#[tactic(auto, unfolding(crate::specs::Spelling::spelled))]
fn engine_bytes(engine: u32) -> [u8; 4]
    ensures { result ≡ spelling.spelled ((4, engine) ∷ []) }
{
    let mut bytes = [0; 4];
    BigEndian::write_u32(&mut bytes, engine);
    bytes
}

// NID_ENGINE and a run of sections.
#[inline(always)]
#[tactic(auto, unfolding(crate::specs::Spelling::spelled))]
fn route_bytes(engine: u32, run: SectionRun) -> [u8; 7]
    requires { run.count < 256 }
    ensures { result ≡ spelling.spelled ((4, engine) ∷ spelling.run_fields (run_of run)) }
{
    let mut bytes = [0; 7];
    BigEndian::write_u32(&mut bytes, engine);
    write_run(&mut bytes[4..], run);
    bytes
}

// NID_ENGINE and a section.
#[inline(always)]
#[tactic(auto, unfolding(crate::specs::Spelling::spelled))]
fn section_bytes(engine: u32, section: u16) -> [u8; 6]
    ensures { result ≡ spelling.spelled ((4, engine) ∷ (2, section) ∷ []) }
{
    let mut bytes = [0; 6];
    BigEndian::write_u32(&mut bytes, engine);
    BigEndian::write_u16(&mut bytes[4..], section);
    bytes
}

// The handover's number and NID_ENGINE.
#[inline(always)]
#[tactic(auto, unfolding(crate::specs::Spelling::spelled))]
fn handover_bytes(handover: u32, engine: u32) -> [u8; 8]
    ensures { result ≡ spelling.spelled ((4, handover) ∷ (4, engine) ∷ []) }
{
    let mut bytes = [0; 8];
    BigEndian::write_u32(&mut bytes, handover);
    BigEndian::write_u32(&mut bytes[4..], engine);
    bytes
}

// The handover's number, NID_ENGINE and the track.
#[inline(always)]
#[tactic(auto, unfolding(crate::specs::Spelling::spelled))]
fn announced_bytes(handover: u32, engine: u32, track: u8) -> [u8; 9]
    ensures { result ≡ spelling.spelled ((4, handover) ∷ (4, engine) ∷ (1, track) ∷ []) }
{
    let mut bytes = [0; 9];
    BigEndian::write_u32(&mut bytes, handover);
    BigEndian::write_u32(&mut bytes[4..], engine);
    bytes[8] = track;
    bytes
}

// The fields of a Yield.
#[inline(always)]
#[tactic(auto, unfolding(crate::specs::Spelling::spelled))]
fn yield_bytes(handover: u32, engine: u32, yielding: Yielding) -> [u8; 29]
    requires { yielding.hand.count < 256 }
    ensures { result ≡ spelling.spelled ((4, handover) ∷ (4, engine) ∷ (4, yielding.heard)
        ∷ (spelling.place_fields yielding.has_data yielding.is_ended (place_of yielding.place)
        ++ spelling.run_fields (run_of yielding.hand))) }
{
    let mut bytes = [0; 29];
    BigEndian::write_u32(&mut bytes, handover);
    BigEndian::write_u32(&mut bytes[4..], engine);
    BigEndian::write_u32(&mut bytes[8..], yielding.heard);
    write_place(
        &mut bytes[12..],
        yielding.has_data,
        yielding.is_ended,
        yielding.place,
    );
    write_run(&mut bytes[26..], yielding.hand);
    bytes
}

// A place, and the flags. One of them marks the rear as known.
#[inline(always)]
#[tactic(auto, unfolding(crate::specs::Spelling::spelled))]
fn write_place(bytes: &mut [u8], has_data: bool, is_ended: bool, place: YieldedPlace)
    requires { 14 ≤ length bytes.old }
    ensures { bytes.new
        ≡ spelling.spelled (spelling.place_fields has_data is_ended (place_of place)) ++ drop 14 bytes.old }
{
    bytes[0] = place.track;
    bytes[1] = flags(has_data, is_ended, place.rear.is_some());
    BigEndian::write_u32(&mut bytes[2..], place.group);
    write_ends(&mut bytes[6..], place);
}

// The front and the rear.
#[inline(always)]
#[tactic(auto, unfolding(crate::specs::Spelling::spelled))]
fn write_ends(bytes: &mut [u8], place: YieldedPlace)
    requires { 8 ≤ length bytes.old }
    ensures { bytes.new
        ≡ spelling.spelled ((4, spelling.distance place.front) ∷ (4, spelling.rear_distance place.rear) ∷ [])
        ++ drop 8 bytes.old }
{
    BigEndian::write_u32(bytes, place.front.cast_unsigned());
    BigEndian::write_u32(&mut bytes[4..], rear_distance(place.rear));
}

// The first section and how many they are.
#[inline(always)]
#[tactic(auto, unfolding(crate::specs::Spelling::spelled))]
fn write_run(bytes: &mut [u8], run: SectionRun)
    requires room { 3 ≤ length bytes.old }
    requires count { run.count < 256 }
    ensures { bytes.new ≡ spelling.spelled (spelling.run_fields (run_of run)) ++ drop 3 bytes.old }
{
    BigEndian::write_u16(bytes, run.first);
    bytes[2] = run.count as u8;
}

// The flags of a Yield.
fn flags(has_data: bool, is_ended: bool, has_rear: bool) -> u8
    ensures { result ≡ spelling.bit 1 has_data + spelling.bit 2 is_ended + spelling.bit 4 has_rear }
{
    let data = if has_data { 1 } else { 0 };
    let ended = if is_ended { 2 } else { 0 };
    let rear = if has_rear { 4 } else { 0 };
    data + ended + rear
}

/// The rear, or 0 if it is not known.
pub(crate) fn rear_distance(rear: Option<i32>) -> u32
    ensures { result ≡ spelling.rear_distance rear }
{
    match rear {
        Some(distance) => distance.cast_unsigned(),
        None => 0,
    }
}
