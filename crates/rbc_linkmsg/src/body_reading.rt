//! The body of a frame, read from bytes of its length.

ghost use Rattle.std.specs.Prelude.{◌≡◌, ◌≢◌, ◌+◌, ◌∷◌, [], length};
ghost use Rattle.rbc_spec.specs.Frame as spec;
ghost use Rattle.rbc_line.specs.SectionRuns.{run_of};
ghost use Rattle.rbc_linkmsg.specs.Bodies.{body_of};
ghost use Rattle.rbc_linkmsg.specs.Kinds.{kind_length};
ghost use Rattle.rbc_linkmsg.specs.Spelling as spelling;
ghost use Rattle.rbc_linkmsg.specs.declared.kind.FrameKind.TheVariants as kinds;

use crate::body::Body;
use crate::kind::FrameKind;
use crate::reading::{read_run, take_u8, take_u16, take_u32};
use rbc_line::SectionRun;

/// The body that the bytes after the kind spell. A Yield, whose flags may be refused, has a reader of its own.
#[inline(always)]
pub(crate) fn read_body(kind: FrameKind, bytes: &[u8]) -> Body
    requires length { 9 + length bytes.now ≡ kind_length kind }
    requires other { kind ≢ kinds.Yield }
    ensures spelled { bytes.now ≡ spelling.spelled (spelling.body_fields (body_of result)) }
    ensures kind { spelling.kind_of (body_of result) ≡ kind }
    ensures found { (f : spec.Body) → spec.HasBodyRange f → spelling.kind_of f ≡ kind
        → bytes.now ≡ spelling.spelled (spelling.body_fields f) → body_of result ≡ f }
{
    match kind {
        FrameKind::AskRight => {
            let engine = read_engine(bytes);
            Body::AskRight { engine }
        }
        FrameKind::GiveRight => {
            let engine = read_engine(bytes);
            Body::GiveRight { engine }
        }
        FrameKind::RefuseRight => {
            let engine = read_engine(bytes);
            Body::RefuseRight { engine }
        }
        FrameKind::ReturnRight => {
            let engine = read_engine(bytes);
            Body::ReturnRight { engine }
        }
        FrameKind::RouteAsk => {
            let (engine, run) = read_route(bytes);
            Body::RouteAsk {
                engine,
                first: run.first,
                most: run.count,
            }
        }
        FrameKind::RouteInfo => {
            let (engine, run) = read_route(bytes);
            Body::RouteInfo { engine, run }
        }
        FrameKind::RouteWithdraw => {
            let (engine, section) = read_section(bytes);
            Body::RouteWithdraw { engine, section }
        }
        FrameKind::RouteReturn => {
            let (engine, run) = read_route(bytes);
            Body::RouteReturn { engine, run }
        }
        FrameKind::Announce => {
            let (handover, engine, track) = read_announced(bytes);
            Body::Announce {
                handover,
                engine,
                track,
            }
        }
        FrameKind::Cancel => {
            let (handover, engine) = read_handover(bytes);
            Body::Cancel { handover, engine }
        }
        FrameKind::TakingOver => {
            let (handover, engine) = read_handover(bytes);
            Body::TakingOver { handover, engine }
        }
        FrameKind::Yield => unreachable!(),
    }
}

// Only NID_ENGINE.
#[tactic(auto, unfolding(crate::specs::Spelling::spelled))]
fn read_engine(bytes: &[u8]) -> u32
    requires { length bytes.now ≡ 4 }
    ensures spelled { bytes.now ≡ spelling.spelled ((4, result) ∷ []) }
    ensures fits { spelling.AllFit ((4, result) ∷ []) }
{
    let (engine, _rest) = take_u32(bytes);
    engine
}

// NID_ENGINE and a run of sections.
#[tactic(auto, unfolding(crate::specs::Spelling::spelled))]
fn read_route(bytes: &[u8]) -> (u32, SectionRun)
    requires { length bytes.now ≡ 7 }
    ensures spelled { bytes.now ≡ spelling.spelled ((4, result.0) ∷ spelling.run_fields (run_of result.1)) }
    ensures fits { spelling.AllFit ((4, result.0) ∷ spelling.run_fields (run_of result.1)) }
{
    let (engine, rest) = take_u32(bytes);
    let run = read_run(rest);
    (engine, run)
}

// NID_ENGINE and a section.
#[tactic(auto, unfolding(crate::specs::Spelling::spelled))]
fn read_section(bytes: &[u8]) -> (u32, u16)
    requires { length bytes.now ≡ 6 }
    ensures spelled { bytes.now ≡ spelling.spelled ((4, result.0) ∷ (2, result.1) ∷ []) }
    ensures fits { spelling.AllFit ((4, result.0) ∷ (2, result.1) ∷ []) }
{
    let (engine, rest) = take_u32(bytes);
    let (section, _rest) = take_u16(rest);
    (engine, section)
}

// The handover's number and NID_ENGINE.
#[tactic(auto, unfolding(crate::specs::Spelling::spelled))]
fn read_handover(bytes: &[u8]) -> (u32, u32)
    requires { length bytes.now ≡ 8 }
    ensures spelled { bytes.now ≡ spelling.spelled ((4, result.0) ∷ (4, result.1) ∷ []) }
    ensures fits { spelling.AllFit ((4, result.0) ∷ (4, result.1) ∷ []) }
{
    let (handover, rest) = take_u32(bytes);
    let (engine, _rest) = take_u32(rest);
    (handover, engine)
}

// The handover's number, NID_ENGINE and the track.
#[tactic(auto, unfolding(crate::specs::Spelling::spelled))]
fn read_announced(bytes: &[u8]) -> (u32, u32, u8)
    requires { length bytes.now ≡ 9 }
    ensures spelled { bytes.now ≡ spelling.spelled ((4, result.0) ∷ (4, result.1) ∷ (1, result.2) ∷ []) }
    ensures fits { spelling.AllFit ((4, result.0) ∷ (4, result.1) ∷ (1, result.2) ∷ []) }
{
    let (handover, rest) = take_u32(bytes);
    let (engine, rest) = take_u32(rest);
    let (track, _rest) = take_u8(rest);
    (handover, engine, track)
}
