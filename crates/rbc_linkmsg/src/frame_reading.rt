//! The frame of a known kind, read from bytes of its length. The function that reads a frame exists once for each kind
//! and is not inlined, so a result is written to its place at once. If the paths of all kinds joined, each would carry
//! the words of the largest.

ghost use Rattle.std.specs.Prelude.{◌≡◌, ◌≢◌, ◌+◌, ◌^◌, ◌<◌, ◌≤◌, ◌++◌, Ok, length, slice_index, IfOk, OnOk, IfErr};
ghost use Rattle.byteorder.specs.Endian.{big_bytes};
ghost use Rattle.rbc_spec.specs.Frame as spec;
ghost use Rattle.rbc_linkmsg.specs.Bodies.{body_of};
ghost use Rattle.rbc_linkmsg.specs.Spelling.{Spells, kind_of};
ghost use Rattle.rbc_linkmsg.specs.Kinds.{kind_length, kind_number, kind_with};
ghost use Rattle.rbc_linkmsg.specs.Faults.{first_fault};
ghost use Rattle.rbc_linkmsg.specs.declared.fault.FrameFault.TheVariants as faults;
ghost use Rattle.rbc_linkmsg.specs.declared.kind.FrameKind.TheVariants as kinds;

use crate::body::Body;
use crate::body_reading::read_body;
use crate::fault::FrameFault;
use crate::frame::Frame;
use crate::kind::FrameKind;
use crate::ranges::{is_header, is_in_range};
use crate::reading::{take_u8, take_u32};
use crate::yield_reading::read_yield;

/// The frame of the kind that this byte names. A Yield, whose flags may be refused, has a function of its own.
#[inline(never)]
pub(crate) fn frame_of<const KIND: u8>(bytes: &[u8]) -> Result<Frame, FrameFault>
    requires length { 9 ≤ length bytes.now }
    requires kind { slice_index bytes.now 8 ≡ KIND }
    requires other { KIND ≢ kind_number kinds.Yield }
    ensures found { (f : spec.Frame) → Spells bytes.now f → result ≡ Ok f }
    ensures only { IfOk result (λ f. Spells bytes.now f) }
    ensures fault { IfErr result (λ e. e ≡ first_fault bytes.now) }
{
    let kind = FrameKind::of(KIND)?;
    check_length(kind, bytes)?;
    let (number, stamp, _kind, rest) = read_header(bytes);
    let body = read_body(kind, rest);
    check_ranges(number, stamp, body)?;
    let frame = Frame::new(number, stamp, body);
    Ok(frame)
}

/// The frame of a Yield.
#[inline(never)]
pub(crate) fn frame_of_yield(bytes: &[u8]) -> Result<Frame, FrameFault>
    requires length { 9 ≤ length bytes.now }
    requires kind { slice_index bytes.now 8 ≡ kind_number kinds.Yield }
    requires named { kind_with (slice_index bytes.now 8) ≡ Ok kinds.Yield }
    ensures found { (f : spec.Frame) → Spells bytes.now f → result ≡ Ok f }
    ensures only { IfOk result (λ f. Spells bytes.now f) }
    ensures fault { IfErr result (λ e. e ≡ first_fault bytes.now) }
{
    check_length(FrameKind::Yield, bytes)?;
    let Some(body) = read_yield(bytes) else {
        return Err(FrameFault::Value);
    };
    let (number, stamp, _kind, _rest) = read_header(bytes);
    if !is_header(number, stamp) {
        return Err(FrameFault::Value);
    }
    let frame = Frame::new(number, stamp, body);
    Ok(frame)
}

// Tests that the number of bytes is that of a frame of this kind.
#[inline(always)]
#[tactic(auto, unfolding(crate::specs::Faults::first_fault))]
fn check_length(kind: FrameKind, bytes: &[u8]) -> Result<(), FrameFault>
    requires length { 9 ≤ length bytes.now }
    requires named { kind_with (slice_index bytes.now 8) ≡ Ok kind }
    ensures fault { IfErr result (λ e. e ≡ first_fault bytes.now) }
    ensures other { IfErr result (λ e. e ≢ faults.Value) }
    ensures length { OnOk result (length bytes.now ≡ kind_length kind) }
    ensures value { OnOk result (first_fault bytes.now ≡ faults.Value) }
{
    if bytes.len() == kind.length() {
        Ok(())
    } else if bytes.len() < kind.length() {
        Err(FrameFault::Short)
    } else {
        Err(FrameFault::Length)
    }
}

// The number on the link, the stamp, the kind's byte, and the bytes after them.
#[inline(always)]
fn read_header(bytes: &[u8]) -> (u32, u32, u8, &[u8])
    requires { 9 ≤ length bytes.now }
    ensures taken { bytes.now
        ≡ big_bytes 4 result.0 ++ (big_bytes 4 result.1 ++ (big_bytes 1 result.2 ++ result.3.now)) }
    ensures length { length bytes.now ≡ 9 + length result.3.now }
    ensures number { result.0 < 256 ^ 4 }
    ensures stamp { result.1 < 256 ^ 4 }
    ensures kind { result.2 < 256 ^ 1 }
{
    let (number, rest) = take_u32(bytes);
    let (stamp, rest) = take_u32(rest);
    let (kind, rest) = take_u8(rest);
    (number, stamp, kind, rest)
}

// Whether a frame may have this number, stamp and body.
#[inline(always)]
fn check_ranges(number: u32, stamp: u32, body: Body) -> Result<(), FrameFault>
    requires { kind_of (body_of body) ≢ kinds.Yield }
    ensures ranges { OnOk result
        (spec.HasFrameRanges (record { number = number; stamp = stamp; body = body_of body })) }
    ensures refused { IfErr result
        (λ e. spec.HasFrameRanges (record { number = number; stamp = stamp; body = body_of body }) → ⊥) }
    ensures fault { IfErr result (λ e. e ≡ faults.Value) }
{
    if !is_header(number, stamp) {
        return Err(FrameFault::Value);
    }
    if !is_in_range(body) {
        return Err(FrameFault::Value);
    }
    Ok(())
}
