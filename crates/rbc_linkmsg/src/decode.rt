//! Bytes as a frame. The kind is tested first, and each kind has its own code. The choice is inlined. So a caller finds
//! the frame in the place to which that code wrote it, and no copy is made on the way.

ghost use Rattle.std.specs.Prelude.{◌≡◌, ◌≢◌, ◌≤◌, Ok, length, slice_index, IfOk, OnOk, IfErr};
ghost use Rattle.rbc_spec.specs.Frame as spec;
ghost use Rattle.rbc_linkmsg.specs.Spelling.{Spells};
ghost use Rattle.rbc_linkmsg.specs.Faults.{first_fault};
ghost use Rattle.rbc_linkmsg.specs.Kinds.{kind_number, kind_with};
ghost use Rattle.rbc_linkmsg.specs.declared.fault.FrameFault.TheVariants as faults;

use crate::fault::FrameFault;
use crate::frame::Frame;
use crate::frame_reading::{frame_of, frame_of_yield};
use crate::kind::FrameKind;

/// The frame that the bytes spell, all of the bytes. It takes no memory.
#[inline(always)]
pub fn decode_frame(bytes: &[u8]) -> Result<Frame, FrameFault>
    ensures found { (f : spec.Frame) → Spells bytes.now f → result ≡ Ok f }
    ensures only { IfOk result (λ f. Spells bytes.now f) }
    ensures fault { IfErr result (λ e. e ≡ first_fault bytes.now) }
{
    let kind = kind_in(bytes)?;
    match kind {
        FrameKind::AskRight => frame_of::<1>(bytes),
        FrameKind::GiveRight => frame_of::<2>(bytes),
        FrameKind::RefuseRight => frame_of::<3>(bytes),
        FrameKind::ReturnRight => frame_of::<4>(bytes),
        FrameKind::RouteAsk => frame_of::<5>(bytes),
        FrameKind::RouteInfo => frame_of::<6>(bytes),
        FrameKind::RouteWithdraw => frame_of::<7>(bytes),
        FrameKind::RouteReturn => frame_of::<8>(bytes),
        FrameKind::Announce => frame_of::<9>(bytes),
        FrameKind::Cancel => frame_of::<10>(bytes),
        FrameKind::TakingOver => frame_of::<11>(bytes),
        FrameKind::Yield => frame_of_yield(bytes),
    }
}

// The kind that the ninth byte names.
#[tactic(auto, unfolding(crate::specs::Faults::first_fault))]
fn kind_in(bytes: &[u8]) -> Result<FrameKind, FrameFault>
    ensures fault { IfErr result (λ e. e ≡ first_fault bytes.now) }
    ensures other { IfErr result (λ e. e ≢ faults.Value) }
    ensures length { OnOk result (9 ≤ length bytes.now) }
    ensures kind { IfOk result (λ k. slice_index bytes.now 8 ≡ kind_number k) }
    ensures named { IfOk result (λ k. kind_with (slice_index bytes.now 8) ≡ Ok k) }
{
    if bytes.len() < 9 {
        return Err(FrameFault::Short);
    }
    FrameKind::of(bytes[8])
}
