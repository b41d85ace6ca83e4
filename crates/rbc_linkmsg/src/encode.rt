ghost use Rattle.std.specs.Prelude.{◌≡◌, ◌∷◌, [], IfOk};
ghost use Rattle.rbc_linkmsg.specs.Kinds.{kind_number};
ghost use Rattle.rbc_linkmsg.specs.Spelling.{Spells, spelled};

use crate::body_writing::{kind_of, put_body};
use crate::frame::Frame;
use crate::kind::FrameKind;
use byteorder::{BigEndian, ByteOrder};
use std::alloc::{AllocError, Global};

// A Yield is the longest frame.
const LONGEST: usize = 38;

/// The bytes that spell the frame. They are the only memory, and the only fault is that it runs out.
#[tactic(auto, unfolding(crate::specs::Spelling::spelled))]
pub fn encode_frame(alloc: Global, frame: &Frame) -> Result<Vec<u8>, AllocError>
    ensures spelled { IfOk result (λ bytes. Spells bytes.items frame.now) }
{
    let mut bytes = Vec::with_capacity(alloc, LONGEST)?;
    let kind = kind_of(frame.body());
    bytes.extend_from_slice(&header_bytes(frame.number(), frame.stamp(), kind))?;
    put_body(&mut bytes, frame.body())?;
    Ok(bytes)
}

// The number on the link, the stamp and the kind.
#[inline(always)]
#[tactic(auto, unfolding(crate::specs::Spelling::spelled))]
fn header_bytes(number: u32, stamp: u32, kind: FrameKind) -> [u8; 9]
    ensures { result ≡ spelled ((4, number) ∷ (4, stamp) ∷ (1, kind_number kind) ∷ []) }
{
    let mut bytes = [0; 9];
    BigEndian::write_u32(&mut bytes, number);
    BigEndian::write_u32(&mut bytes[4..], stamp);
    bytes[8] = kind as u8;
    bytes
}
