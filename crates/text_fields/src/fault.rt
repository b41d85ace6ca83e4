//! The fault of a message or of a frame, and its place among the fields.

ghost use Rattle.std.specs.Prelude.{◌≡◌, length, min, unwrap_or};
ghost use Rattle.text_fields.specs.Refused.{fault_place, fault_words, frame_place, frame_words, has_length};

use crate::seen::Seen;
use rbc_linkmsg::{FrameFault, decode_frame};
use rbc_msgs::{MsgFault, decode_track, decode_train};
use std::alloc::{AllocError, Global};

/// Why the bytes are refused.
#[derive(Clone, Copy)]
pub(crate) struct Refusal {
    /// The number of the decoder's fault.
    pub number: u8,
    pub words: &'static str,
    /// How many fields are shown before the fault.
    pub place: usize,
}

/// Why the decoder refuses a message. None if it reads the message.
pub(crate) fn message_refusal(
    alloc: Global,
    bytes: &[u8],
    seen: &Seen,
) -> Result<Option<Refusal>, AllocError> {
    let Some(fault) = message_fault(alloc, bytes) else {
        return Ok(None);
    };
    if fault == MsgFault::Memory {
        return Err(AllocError);
    }
    Ok(Some(Refusal {
        number: fault.number(),
        words: words_of(fault),
        place: place_of(fault, bytes.len(), seen),
    }))
}

// The fault of the bytes: a number of 128 or more begins a train's message.
fn message_fault(alloc: Global, bytes: &[u8]) -> Option<MsgFault> {
    match bytes.first() {
        Some(number) if *number >= 128 => match decode_train(alloc, bytes) {
            Ok(_) => None,
            Err(fault) => Some(fault),
        },
        _ => match decode_track(bytes) {
            Ok(_) => None,
            Err(fault) => Some(fault),
        },
    }
}

fn words_of(fault: MsgFault) -> &'static str
    ensures { result.now ≡ fault_words fault }
{
    match fault {
        MsgFault::Short => "bytes are missing",
        MsgFault::Length => "L_MESSAGE is not the length of the message",
        MsgFault::Padding => "a filling bit is not zero",
        MsgFault::UnknownNumber => "no message of this NID_MESSAGE is read",
        MsgFault::Packet => "a packet is cut off or has a wrong length",
        MsgFault::Missing => "a packet that has to be there is not",
        MsgFault::Value => "a field has a value that is refused",
        MsgFault::Memory => "memory ran out",
    }
}

// How many fields are shown before the fault.
fn place_of(fault: MsgFault, byte_count: usize, seen: &Seen) -> usize
    ensures { result ≡ min (unwrap_or (fault_place fault byte_count seen.now) (length seen.now.shown.items))
        (length seen.now.shown.items) }
{
    let all = seen.shown.len();
    fault_place(fault, byte_count, seen).unwrap_or(all).min(all)
}

// How many fields are shown before the fault. None if all are.
fn fault_place(fault: MsgFault, byte_count: usize, seen: &Seen) -> Option<usize>
    ensures { result ≡ fault_place fault byte_count seen.now }
{
    match fault {
        MsgFault::Short | MsgFault::Padding | MsgFault::Memory => None,
        MsgFault::UnknownNumber => Some(1),
        MsgFault::Length if has_length(seen, byte_count) => seen.notes.beyond.or(Some(2)),
        MsgFault::Length => Some(2),
        MsgFault::Packet => seen.notes.wrong_packet,
        MsgFault::Missing => seen.notes.missing,
        MsgFault::Value => seen.notes.refused,
    }
}

// Whether L_MESSAGE, the second field, is the number of the bytes.
fn has_length(seen: &Seen, byte_count: usize) -> bool
    ensures { result ≡ has_length seen.now byte_count }
{
    match seen.shown.get(1) {
        Some(l_message) => l_message.value == byte_count as u64,
        None => false,
    }
}

/// Why the decoder refuses a frame. None if it reads the frame.
pub(crate) fn frame_refusal(bytes: &[u8], seen: &Seen) -> Option<Refusal> {
    let fault = match decode_frame(bytes) {
        Ok(_) => return None,
        Err(fault) => fault,
    };
    let all = seen.shown.len();
    Some(Refusal {
        number: fault.number(),
        words: frame_words(fault),
        place: frame_place(fault, seen).unwrap_or(all).min(all),
    })
}

fn frame_words(fault: FrameFault) -> &'static str
    ensures { result.now ≡ frame_words fault }
{
    match fault {
        FrameFault::Short => "bytes are missing",
        FrameFault::Length => "bytes follow the frame",
        FrameFault::Kind => "no frame has this kind",
        FrameFault::Value => "a field is out of its range",
    }
}

// How many fields are shown before the fault. None if all are.
fn frame_place(fault: FrameFault, seen: &Seen) -> Option<usize>
    ensures { result ≡ frame_place fault seen.now }
{
    match fault {
        FrameFault::Short => None,
        FrameFault::Length => seen.notes.beyond,
        FrameFault::Kind => Some(3),
        FrameFault::Value => seen.notes.refused,
    }
}
