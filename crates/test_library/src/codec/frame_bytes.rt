//! Frames between centres as bytes: one of each body, those at the limits of each field, and bytes that do not spell a
//! frame.

use crate::codec::bytes::bytes_of;
use rbc_linkmsg::{Body, Frame, FrameFault, decode_frame, encode_frame};
use std::alloc::Global;
use std::test::*;

// A frame of each body, and frames at the limits of each field.
static FRAMES: [&str; 26] = [
    "00000001000000040100000002",
    "00000001000000050200000002",
    "00000002000000060400000002",
    "00000001000000050300000001",
    "0000000100000008050000000100041D",
    "00000001000000090600000001000400",
    "000000020000000B0800000001000403",
    "000000020000000A07000000010004",
    "000000020000000B09000000010000000100",
    "00000003000000100B0000000100000001",
    "00000004000000110C00000001000000010000000600050001406500003F480000364C000106",
    "00000005000000100A0000000100000001",
    "000100003FFFFFFF0100FFFFFF",
    "00000001000000010100000000",
    "0000000100000001050000000101FF01",
    "0000000100000001050000000101E11F",
    "0000000100000001060000000101FF00",
    "0000000100000001060000000101E11F",
    "0000000100000001070000000101FF",
    "0000000100000001080000000101C13F",
    "000000010000000109FFFFFFFF0000000103",
    "00000001000000010AFFFFFFFF00000001",
    "00000001000000010B0000000100000000",
    "00000001000000010CFFFFFFFF00FFFFFFFFFFFFFE030700FFFFFE7FFFFFFF8000000001E020",
    "00000001000000010C000000010000000100000000000000000000FFFFFFFF00000000000001",
    "00000001000000010C0000000100000001000000000004000000000000000100000000000001",
];

// Bytes that do not spell a frame, and their fault.
static FAULTS: [(&str, FrameFault); 47] = [
    ("", FrameFault::Short),
    ("0000000100000004", FrameFault::Short),
    ("0000000000000000", FrameFault::Short),
    ("000000000000000000", FrameFault::Kind),
    ("00000001000000040D", FrameFault::Kind),
    ("00000001000000040D00000002", FrameFault::Kind),
    ("0000000100000004FF0000000200", FrameFault::Kind),
    ("000000010000000401", FrameFault::Short),
    ("000000010000000401000000", FrameFault::Short),
    ("000000000000000001", FrameFault::Short),
    ("0000000100000004010000000200", FrameFault::Length),
    ("0000000000000000010000000000", FrameFault::Length),
    ("00000000000000040100000002", FrameFault::Value),
    ("00010001000000040100000002", FrameFault::Value),
    ("00000001000000000100000002", FrameFault::Value),
    ("00000001400000000100000002", FrameFault::Value),
    ("00000001000000010101000000", FrameFault::Value),
    ("00000001000000010201000000", FrameFault::Value),
    ("00000001000000010301000000", FrameFault::Value),
    ("00000001000000010401000000", FrameFault::Value),
    ("00000001000000010500000001000400", FrameFault::Value),
    ("00000001000000010500000001000420", FrameFault::Value),
    ("00000001000000010500000001020001", FrameFault::Value),
    ("0000000100000001050000000101FF02", FrameFault::Value),
    ("00000001000000010600000001000420", FrameFault::Value),
    ("00000001000000010600000001020000", FrameFault::Value),
    ("0000000100000001060000000101FF02", FrameFault::Value),
    ("000000010000000107000000010200", FrameFault::Value),
    ("00000001000000010800000001000400", FrameFault::Value),
    ("00000001000000010800000001000440", FrameFault::Value),
    ("0000000100000001080000000101C23F", FrameFault::Value),
    ("000000010000000109000000000000000100", FrameFault::Value),
    ("000000010000000109000000010000000104", FrameFault::Value),
    ("00000001000000010A0000000000000001", FrameFault::Value),
    ("00000001000000010B0000000000000001", FrameFault::Value),
    ("00000001000000010B0000000101000000", FrameFault::Value),
    (
        "00000004000000110C00000000000000010000000600050001406500003F480000364C000106",
        FrameFault::Value,
    ),
    (
        "00000004000000110C00000001010000000000000600050001406500003F480000364C000106",
        FrameFault::Value,
    ),
    (
        "00000004000000110C0000000100000001FFFFFFFF00050001406500003F480000364C000106",
        FrameFault::Value,
    ),
    (
        "00000004000000110C00000001000000010000000604050001406500003F480000364C000106",
        FrameFault::Value,
    ),
    (
        "00000004000000110C00000001000000010000000600080001406500003F480000364C000106",
        FrameFault::Value,
    ),
    (
        "00000004000000110C00000001000000010000000600010001406500003F480000364C000106",
        FrameFault::Value,
    ),
    (
        "00000004000000110C000000010000000100000006000500FFFFFF00003F480000364C000106",
        FrameFault::Value,
    ),
    (
        "00000004000000110C00000001000000010000000600050001406500003F480000364C020006",
        FrameFault::Value,
    ),
    (
        "00000004000000110C00000001000000010000000600050001406500003F480000364C000100",
        FrameFault::Value,
    ),
    (
        "00000004000000110C00000001000000010000000600050001406500003F480000364C000121",
        FrameFault::Value,
    ),
    (
        "00000004000000110C00000001000000010000000600050001406500003F480000364C01FB06",
        FrameFault::Value,
    ),
];

// Whether these are the bytes of the frame.
fn is_spelled(alloc: Global, frame: &Frame, text: &str) -> Result<bool, Fail> {
    let wanted = bytes_of(alloc, text)?;
    let bytes = encode_frame(alloc, frame)?;
    Ok(bytes.as_slice() == wanted.as_slice())
}

// Whether these bytes have this fault. If they have none, they spell a frame, which is written as these bytes.
fn is_read_so(alloc: Global, text: &str, fault: Option<FrameFault>) -> Result<bool, Fail> {
    let bytes = bytes_of(alloc, text)?;
    match decode_frame(&bytes) {
        Ok(frame) => Ok(fault == None && is_spelled(alloc, &frame, text)?),
        Err(why) => Ok(fault == Some(why)),
    }
}

#[test]
fn each_frame_is_read_and_written_and_other_bytes_have_a_fault(
    rt: HostRuntime,
) -> Result<(), Fail> {
    let asked = Frame::new(1, 4, Body::AskRight { engine: 2 });
    let given = Frame::new(1, 5, Body::GiveRight { engine: 2 });
    for (frame, text) in [(asked, FRAMES[0]), (given, FRAMES[1])] {
        assert!(rt; is_spelled(rt.alloc(), &frame, text)?, "{text}");
    }
    for text in &FRAMES {
        assert!(rt; is_read_so(rt.alloc(), text, None)?, "{text}");
    }
    for (text, fault) in &FAULTS {
        assert!(rt; is_read_so(rt.alloc(), text, Some(*fault))?, "{text}");
    }
    Ok(())
}
