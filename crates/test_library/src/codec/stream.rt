//! A train's messages on a stream, whose bytes arrive in any pieces; and the same messages written again. No command
//! reads a stream or writes a train's message.

use crate::codec::bytes::bytes_of;
use rbc_msgs::{MsgFault, Stream, StreamFault, TrainMsg, encode_train};
use std::alloc::Global;
use std::test::*;

// A stream in pieces, with commas between them (`-` has no bytes). Then the results of the calls, with semicolons
// between them: the bytes of the messages that a call appends, and its fault.
static STREAMS: [(&str, &str); 12] = [
    (
        "9B,02,80,00,00,00,40,00,00,40",
        "none; none; none; none; none; none; none; none; none; 9B028000000040000040",
    ),
    ("9B,02,40", "none; none; fault 2"),
    ("920280,9B028000000040000040,-", "fault 4; fault 9; fault 9"),
    ("9B028000000040000040", "9B028000000040000040"),
    (
        "9B0280000000400000409D0680000000C00000500040A0280CA096140050014406400418",
        "9B028000000040000040 + 9D0680000000C00000500040A0280CA096140050014406400418",
    ),
    (
        "9B0280000000400000409D0680000000C00000500040A0280CA096140050,0144064004189B02,8000000040000040",
        "9B028000000040000040; 9D0680000000C00000500040A0280CA096140050014406400418; 9B028000000040000040",
    ),
    (
        "-,9B02800000,-,0040000040,-",
        "none; none; none; 9B028000000040000040; none",
    ),
    (
        "9B0280000000400000409B0280000000400000419B028000000040000040,9B028000000040000040",
        "9B028000000040000040 + fault 3; fault 9",
    ),
    ("9B0280000000400000,41", "none; fault 3"),
    (
        "9B02800000004000004092,02,80",
        "9B028000000040000040; none; fault 4",
    ),
    ("9B02BFFFFFFFC00000,40", "none; fault 7"),
    // A message of each number, with further packets at the end.
    (
        "81070000000100000040010280A03282585001400510190010616015,8406800000014000004200081405019412C2800A002880C80083,88068000000180000040010280A03300D2500140051019001060,8907800000018000004000000140010280A0328258500140051019001060,8A0780000001C000004000000180010280A0328258500140051019001060,96068000000100000040010280A0328258500140051019001060,9B028000000040000040,9C0280000000C0000040,9D0680000000C00000500040A0280CA096140050014406400418,9F028000000080000040,9B04C00000004000004040356FF00A85807404",
        "81070000000100000040010280A03282585001400510190010616015; 8406800000014000004200081405019412C2800A002880C80083; 88068000000180000040010280A03300D2500140051019001060; 8907800000018000004000000140010280A0328258500140051019001060; 8A0780000001C000004000000180010280A0328258500140051019001060; 96068000000100000040010280A0328258500140051019001060; 9B028000000040000040; 9C0280000000C0000040; 9D0680000000C00000500040A0280CA096140050014406400418; 9F028000000080000040; 9B04C00000004000004040356FF00A85807404",
    ),
];

// A message, with further packets at its end.
const REPORT: &str = "88068000000180000040010280A03300D2500140051019001060";

#[test]
fn each_call_gives_what_is_whole_then(rt: HostRuntime) -> Result<(), Fail> {
    for (pieces, answers) in &STREAMS {
        let said = answers_to(rt.alloc(), pieces)?;
        assert!(rt; said.as_slice() == answers.as_bytes(), "{pieces}");
    }
    Ok(())
}

// The result of each call for a stream in pieces, as text.
fn answers_to(alloc: Global, pieces: &str) -> Result<Vec<u8>, Fail> {
    let mut stream = Stream::new(alloc);
    let mut said = Vec::new(alloc);
    for piece in pieces.split(',') {
        let piece = if piece == "-" { "" } else { piece };
        let bytes = bytes_of(alloc, piece)?;
        let answer = answer_to(alloc, &mut stream, &bytes)?;
        add(&mut said, b"; ", &answer)?;
    }
    Ok(said)
}

// The result of a call, as text.
fn answer_to(alloc: Global, stream: &mut Stream, piece: &[u8]) -> Result<Vec<u8>, Fail> {
    let mut messages = Vec::new(alloc);
    let result = stream.feed(piece, &mut messages);
    let mut said = all_written(alloc, &messages)?;
    if let Err(fault) = result {
        let fault = format!(in alloc; "fault {}", fault.number())?;
        add(&mut said, b" + ", fault.as_bytes())?;
    }
    if said.is_empty() {
        said.extend_from_slice(b"none")?;
    }
    Ok(said)
}

// The bytes of a copy of each message, in hexadecimal.
fn all_written(alloc: Global, messages: &[TrainMsg]) -> Result<Vec<u8>, Fail> {
    let mut said = Vec::new(alloc);
    for message in messages {
        add(&mut said, b" + ", written(alloc, message)?.as_bytes())?;
    }
    Ok(said)
}

// The bytes of a copy of the message, in hexadecimal.
fn written(alloc: Global, message: &TrainMsg) -> Result<String, Fail> {
    let copy = message.copied(alloc)?;
    let bytes = encode_train(alloc, &copy)
        .ok()
        .ok_or("it is written again")?;
    Ok(hex::encode_upper(alloc, &bytes)?)
}

// Adds a text. If there is a text already, a mark is added first.
fn add(said: &mut Vec<u8>, mark: &[u8], text: &[u8]) -> Result<(), Fail> {
    if !said.is_empty() {
        said.extend_from_slice(mark)?;
    }
    said.extend_from_slice(text)?;
    Ok(())
}

#[test]
fn a_megabyte_comes_in_one_piece(rt: HostRuntime) -> Result<(), Fail> {
    let message = bytes_of(rt.alloc(), REPORT)?;
    let (begin, rest) = message.split_at(message.len().min(9));
    let bytes = megabyte(rt.alloc(), &message, begin)?;
    assert!(rt; counts_after(rt.alloc(), &bytes, rest) == Ok([40_330, 40_331]));
    Ok(())
}

// The counts of messages after each of these pieces of a stream.
fn counts_after(alloc: Global, first: &[u8], second: &[u8]) -> Result<[usize; 2], StreamFault> {
    let mut stream = Stream::new(alloc);
    let mut messages = Vec::new(alloc);
    stream.feed(first, &mut messages)?;
    let count = messages.len();
    stream.feed(second, &mut messages)?;
    Ok([count, messages.len()])
}

// 40 330 whole messages, and after them the beginning of one.
fn megabyte(alloc: Global, message: &[u8], begin: &[u8]) -> Result<Vec<u8>, Fail> {
    let mut bytes = Vec::new(alloc);
    for _ in 0..40_330 {
        bytes.extend_from_slice(message)?;
    }
    bytes.extend_from_slice(begin)?;
    Ok(bytes)
}

/// Message 129 of a train. It needs memory for its packet 11.
pub static TRAIN_DATA: [u8; 28] = [
    0x81, 0x07, 0x00, 0x00, 0x00, 0x01, 0x00, 0x00, 0x00, 0x40, 0x01, 0x02, 0x80, 0xA0, 0x32, 0x82,
    0x58, 0x50, 0x01, 0x40, 0x05, 0x10, 0x19, 0x00, 0x10, 0x61, 0x60, 0x15,
];

// Feeds the message, and then again in two pieces. The result is whether memory sufficed, and whether each call
// reported the missing memory. The first of them has to report it as such.
fn fed(alloc: Global, messages: &mut Vec<TrainMsg>) -> (bool, bool) {
    let mut stream = Stream::new(alloc);
    let mut memory = true;
    let mut is_told = true;
    for piece in [&TRAIN_DATA[..], &TRAIN_DATA[..20], &TRAIN_DATA[20..]] {
        let fed = stream.feed(piece, messages);
        if memory {
            memory = fed == Ok(());
            is_told &= memory || fed == Err(StreamFault::Message(MsgFault::Memory));
        } else {
            is_told &= fed == Err(StreamFault::Failed);
        }
    }
    (memory, is_told)
}

// Made to be run with each allocation failing in turn (`rt try --test --fail-alloc N`).
#[test]
fn want_of_memory_is_a_fault_too(rt: HostRuntime) {
    let mut messages = Vec::new(rt.alloc());
    let (memory, is_told) = fed(rt.alloc(), &mut messages);
    assert!(rt; (is_told, messages.len() == 2) == (true, memory));
    for message in &messages {
        if let Ok(copy) = message.copied(rt.alloc()) {
            assert!(rt; copy.is_same(message));
        }
    }
}
