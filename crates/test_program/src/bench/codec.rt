//! The rate at which the codec reads and writes messages, and frames between centres.

ghost use Rattle.std.specs.Prelude.{◌≡◌, ◌%◌, set};

use rbc_linkmsg::{decode_frame, encode_frame};
use rbc_msgs::{decode_track, decode_train, encode_track, encode_train};
use std::io;
use std::time::Instant;

static TRAIN: [(&str, &[u8]); 4] = [
    (
        "129",
        &[
            0x81, 0x07, 0, 0, 0, 1, 0, 0, 0, 0x40, 1, 2, 0x80, 0xA0, 0x32, 0x82, 0x58, 0x50, 1,
            0x40, 5, 0x10, 0x19, 0, 0x10, 0x61, 0x60, 0x15,
        ],
    ),
    (
        "132",
        &[
            0x84, 0x06, 0x80, 0, 0, 1, 0x40, 0, 0, 0x42, 0, 8, 0x14, 5, 1, 0x94, 0x12, 0xC2, 0x80,
            0x0A, 0, 0x28, 0x80, 0xC8, 0, 0x83,
        ],
    ),
    (
        "136",
        &[
            0x88, 0x06, 0x80, 0, 0, 1, 0x80, 0, 0, 0x40, 1, 2, 0x80, 0xA0, 0x33, 0, 0xD2, 0x50, 1,
            0x40, 5, 0x10, 0x19, 0, 0x10, 0x60,
        ],
    ),
    (
        "157",
        &[
            0x9D, 0x06, 0x80, 0, 0, 0, 0xC0, 0, 0, 0x50, 0, 0x40, 0xA0, 0x28, 0x0C, 0xA0, 0x96,
            0x14, 0, 0x50, 1, 0x44, 6, 0x40, 4, 0x18,
        ],
    ),
];

static TRACK: [(&str, &[u8]); 3] = [
    (
        "3",
        &[
            3, 4, 0x80, 0, 0, 1, 0, 0x28, 0x0C, 0xA1, 0xE8, 0x10, 0x90, 0x1F, 0xF8, 5, 0xDC, 0,
        ],
    ),
    (
        "24",
        &[
            0x18, 6, 0x80, 0, 0, 1, 0x80, 0x28, 0x0C, 0xB0, 0x68, 0x20, 0x51, 0x77, 0, 0x28, 0,
            0x5F, 0xFF, 0xFF, 0xFF, 0xFF, 0xFF, 0xFF, 0xFF, 0xE0,
        ],
    ),
    ("41", &[0x29, 2, 0x80, 0, 0, 0, 0x9F, 0xFF, 0xFF, 0xE0]),
];

static FRAMES: [(&str, &[u8]); 3] = [
    ("AskRight", &[0, 0, 0, 1, 0, 0, 0, 4, 1, 0, 0, 0, 2]),
    (
        "RouteReturn",
        &[0, 0, 0, 4, 0, 0, 0, 9, 8, 0, 0, 0, 1, 0, 1, 3],
    ),
    (
        "Yield",
        &[
            0, 0, 0, 4, 0, 0, 0, 0x11, 0x0C, 0, 0, 0, 1, 0, 0, 0, 1, 0, 0, 0, 6, 0, 5, 0, 1, 0x40,
            0x65, 0, 0, 0x3F, 0x48, 0, 0, 0x36, 0x4C, 0, 1, 6,
        ],
    ),
];

/// Reads and writes each of seven messages and three frames this many times. It prints a line for each of them and each
/// direction. For one turn it prints nothing.
pub fn measure_codec(rt: &HostRuntime, turns: u32) -> io::Result<()> {
    for (name, bytes) in &TRAIN {
        train(rt, name, bytes, turns)?;
    }
    for (name, bytes) in &TRACK {
        track(rt, name, bytes, turns)?;
    }
    for (name, bytes) in &FRAMES {
        frame(rt, name, bytes, turns)?;
    }
    Ok(())
}

fn train(rt: &HostRuntime, name: &str, bytes: &[u8], turns: u32) -> io::Result<()> {
    let mut bytes = Vec::from_slice(rt.alloc(), bytes)?;
    let start = Instant::now(rt)?;
    for turn in 0..turns {
        set_time(&mut bytes, turn);
        let _message = decode_train(rt.alloc(), &bytes);
    }
    print(rt, "decode", name, turns, &start)?;
    let Ok(message) = decode_train(rt.alloc(), &bytes) else {
        return Ok(());
    };
    let start = Instant::now(rt)?;
    for _ in 0..turns {
        let _bytes = encode_train(rt.alloc(), &message);
    }
    print(rt, "encode", name, turns, &start)
}

fn track(rt: &HostRuntime, name: &str, bytes: &[u8], turns: u32) -> io::Result<()> {
    let mut bytes = Vec::from_slice(rt.alloc(), bytes)?;
    let start = Instant::now(rt)?;
    let mut are_read = true;
    for turn in 0..turns {
        set_time(&mut bytes, turn);
        are_read &= decode_track(&bytes).is_ok();
    }
    if are_read {
        print(rt, "decode", name, turns, &start)?;
    }
    let Ok(message) = decode_track(&bytes) else {
        return Ok(());
    };
    let start = Instant::now(rt)?;
    for _ in 0..turns {
        let _bytes = encode_track(rt.alloc(), &message);
    }
    print(rt, "encode", name, turns, &start)
}

fn frame(rt: &HostRuntime, name: &str, bytes: &[u8], turns: u32) -> io::Result<()> {
    let mut bytes = Vec::from_slice(rt.alloc(), bytes)?;
    let start = Instant::now(rt)?;
    let mut are_read = true;
    for turn in 0..turns {
        set_time(&mut bytes, turn % 64);
        are_read &= decode_frame(&bytes).is_ok();
    }
    if are_read {
        print(rt, "decode", name, turns, &start)?;
    }
    let Ok(frame) = decode_frame(&bytes) else {
        return Ok(());
    };
    let start = Instant::now(rt)?;
    for _ in 0..turns {
        let _bytes = encode_frame(rt.alloc(), &frame);
    }
    print(rt, "encode", name, turns, &start)
}

// Each turn reads another T_TRAIN, or another stamp of a frame. The byte that lies entirely in this number gets the
// turn's lowest byte. A message without such a byte stays the same.
#[tactic(auto, using(std::proofs::lemmas::List::set_past))]
fn set_time(bytes: &mut [u8], turn: u32)
    ensures { bytes.new ≡ set bytes.old 4 (turn % 256) }
{
    if bytes.len() > 4 {
        bytes[4] = (turn % 256) as u8;
    }
}

fn print(rt: &HostRuntime, what: &str, name: &str, turns: u32, start: &Instant) -> io::Result<()> {
    let nanos = start.elapsed(rt)?.as_nanos();
    if turns > 1 {
        let rate = u128::from(turns) * 1_000_000_000 / (nanos / 2 + 1) / 2;
        println!(rt; "{what} {name} {rate}")?;
    }
    Ok(())
}
