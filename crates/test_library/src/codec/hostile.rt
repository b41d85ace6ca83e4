//! Pseudo-random bytes in place of a message, as an attacker may send them. Each is a message, or has a fault of the
//! format.

use crate::codec::chance::Chance;
use crate::codec::stream::TRAIN_DATA;
use rbc_msgs::{MsgFault, Stream, StreamFault, decode_track, decode_train};
use std::alloc::Global;
use std::test::*;

// The number of byte strings that are read of each kind.
const TRIES: u32 = 100_000;

const SEED: u32 = 20_261_126;

// The length of the longest one. A message has at most 1 023 bytes.
const MOST: u16 = 1_100;

// The numbers that a train's message may have, and those that a centre's message may have.
static OF_TRAINS: [u8; 10] = [129, 132, 136, 137, 138, 150, 155, 156, 157, 159];

static OF_CENTRES: [u8; 8] = [3, 8, 9, 24, 32, 39, 40, 41];

// Two more messages of a train. As in `TRAIN_DATA`, packets are kept or passed over.
static INITIATION: [u8; 10] = [0x9B, 0x02, 0x80, 0x00, 0x00, 0x00, 0x40, 0x00, 0x00, 0x40];

static REQUEST: [u8; 26] = [
    0x84, 0x06, 0x80, 0x00, 0x00, 0x01, 0x40, 0x00, 0x00, 0x42, 0x00, 0x08, 0x14, 0x05, 0x01, 0x94,
    0x12, 0xC2, 0x80, 0x0A, 0x00, 0x28, 0x80, 0xC8, 0x00, 0x83,
];

// A centre's message.
static AUTHORITY: [u8; 18] = [
    0x03, 0x04, 0x80, 0x00, 0x00, 0x01, 0x00, 0x28, 0x0C, 0xA1, 0xE8, 0x10, 0x90, 0x1F, 0xF8, 0x05,
    0xDC, 0x00,
];

/// The count of bytes with each fault, by its number, and the count of messages, at 0.
type Counts = [u32; 9];

/// Bytes, and the pseudo-random pieces of any length that are taken from them.
#[derive(Drop)]
struct Hostile {
    pool: Vec<u8>,
    chance: Chance,
}

impl Hostile {
    // 70 000 pseudo-random bytes.
    fn new(alloc: Global) -> Result<Hostile, Fail> {
        let mut chance = Chance { seed: SEED };
        let mut pool = Vec::with_capacity(alloc, 70_000)?;
        for _ in 0..70_000 {
            let [_, byte] = chance.below(256).to_be_bytes();
            pool.push(byte)?;
        }
        let chance = Chance { seed: SEED };
        Ok(Hostile { pool, chance })
    }

    // A piece of 0 to 1 100 bytes.
    fn piece(&mut self, alloc: Global) -> Result<Vec<u8>, Fail> {
        let start = usize::from(self.chance.below(u16::MAX));
        let count = usize::from(self.chance.below(MOST + 1));
        let (_, rest) = self.pool.split_at(start.min(self.pool.len()));
        let (piece, _) = rest.split_at(count.min(rest.len()));
        Ok(Vec::from_slice(alloc, piece)?)
    }

    // The same, with one of these numbers and its own length at its start.
    fn headed(&mut self, alloc: Global, numbers: &[u8]) -> Result<Vec<u8>, Fail> {
        let mut bytes = self.piece(alloc)?;
        let number = self.chance.below(numbers.len().min(255) as u16);
        let length = (bytes.len() % 1_024) as u16;
        if let [first, second, third, ..] = bytes.as_mut_slice() {
            *first = numbers.get(usize::from(number)).copied().unwrap_or(0);
            *second = (length / 4) as u8;
            *third = ((length % 4) * 64) as u8 | *third % 64;
        }
        Ok(bytes)
    }

    // A message with up to three bytes changed and the last one too, and perhaps without its end.
    fn bent(&mut self, alloc: Global, message: &[u8]) -> Result<Vec<u8>, Fail> {
        let mut bytes = Vec::from_slice(alloc, message)?;
        for _ in 0..self.chance.below(4) {
            let place = self.chance.below(bytes.len().min(1_023) as u16);
            let [_, byte] = self.chance.below(256).to_be_bytes();
            if let Some(bent) = bytes.get_mut(usize::from(place)) {
                *bent = byte;
            }
        }
        // The filling bits are in the last byte.
        if let Some(last) = bytes.last_mut() {
            *last = last.wrapping_add(u8::from(self.chance.once_in(8)));
        }
        if self.chance.once_in(16) {
            bytes.truncate(usize::from(self.chance.below(28)));
        }
        Ok(bytes)
    }
}

// Counts the result of reading.
fn count<T>(counts: &mut Counts, read: &Result<T, MsgFault>) {
    let number = match read {
        Ok(_) => 0,
        Err(fault) => fault.number(),
    };
    if let Some(count) = counts.get_mut(usize::from(number)) {
        *count = count.saturating_add(1);
    }
}

// The results of pieces of each kind at a centre, which reads messages of trains, or at a train, which reads messages
// of centres.
fn read(alloc: Global, are_of_trains: bool) -> Result<Counts, Fail> {
    let mut hostile = Hostile::new(alloc)?;
    let mut counts = [0; 9];
    for _ in 0..TRIES {
        if are_of_trains {
            read_as_of_a_train(alloc, &mut hostile, &mut counts)?;
        } else {
            read_as_of_a_centre(alloc, &mut hostile, &mut counts)?;
        }
    }
    Ok(counts)
}

fn read_as_of_a_train(
    alloc: Global,
    hostile: &mut Hostile,
    counts: &mut Counts,
) -> Result<(), Fail> {
    count(counts, &decode_train(alloc, &hostile.piece(alloc)?));
    count(
        counts,
        &decode_train(alloc, &hostile.headed(alloc, &OF_TRAINS)?),
    );
    for message in [&TRAIN_DATA[..], &REQUEST[..], &INITIATION[..]] {
        count(counts, &decode_train(alloc, &hostile.bent(alloc, message)?));
    }
    Ok(())
}

fn read_as_of_a_centre(
    alloc: Global,
    hostile: &mut Hostile,
    counts: &mut Counts,
) -> Result<(), Fail> {
    count(counts, &decode_track(&hostile.piece(alloc)?));
    count(counts, &decode_track(&hostile.headed(alloc, &OF_CENTRES)?));
    count(counts, &decode_track(&hostile.bent(alloc, &AUTHORITY)?));
    Ok(())
}

// Memory suffices, so the fault of missing memory never occurs. Each other result occurs.
fn is_expected(number: usize, count: u32) -> bool {
    if number == 8 { count == 0 } else { count > 100 }
}

#[test]
fn bytes_by_chance_are_a_message_or_have_a_fault(rt: HostRuntime) -> Result<(), Fail> {
    let counts = read(rt.alloc(), true)?;
    for (number, count) in counts.iter().enumerate() {
        assert!(rt; is_expected(number, *count), "{number} came {count} times");
    }
    let counts = read(rt.alloc(), false)?;
    assert!(rt; (is_expected(0, counts[0]), is_expected(8, counts[8])) == (true, true));
    Ok(())
}

// Feeds a stream with a whole message, and then with a piece of each kind. The result is the count of messages, and the
// fault.
fn fed(alloc: Global, hostile: &mut Hostile) -> Result<(usize, Result<(), StreamFault>), Fail> {
    let mut stream = Stream::new(alloc);
    let mut messages = Vec::new(alloc);
    let mut fed = stream.feed(&REQUEST, &mut messages);
    for piece in [hostile.headed(alloc, &OF_TRAINS)?, hostile.piece(alloc)?] {
        let was = fed;
        fed = stream.feed(&piece, &mut messages);
        if was != Ok(()) && fed != Err(StreamFault::Failed) {
            return Err("a stream that had a fault has failed".into());
        }
    }
    Ok((messages.len(), fed))
}

#[test]
fn a_stream_gives_what_is_whole_in_front_of_bytes_by_chance(rt: HostRuntime) -> Result<(), Fail> {
    let mut hostile = Hostile::new(rt.alloc())?;
    for turn in 0..TRIES {
        let (count, fed) = fed(rt.alloc(), &mut hostile)?;
        let is_memory = fed == Err(StreamFault::Message(MsgFault::Memory));
        assert!(rt; (count >= 1, is_memory) == (true, false), "turn {turn}");
    }
    Ok(())
}
