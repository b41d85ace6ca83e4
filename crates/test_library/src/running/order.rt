//! The order of a centre's messages to a train, if two threads commit for this train.

use crate::line::{ESTABLISHED, INITIATION, VERSION};
use crate::running::client::{Done, Missed, connect, missed_by, say};
use crate::running::line::bytes_of;
use crate::running::play::{Act, hear, send};
use crate::running::plays::{OPENED_FIRST, Play, ServeMode};
use crate::running::railway::Addresses;
use rbc_msgs::decode_track;
use std::alloc::Global;
use std::io::Read;
use std::net::{Shutdown, TcpStream};

// The starts of mission on each connection. They are few enough that all answers to the train may wait at once.
const STARTS: u16 = 120;

// The bytes of message 40.
const REJECTED: usize = 10;

// Enough reads for everything that a play's connection sends.
const MOST_READS: u32 = 1_000_000;

pub static PLAYS: [Play<'_>; 1] = [Play {
    name: "a_train_hears_all_in_order_though_two_threads_commit",
    mode: ServeMode::Usual,
    journals: None,
    rounds: &[(1, &[(0, Act::StartsOverTwo)])],
    status: 0,
    seen: &[OPENED_FIRST],
}];

/// Opens a train's session, and starts its missions over two connections at once: the centre has a thread for each. All
/// answers are sent over the first connection, in order.
pub fn start_over_two(host: &HostRuntime, alloc: Global, addresses: Addresses) -> Done<()> {
    let first = opened(host, alloc, addresses)?;
    let second = connect(host, addresses.centre)?;
    say_starts(alloc, &first, &second)?;
    first.shutdown(Shutdown::Write).ok().ok_or(Missed::Taking)?;
    are_counted_from_two(&heard_to_the_end(alloc, &first)?)
}

// The train opens its session, and establishes it.
fn opened(host: &HostRuntime, alloc: Global, addresses: Addresses) -> Done<TcpStream> {
    let stream = connect(host, addresses.centre)?;
    send(alloc, &stream, INITIATION)?;
    hear(alloc, &stream, VERSION)?;
    send(alloc, &stream, ESTABLISHED)?;
    Ok(stream)
}

// Starts missions that are rejected over both connections. The second does not serve the train.
fn say_starts(alloc: Global, first: &TcpStream, second: &TcpStream) -> Done<()> {
    let of_first = starts(alloc, "00")?;
    let of_second = starts(alloc, "80")?;
    say(first, &of_first)?;
    say(second, &of_second)
}

// Starts of mission with T_TRAIN 4, 8, 12 and so on, or with 2 more than that if the low bits are 80.
fn starts(alloc: Global, low_bits: &str) -> Done<Vec<u8>> {
    let mut bytes = Vec::new(alloc);
    for fourth in 1..=STARTS {
        let digits = format!(in alloc;
            "9D068000{fourth:04X}{low_bits}0000500040A0280CA096140050014406400418"
        )?;
        bytes.extend_from_slice(&bytes_of(alloc, &digits)?)?;
    }
    Ok(bytes)
}

// All bytes until the peer ends the connection.
fn heard_to_the_end(alloc: Global, stream: &TcpStream) -> Done<Vec<u8>> {
    let mut heard = Vec::new(alloc);
    let mut piece = [0u8; 256];
    let mut input = stream;
    for _ in 0..MOST_READS {
        match input.read(&mut piece) {
            Ok(0) => return Ok(heard),
            Ok(count) => heard.extend_from_slice(&piece[..count])?,
            Err(error) => return Err(missed_by(&error)),
        }
    }
    Err(Missed::StillOpen)
}

// Checks that these are messages with T_TRAIN 2, 3, 4 and so on, and at least 49 of them.
fn are_counted_from_two(bytes: &[u8]) -> Done<()> {
    let mut next = 2;
    for message in bytes.chunks(REJECTED) {
        let message = decode_track(message).ok().ok_or(Missed::Digits)?;
        if message.t_train() != next {
            return Err(Missed::OtherAnswer);
        }
        next = next.saturating_add(1);
    }
    if next > 50 {
        Ok(())
    } else {
        Err(Missed::NoAnswer)
    }
}
