//! The steps of peers at the endpoints of running centres, in order.

use crate::running::client::{Done, Missed, answers, connect, heard, is_ended, say};
use crate::running::line::bytes_of;
use crate::running::notes::{NoteCounter, report_until_noted};
use crate::running::order::start_over_two;
use crate::running::railway::Addresses;
use crate::running::sheet::Paper;
use crate::running::sinks::ask_until_both_come;
use std::alloc::Global;
use std::net::{SocketAddr, TcpStream};
use std::time::Clock;

/// A step of one connection, or a comparison beside the connections.
#[derive(Clone, Copy)]
pub enum Act<'a> {
    /// It connects to centre A.
    Train,
    /// It connects to centre B.
    SecondTrain,
    /// It connects to the control endpoint.
    Control,
    /// It sends this text, and gets this answer.
    Asks(&'a str, &'a str),
    /// It sends the bytes of these digits.
    Sends(&'a str),
    /// It opens train 1's session this many times, all at once. T_TRAIN begins with 1, and goes on from turn to turn.
    Opens(u32),
    /// It asks for train 1's authority until it reaches over the border.
    Crosses,
    /// It reports train 1 from section 2, until a note has the text at this place of the comparisons.
    Reports(usize),
    /// It receives the bytes of these digits.
    Hears(&'a str),
    /// It receives this many bytes.
    Takes(usize),
    /// The peer ends it.
    Ends,
    /// Two connections start train 1's missions at once.
    StartsOverTwo,
    /// At least this many milliseconds have passed since the play began.
    Lasts(u64),
    /// The journal of centre A has these entries.
    Written(&'a [&'a str]),
    /// The journal comes to this many bytes, and the centre notices that it is full.
    Fills(usize),
    /// The journal has room for this many bytes from now on.
    HasRoom(usize),
    /// A note has the text at this place of the comparisons.
    Noted(usize),
}

/// The number of a connection, in the order in which they connect, and its step.
pub type Step<'a> = (usize, Act<'a>);

/// The number of times that these steps are played, each time over connections of their own.
pub type Round<'a> = (u32, &'a [Step<'a>]);

/// The centres at which steps are played.
#[derive(Clone, Copy)]
pub struct Stage<'a> {
    pub host: &'a HostRuntime,
    pub alloc: Global,
    pub addresses: Addresses,
    /// The journal of centre A.
    pub journal: Paper<'a>,
    pub notes: &'a NoteCounter,
    /// When the play began, in milliseconds.
    pub begun: u64,
}

/// Plays the rounds.
pub fn play_rounds(stage: Stage<'_>, rounds: &[Round<'_>]) -> Done<()> {
    for (times, steps) in rounds {
        for turn in 0..*times {
            play_once(stage, turn, steps)?;
        }
    }
    Ok(())
}

fn play_once(stage: Stage<'_>, turn: u32, steps: &[Step<'_>]) -> Done<()> {
    let mut streams = Vec::new(stage.alloc);
    for (number, act) in steps {
        match endpoint_of(stage.addresses, *act) {
            Some(endpoint) => streams
                .push(connect(stage.host, endpoint)?)
                .ok()
                .ok_or(Missed::Memory)?,
            None => match streams.get(*number) {
                Some(stream) => done(stage, turn, stream, *act)?,
                None => done_beside(stage, *act)?,
            },
        }
    }
    Ok(())
}

// The endpoint to which a step connects.
fn endpoint_of(addresses: Addresses, act: Act<'_>) -> Option<SocketAddr> {
    match act {
        Act::Train => Some(addresses.centre),
        Act::SecondTrain => Some(addresses.second),
        Act::Control => Some(addresses.control),
        _ => None,
    }
}

fn done(stage: Stage<'_>, turn: u32, stream: &TcpStream, act: Act<'_>) -> Done<()> {
    match act {
        Act::Asks(said, wanted) => answers(stage.alloc, stream, said, wanted),
        Act::Sends(digits) => send(stage.alloc, stream, digits),
        Act::Opens(count) => open_sessions(stage.alloc, stream, turn.saturating_mul(count), count),
        Act::Crosses => ask_until_both_come(stage.host, stage.alloc, stream),
        Act::Reports(place) => report_until_noted(
            stage.host,
            stage.alloc,
            stream,
            stage.notes,
            place,
        ),
        Act::Hears(digits) => hear(stage.alloc, stream, digits),
        Act::Takes(count) => {
            heard(stage.alloc, stream, count)?;
            Ok(())
        }
        Act::Ends if !is_ended(stream) => Err(Missed::StillOpen),
        Act::Ends => Ok(()),
        _ => done_beside(stage, act),
    }
}

// A step of no connection, or a comparison.
fn done_beside(stage: Stage<'_>, act: Act<'_>) -> Done<()> {
    match act {
        Act::StartsOverTwo => start_over_two(stage.host, stage.alloc, stage.addresses),
        Act::Lasts(least) => lasts(stage.host, stage.begun, least),
        Act::Written(entries) => match stage.journal.has(stage.alloc, entries)? {
            true => Ok(()),
            false => Err(Missed::Entry),
        },
        Act::Fills(length) => stage.journal.fills(stage.host, length),
        Act::HasRoom(room) => {
            stage.journal.allow(room);
            Ok(())
        }
        Act::Noted(place) => stage.notes.wait_for(stage.host, place),
        _ => Err(Missed::Endpoint),
    }
}

fn lasts(host: &HostRuntime, begun: u64, least: u64) -> Done<()> {
    if now(host)?.saturating_sub(begun) < least {
        return Err(Missed::Clock);
    }
    Ok(())
}

/// The time in milliseconds.
pub fn now(host: &HostRuntime) -> Done<u64> {
    let now = host.monotonic().ok().ok_or(Missed::Clock)?;
    Ok(
        now.as_secs()
            .saturating_mul(1000)
            .saturating_add(u64::from(now.subsec_millis())),
    )
}

/// Sends the bytes of these digits.
pub fn send(alloc: Global, stream: &TcpStream, digits: &str) -> Done<()> {
    say(stream, &bytes_of(alloc, digits)?)
}

fn open_sessions(alloc: Global, stream: &TcpStream, before: u32, count: u32) -> Done<()> {
    for k in 0..count {
        let t_train = before.saturating_add(k).saturating_add(1);
        say(stream, &opening(alloc, t_train)?)?;
    }
    Ok(())
}

// The message by which train 1 opens its session, with this T_TRAIN.
fn opening(alloc: Global, t_train: u32) -> Done<Vec<u8>> {
    let sixty_fourths = t_train.saturating_mul(64);
    let digits = format!(in alloc; "9B02800000{sixty_fourths:04X}000040")?;
    bytes_of(alloc, &digits)
}

/// Receives the bytes of these digits.
pub fn hear(alloc: Global, stream: &TcpStream, digits: &str) -> Done<()> {
    let wanted = bytes_of(alloc, digits)?;
    if heard(alloc, stream, wanted.len())?.as_slice() != wanted.as_slice() {
        return Err(Missed::OtherAnswer);
    }
    Ok(())
}
