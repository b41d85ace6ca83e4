//! The rate of commits to the logs of a line's centres, from a train's bytes to the bytes of the answer. A commit is
//! that of a share, as a node makes it under its lock.

use crate::bench::missions::{events_in, line_in, written};
use anyhow::Context;
use rbc_line::Line;
use rbc_log::CentreLog;
use rbc_msgs::decode_train;
use rbc_node::{Node, Share};
use std::alloc::{AllocError, Global};
use std::time::Instant;
use text_script::{Event, WorldEvent};

/// The log of a centre, and a share that commits to it.
#[derive(Drop)]
pub struct Place {
    pub log: CentreLog,
    share: Share,
}

/// Commits the events of a script to the logs of a line's centres this many times, each time to new logs. It prints the
/// commits a second of the fastest turn, and the bytes of its messages to trains.
pub fn measure_commits(
    rt: &HostRuntime,
    line: &str,
    script: &str,
    turns: u32,
) -> anyhow::Result<()> {
    let line = line_in(rt, line)?;
    let events = events_in(rt, &line, script)?;
    measure_turns(rt, &line, &events, turns)
}

fn measure_turns(
    rt: &HostRuntime,
    line: &Line,
    events: &[WorldEvent],
    turns: u32,
) -> anyhow::Result<()> {
    let mut nanos = u128::MAX;
    let mut bytes = 0;
    for _ in 0..turns {
        let (written, took) = turn(rt, line, events)?;
        bytes = written;
        nanos = nanos.min(took);
    }
    println!(rt;
        "{} {bytes}",
        events.len() as u128 * 1_000_000_000 / nanos.max(1)
    )?;
    Ok(())
}

// Commits the events to new logs. The result is the bytes of their messages to trains, and the time in nanoseconds.
fn turn(rt: &HostRuntime, line: &Line, events: &[WorldEvent]) -> anyhow::Result<(usize, u128)> {
    let mut places = places_of(rt.alloc(), line)?;
    timed(rt, &mut places, events)
}

fn timed(
    rt: &HostRuntime,
    places: &mut [Place],
    events: &[WorldEvent],
) -> anyhow::Result<(usize, u128)> {
    let start = Instant::now(rt)?;
    let bytes = play(rt.alloc(), places, events).context("the events were not committed")?;
    Ok((bytes, start.elapsed(rt)?.as_nanos()))
}

/// The logs of a line's centres to which the events were committed. `None` if a commit was refused or memory ran out.
pub fn committed(alloc: Global, line: &Line, events: &[WorldEvent]) -> Option<Vec<Place>> {
    let mut places = places_of(alloc, line).ok()?;
    play(alloc, &mut places, events)?;
    Some(places)
}

fn places_of(alloc: Global, line: &Line) -> Result<Vec<Place>, AllocError> {
    let mut places = Vec::new(alloc);
    for c in 0..line.centre_count() {
        let share = Node::new(alloc, line, c)?.share();
        let log = CentreLog::new(alloc, line, c)?;
        places.push(Place { log, share })?;
    }
    Ok(places)
}

// Commits the events in order. The result is the bytes of the messages to trains, or `None` if a commit was refused or
// memory ran out. An event without a centre is passed over.
fn play(alloc: Global, places: &mut [Place], events: &[WorldEvent]) -> Option<usize> {
    let mut bytes = 0usize;
    for event in events {
        if let Some((centre, event)) = taken(alloc, places, event) {
            let place = places.get_mut(usize::from(centre))?;
            let outcome = place.share.commit(&mut place.log, event).ok()?;
            bytes = bytes.saturating_add(written(alloc, &outcome)?);
        }
    }
    Some(bytes)
}

// The centre at which an event happens, and its event. `None` if the bytes are not a message, or the frame was not
// sent.
fn taken(alloc: Global, places: &[Place], event: &WorldEvent) -> Option<(u8, Event)> {
    match event {
        WorldEvent::Train { centre, bytes } => {
            let message = decode_train(alloc, bytes).ok()?;
            Some((*centre, Event::Train(message)))
        }
        WorldEvent::Set { centre, section } => Some((*centre, Event::Set(*section))),
        WorldEvent::Unset { centre, section } => Some((*centre, Event::Unset(*section))),
        WorldEvent::Deliver { from, to, number } => {
            let frame = places.get(usize::from(*from))?.log.frame(*to, *number)?;
            Some((*to, Event::Deliver { from: *from, frame }))
        }
    }
}
