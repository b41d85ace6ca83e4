//! The rate at which the lines of journals are made. The thread of a journal does the same: it reads the entries that a
//! centre committed, and gives each a line with its checksum.

use crate::bench::commits::{Place, committed};
use crate::bench::missions::{events_in, line_in};
use anyhow::Context;
use rbc_line::Line;
use rbc_log::Entry as Committed;
use serve_control::world_event;
use std::alloc::Global;
use std::time::Instant;
use text_journal::{Entry, add_entry};

// The time of each line. It has as many digits as a time of today.
const TIME_MS: u64 = 1_796_000_000_000;

/// Commits the events of a script to the logs of a line's centres, and makes the lines of all entries this many times.
/// It prints the lines a second of the fastest turn, and the bytes of the lines of one turn.
pub fn measure_lines(rt: &HostRuntime, line: &str, script: &str, turns: u32) -> anyhow::Result<()> {
    let line = line_in(rt, line)?;
    let events = events_in(rt, &line, script)?;
    let places = committed(rt.alloc(), &line, &events).context("the events were not committed")?;
    measure_turns(rt, &line, &places, turns)
}

fn measure_turns(
    rt: &HostRuntime,
    line: &Line,
    places: &[Place],
    turns: u32,
) -> anyhow::Result<()> {
    let mut text = Vec::new(rt.alloc());
    let mut nanos = u128::MAX;
    let mut count = 0;
    let mut bytes = 0;
    for _ in 0..turns {
        let start = Instant::now(rt)?;
        let (lines, written) = lines_of(rt.alloc(), line, places, &mut text).context(
            "memory ran out",
        )?;
        count = lines;
        bytes = written;
        nanos = nanos.min(start.elapsed(rt)?.as_nanos());
    }
    println!(rt; "{} {bytes}", count as u128 * 1_000_000_000 / nanos.max(1))?;
    Ok(())
}

// Makes the line of each entry, each over the one before. The result is the count of lines and of bytes, or `None` if
// memory ran out.
fn lines_of(
    alloc: Global,
    line: &Line,
    places: &[Place],
    text: &mut Vec<u8>,
) -> Option<(usize, usize)> {
    let (mut count, mut bytes) = (0usize, 0usize);
    for place in places {
        for entry in place.log.entries() {
            line_of(alloc, line, entry, text)?;
            count = count.saturating_add(1);
            bytes = bytes.saturating_add(text.len());
        }
    }
    Some((count, bytes))
}

// Writes the line of an entry over the text. `None` if memory ran out.
fn line_of(alloc: Global, line: &Line, entry: &Committed, text: &mut Vec<u8>) -> Option<()> {
    let event = world_event(alloc, entry).ok()?;
    let stamp = entry.outcome.stamp;
    let time_ms = Some(TIME_MS);
    text.clear();
    add_entry(
        alloc,
        line,
        &Entry {
            stamp,
            time_ms,
            event,
        },
        text,
    )
    .ok()
}
