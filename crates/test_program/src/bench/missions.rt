//! The rate at which the centres of a line take events, from bytes to bytes.

use crate::bench::print::print_answer;
use anyhow::{Context, bail};
use rbc_line::Line;
use rbc_msgs::encode_track;
use std::alloc::Global;
use std::io::{BufWriter, Write};
use std::time::Instant;
use std::{fs, io};
use text_script::script::{Entry, script_of};
use text_script::{Answer, Outcome, World, WorldEvent};

/// Prints the answers of a line's centres to each event of a script.
pub fn print_answers(rt: &HostRuntime, line: &str, script: &str) -> anyhow::Result<()> {
    let line = line_in(rt, line)?;
    let events = events_in(rt, &line, script)?;
    print_all(rt, &line, &events)
}

fn print_all(rt: &HostRuntime, line: &Line, events: &[WorldEvent]) -> anyhow::Result<()> {
    let mut world = World::new(rt.alloc(), line)?;
    let mut out = BufWriter::new(rt.alloc(), io::writer(rt))?;
    print_each(rt.alloc(), &mut world, events, &mut out)
}

fn print_each<W: Write>(
    alloc: Global,
    world: &mut World,
    events: &[WorldEvent],
    out: &mut W,
) -> anyhow::Result<()> {
    let mut answer = Answer::nothing();
    for event in events {
        print_step(alloc, world, event, out, &mut answer)?;
    }
    out.flush()?;
    Ok(())
}

fn print_step<W: Write>(
    alloc: Global,
    world: &mut World,
    event: &WorldEvent,
    out: &mut W,
    answer: &mut Answer,
) -> anyhow::Result<()> {
    match world.step_to(event, answer) {
        Ok(()) => Ok(print_answer(alloc, out, answer)?),
        Err(fault) => bail!("step refused {}", fault.number()),
    }
}

/// Plays a script on a line this many times, each time in a new world. It prints the events a second of the fastest
/// turn, and the bytes of its messages to trains. Only the steps and the writing of messages are timed.
pub fn measure_steps(rt: &HostRuntime, line: &str, script: &str, turns: u32) -> anyhow::Result<()> {
    let line = line_in(rt, line)?;
    let events = events_in(rt, &line, script)?;
    measure_turns(rt, &line, &events, turns)
}

fn measure_turns(
    rt: &HostRuntime,
    line: &Line,
    events: &[WorldEvent],
    turns: u32,
) -> anyhow::Result<()> {
    let mut nanos = u128::MAX;
    let mut bytes = 0;
    for _ in 0..turns {
        let (written, took) = turn(rt, line, events)?;
        bytes = written;
        nanos = nanos.min(took);
    }
    println!(rt;
        "{} {bytes}",
        events.len() as u128 * 1_000_000_000 / nanos.max(1)
    )?;
    Ok(())
}

// Plays the events in a new world. The result is the bytes of its messages to trains, and the time in nanoseconds.
fn turn(rt: &HostRuntime, line: &Line, events: &[WorldEvent]) -> anyhow::Result<(usize, u128)> {
    let mut world = World::new(rt.alloc(), line)?;
    timed(rt, &mut world, events)
}

fn timed(
    rt: &HostRuntime,
    world: &mut World,
    events: &[WorldEvent],
) -> anyhow::Result<(usize, u128)> {
    let start = Instant::now(rt)?;
    let bytes = play(rt.alloc(), world, events).context("the events were not taken")?;
    Ok((bytes, start.elapsed(rt)?.as_nanos()))
}

/// The line of a file.
pub fn line_in(rt: &HostRuntime, file: &str) -> anyhow::Result<Line> {
    let text = fs::read_to_string(rt, file)?;
    match Line::from_toml(rt.alloc(), text.as_str()) {
        Ok(line) => Ok(line),
        Err(fault) => bail!("line fault {}", fault.number()),
    }
}

/// The events of a script that has no `show`.
pub fn events_in(rt: &HostRuntime, line: &Line, file: &str) -> anyhow::Result<Vec<WorldEvent>> {
    let text = fs::read_to_string(rt, file)?;
    let Ok(entries) = script_of(rt.alloc(), line, text.as_str()) else {
        bail!("a line of the script has no form")
    };
    let mut events = Vec::with_capacity(rt.alloc(), entries.len())?;
    for entry in entries {
        match entry {
            Entry::Event(event) => events.push(event)?,
            Entry::Show => bail!("a line of the script is no event"),
        }
    }
    Ok(events)
}

// Takes the events in order. The result is the bytes of the messages to trains, or `None` if a step was refused or
// memory ran out.
fn play(alloc: Global, world: &mut World, events: &[WorldEvent]) -> Option<usize> {
    let mut bytes = 0usize;
    let mut answer = Answer::nothing();
    for event in events {
        world.step_to(event, &mut answer).ok()?;
        if let Answer::Outcome(outcome) = &answer {
            bytes = bytes.saturating_add(written(alloc, outcome)?);
        }
    }
    Some(bytes)
}

/// Writes the messages of an outcome. The result is their count of bytes, or `None` if memory ran out.
pub fn written(alloc: Global, outcome: &Outcome) -> Option<usize> {
    let mut bytes = 0usize;
    for saying in outcome.sayings.as_slice() {
        let Ok(message) = encode_track(alloc, &saying.message) else {
            return None;
        };
        bytes = bytes.saturating_add(message.len());
    }
    Some(bytes)
}
