//! The time to merge the logs of a line's centres into one list.

ghost use Rattle.std.specs.Prelude.{◌<◌, length};

use crate::bench::missions::line_in;
use anyhow::bail;
use rbc_line::Line;
use rbc_log::{CentreLog, merge};
use std::alloc::Global;
use std::time::Instant;
use text_script::Event;

/// Gives each centre of a line a log of this many entries, with the same stamps, and merges the logs. It prints the
/// count of merged entries, and the nanoseconds for each.
pub fn measure_merge(rt: &HostRuntime, line: &str, entries: u32) -> anyhow::Result<()> {
    let line = line_in(rt, line)?;
    let logs = logs_of(rt.alloc(), &line, entries)?;
    print_merged(rt, &logs)
}

fn print_merged(rt: &HostRuntime, logs: &[CentreLog]) -> anyhow::Result<()> {
    let mut lent = Vec::with_capacity(rt.alloc(), logs.len())?;
    for log in logs {
        lent.push(log)?;
    }
    let (count, nanos) = merged(rt, lent.as_slice())?;
    println!(rt; "{count} {}", nanos / count.max(1))?;
    Ok(())
}

// Merges the logs. The result is the count of entries, and the time in nanoseconds.
fn merged(rt: &HostRuntime, logs: &[&CentreLog]) -> anyhow::Result<(u128, u128)> {
    let start = Instant::now(rt)?;
    let Ok(merged) = merge(rt.alloc(), logs) else {
        bail!("the logs were not merged");
    };
    let nanos = start.elapsed(rt)?.as_nanos();
    Ok((merged.len() as u128, nanos))
}

// A log of each centre. Each of its entries is a set of section 0.
fn logs_of(alloc: Global, line: &Line, entries: u32) -> anyhow::Result<Vec<CentreLog>> {
    let mut logs = Vec::with_capacity(alloc, line.centre_count() as usize)?;
    for c in 0..line.centre_count() {
        logs.push(log_of(alloc, line, c, entries)?)?;
    }
    Ok(logs)
}

// A log of one centre. Each of its entries is a set of section 0.
fn log_of(alloc: Global, line: &Line, centre: u8, entries: u32) -> anyhow::Result<CentreLog>
    requires { centre < length line.now.centres }
{
    let mut log = CentreLog::new(alloc, line, centre)?;
    fill(&mut log, entries)?;
    Ok(log)
}

fn fill(log: &mut CentreLog, entries: u32) -> anyhow::Result<()> {
    for _ in 0..entries {
        let Ok(_) = log.commit(Event::Set(0)) else {
            bail!("an event was not taken");
        };
    }
    Ok(())
}
