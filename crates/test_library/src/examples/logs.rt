//! The example of `rbc_log`: two centres take events, and their logs are merged.

use crate::line::{TWO_CENTRES, line_of};
use rbc_log::{CentreLog, merge};
use rbc_world::Event;
use std::alloc::Global;
use std::test::*;

/// The stamp of the first event, the entries of its log, and those of both logs.
pub fn merged(alloc: Global) -> Result<(u32, usize, usize), Fail> {
    let line = line_of(alloc, TWO_CENTRES)?;
    let mut log = CentreLog::new(alloc, &line, 0)?;
    let stamp = stamp_of_a_set(&mut log)?;
    let mut other = CentreLog::new(alloc, &line, 1)?;
    other.commit(Event::Set(2))?;
    counts(alloc, stamp, log, other)
}

fn stamp_of_a_set(log: &mut CentreLog) -> Result<u32, Fail> {
    let outcome = log.commit(Event::Set(1))?;
    Ok(outcome.stamp)
}

fn counts(
    alloc: Global,
    stamp: u32,
    log: CentreLog,
    other: CentreLog,
) -> Result<(u32, usize, usize), Fail> {
    let run = merge(alloc, &[&log, &other])?;
    Ok((stamp, log.entries().len(), run.len()))
}
