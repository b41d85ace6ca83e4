//! A log that is full.

use crate::line::{A, TWO_CENTRES, line_of};
use rbc_log::{CentreLog, CommitFault};
use rbc_world::Event;
use std::alloc::Global;
use std::test::*;

/// How many entries a log has at most.
const MOST_ENTRIES: usize = 1_000_000;

// A log of A.
fn log_of_a(alloc: Global) -> Result<CentreLog, Fail> {
    let line = line_of(alloc, TWO_CENTRES)?;
    Ok(CentreLog::new(alloc, &line, A)?)
}

// The log takes as many entries as it may.
fn fill(log: &mut CentreLog) -> Result<(), Fail> {
    for _ in 0..MOST_ENTRIES {
        log.commit(Event::Set(0))
            .ok()
            .ok_or("the log takes the set")?;
    }
    Ok(())
}

// Fills the log. The result is the fault of the next event, and the count of entries then.
fn filled(alloc: Global) -> Result<(Option<CommitFault>, usize), Fail> {
    let mut log = log_of_a(alloc)?;
    fill(&mut log)?;
    let fault = log.commit(Event::Set(0)).err();
    Ok((fault, log.entries().len()))
}

#[test]
fn a_full_log_refuses_the_next_entry(rt: HostRuntime) -> Result<(), Fail> {
    assert!(rt; filled(rt.alloc())? == (Some(CommitFault::LogFull), MOST_ENTRIES));
    Ok(())
}
