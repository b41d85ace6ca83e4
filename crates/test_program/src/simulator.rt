//! Simulates running centres. Centres, links, trains, the interlocking, disks and the clock are in memory, and one
//! thread lets them take their steps. A seed draws the line, the order of the steps and the faults.
//!
//! The parts of the running centres are those of the program: logs, shares, journals, lanes, buckets, replies, links
//! and answers. The loops of the threads in `serve_line` are written again, as steps of a schedule. The durable bytes
//! of the journals judge each message and text that leaves the centres.

mod auditor;
mod connection;
mod control;
mod disk;
mod faults;
mod hearing;
mod journal;
mod judge;
mod lines;
mod link;
mod lives;
mod outside;
mod program;
mod rest;
mod resumed;
mod run;
mod simulation;
mod site;
mod train;
mod watching;
mod worker;

use crate::simulator::run::{MEMORY, Run};
use crate::simulator::simulation::Simulation;
use anyhow::bail;
use std::alloc::Global;
use std::io::Write;

/// Plays the runs of this many seeds, and prints their number. It is an error if one ends with a fault.
pub fn simulate<R: AllocGlobal, W: Write>(
    rt: &R,
    out: &mut W,
    first: u64,
    count: u64,
) -> anyhow::Result<()> {
    for turn in 0..count {
        let seed = first.saturating_add(turn);
        if let Some(why) = play(rt.alloc(), seed) {
            bail!("seed {seed}: {why}");
        }
    }
    writeln!(out, "{count} runs, 0 faults")?;
    Ok(())
}

// Plays the run of a seed. The result is its first fault.
fn play(alloc: Global, seed: u64) -> Option<&'static str> {
    let Some(run) = Run::new(alloc, seed) else {
        return Some(MEMORY);
    };
    let mut simulation = Simulation::new(&run);
    simulation.play(&run);
    run.fault()
}
