//! Plays the cases of the commands of `rbcline`, simulates running centres, and measures the speed of the codec and of
//! the centres. Without an argument the codec reads and writes each message once, and nothing is printed. Then the
//! program plays the runs of 100 seeds of the simulator, a train's start over two nodes, and the cases of the folder
//! `rows`. Each case is a command with its files, the expected print and the exit status. The program prints each
//! difference, and then the number of cases that passed. `nodes` plays only the start over two nodes. `simulate FIRST
//! COUNT` plays the runs of COUNT seeds from FIRST on, and prints their number. At a fault it prints the seed and the
//! reason, and ends with status 1. `codec TURNS` prints the messages a second of the codec. `answers LINE SCRIPT`
//! prints the answers of a line's centres to a script of events. `time LINE SCRIPT TURNS` plays the script this many
//! times, and prints the events a second and the bytes of one turn's messages to trains. `commits LINE SCRIPT TURNS`
//! does the same with commits to the logs of the centres. `lines LINE SCRIPT TURNS` makes the lines of their journals,
//! and prints the lines a second and the bytes of one turn. `merge LINE ENTRIES` merges logs with this many entries,
//! one log for each centre of a line. It prints the count of merged entries, and the nanoseconds for each.
//!
//! Expected values come from the standard or from the written rules, never from the program's own output.
#![tactic(auto)]

mod bench;
mod rows;
mod simulator;

use crate::bench::codec::measure_codec;
use crate::bench::commits::measure_commits;
use crate::bench::lines::measure_lines;
use crate::bench::merging::measure_merge;
use crate::bench::missions::{measure_steps, print_answers};
use crate::rows::{play_nodes, play_rows};
use crate::simulator::simulate;
use anyhow::bail;
use std::alloc::{AllocError, Global};
use std::io::Write;
use std::process::ExitCode;
use std::{env, io};

// The forms of the arguments.
const FORMS: &str =
    "nodes, or simulate FIRST COUNT, or codec TURNS, or answers LINE SCRIPT, or time|commits|lines \
    LINE SCRIPT TURNS, or merge LINE ENTRIES";

// The seeds of the simulator that are played without an argument.
const SEEDS: u64 = 100;

fn main(rt: HostRuntime) -> anyhow::Result<ExitCode> {
    let words = words_of(&rt)?;
    let words = texts_of(rt.alloc(), &words)?;
    match words.as_slice() {
        [] => {
            measure_codec(&rt, 1)?;
            simulate(&rt, &mut io::writer(&rt), 0, SEEDS)?;
            Ok(ExitCode::from(play_rows(&rt)))
        }
        ["nodes"] => Ok(ExitCode::from(play_nodes(&rt))),
        ["simulate", first, count] => {
            simulate_from(&rt, &mut io::writer(&rt), first, count)?;
            Ok(ExitCode::SUCCESS)
        }
        words => {
            measure(&rt, words)?;
            Ok(ExitCode::SUCCESS)
        }
    }
}

// The words after the name of the program. If memory is refused, they are read once more.
fn words_of(rt: &HostRuntime) -> anyhow::Result<Vec<String>> {
    if let Ok(words) = args_of(rt) {
        return Ok(words);
    }
    args_of(rt)
}

fn args_of(rt: &HostRuntime) -> anyhow::Result<Vec<String>> {
    Ok(env::args(rt)?.skip(1).collect(rt.alloc())?)
}

fn texts_of(alloc: Global, words: &[String]) -> Result<Vec<&str>, AllocError> {
    let mut texts = Vec::with_capacity(alloc, words.len())?;
    for word in words {
        texts.push(word.as_str())?;
    }
    Ok(texts)
}

// Makes the measurement that the first word names.
fn measure(rt: &HostRuntime, words: &[&str]) -> anyhow::Result<()> {
    match words {
        ["codec", turns] => Ok(measure_codec(rt, number_in(turns))?),
        ["answers", line, script] => print_answers(rt, line, script),
        ["merge", line, entries] => measure_merge(rt, line, number_in(entries)),
        [what, line, script, turns] => measure_turns(rt, what, line, script, number_in(turns)),
        _ => bail!("{FORMS}"),
    }
}

// Plays the runs of this many seeds of the simulator.
fn simulate_from<R: AllocGlobal, W: Write>(
    rt: &R,
    out: &mut W,
    first: &str,
    count: &str,
) -> anyhow::Result<()> {
    let (Ok(first), Ok(count)) = (first.parse(), count.parse()) else {
        bail!("{FORMS}");
    };
    simulate(rt, out, first, count)
}

// Makes a measurement over a line and this many turns of a script.
fn measure_turns(
    rt: &HostRuntime,
    what: &str,
    line: &str,
    script: &str,
    turns: u32,
) -> anyhow::Result<()> {
    match what {
        "time" => measure_steps(rt, line, script, turns),
        "commits" => measure_commits(rt, line, script, turns),
        "lines" => measure_lines(rt, line, script, turns),
        _ => bail!("{FORMS}"),
    }
}

fn number_in(word: &str) -> u32 {
    word.parse().unwrap_or(1)
}
