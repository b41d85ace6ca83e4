//! A train's start over two nodes, whose allocations `bench/refuse --nodes` refuses in turn. It has a session over
//! bytes in memory, a frame each way over a queue, and a writer. Then the entries of the nodes are gathered and merged.
//! A call that memory refuses is tried once more, so the print is the same whichever allocation is refused. But
//! `gather` drops its arguments, and then the status is 7.

mod carrying;
mod line;
mod nodes;
mod playing;
mod telling;

use self::playing::{Played, Stopped, play};
use std::alloc::Global;
use std::io;
use std::io::Write;
use std::sync::Wait;

/// Plays the scene, and prints its result. The exit status is 0, 7 if `gather` was refused memory, 3 if a write failed,
/// and 1 if anything else was refused.
pub fn play_scene<R: Wait, W: Write>(rt: &R, alloc: Global, out: &mut W) -> u8 {
    match play(rt, alloc) {
        Ok(played) => match print(out, &played) {
            Ok(()) => 0,
            Err(_) => 3,
        },
        Err(Stopped::AtGather) => 7,
        Err(Stopped::Otherwise) => 1,
    }
}

// The bytes of the messages to the train, and the centre, the stamp and the count of messages of each entry.
fn print<W: Write>(out: &mut W, played: &Played) -> io::Result<()> {
    for byte in &played.told {
        write!(out, "{byte:02X}")?;
    }
    writeln!(out)?;
    for entry in &played.entries {
        let answers = entry.outcome.sayings.len();
        writeln!(out, "{} {} {answers}", entry.centre, entry.outcome.stamp)?;
    }
    out.flush()
}
