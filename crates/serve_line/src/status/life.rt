ghost use Rattle.std.specs.Prelude.{◌++◌, ◌≡◌, length, OnOk};
ghost use Rattle.rbc_log.specs.Log.{LogValue};
ghost use Rattle.rbc_node.specs.Node.{centre_of, IsLogOf};
ghost use Rattle.serve_line.specs.Lists.{Continues};
ghost use Rattle.serve_line.specs.Lives.{AddsUsage, end_of, IsNoted, link_row, most_sent, used_of};

use crate::stamps::last_stamp;
use crate::status::gauge::Gauge;
use rbc_line::Line;
use rbc_log::{CentreLog, MOST_ENTRIES};
use rbc_node::Node;
use serve_notes::Notes;
use std::io::Write;
use std::sync::Wait;
use text_page::{End, Limits};
use text_script::print::name_of;
use text_script::status::Fault;
use text_script::{Centre, Event, LAST_STAMP, StepFault};

/// The most frames of a directed link.
const MOST_FRAMES: u32 = 65_536;

/// The limits of each centre.
pub(crate) const LIMITS: Limits = Limits {
    entries: MOST_ENTRIES as u64,
    clock: LAST_STAMP,
    frames: MOST_FRAMES,
};

/// The end that a centre has reached, if it takes no further event. A `set` would have the next stamp: it is refused if
/// and only if the clock or a link is at its end.
pub(crate) fn end_of(log: &CentreLog) -> Option<End>
    ensures { result ≡ end_of log.now }
{
    if log.entries().len() >= MOST_ENTRIES {
        return Some(End::Log);
    }
    match log.core().may_step(&Event::Set(0)) {
        Err(StepFault::ClockEnd) => Some(End::Clock),
        Err(StepFault::LinkFull) => Some(End::Link),
        Err(StepFault::Memory) | Ok(()) => None,
    }
}

/// The usage of a centre's log, of its clock and of its fullest link, as noted last.
#[derive(Clone, Copy)]
pub struct Life {
    log: Gauge,
    clock: Gauge,
    link: Gauge,
}

impl Life {
    /// Nothing was noted yet.
    pub fn new() -> Life
        ensures { (result.log.noted ≡ 0) × (result.clock.noted ≡ 0) × (result.link.noted ≡ 0) }
    {
        Life {
            log: Gauge::new(),
            clock: Gauge::new(),
            link: Gauge::new(),
        }
    }

    /// Checks the centre of this name, and notes usage of 50, 90 and 99 percent, once each.
    pub fn look<R: Wait, N: Notes>(
        &mut self,
        rt: &R,
        line: &Line,
        node: &Node,
        notes: &N,
        name: &str,
    )
        ensures { (log : LogValue) × IsLogOf (centre_of node.now) log
            × IsNoted (used_of log (length line.now.centres)) self.old self.new }
    {
        let look = node.look(rt);
        let (entries, stamp, frames) = used_of(look.log(), line.centre_count());
        drop(look);
        self.log
            .tell(notes, name, "log", entries, MOST_ENTRIES as u64);
        self.clock
            .tell(notes, name, "clock", stamp, u64::from(LAST_STAMP));
        self.link.tell(notes, name, "fullest link", frames, u64::from(MOST_FRAMES));
    }
}

/// Writes the usage of each centre's log, clock and links.
pub fn write_life<R: Wait>(
    rt: &R,
    line: &Line,
    nodes: &[Node],
    text: &mut Vec<u8>,
) -> Result<(), Fault<'static>>
    ensures { OnOk result (Continues text.old.items text.new.items) }
{
    for node in nodes {
        write_used(line, node.look(rt).log(), text)?;
    }
    Ok(())
}

// Writes the usage of a centre's log, of its clock, and of each of its links.
fn write_used(line: &Line, log: &CentreLog, text: &mut Vec<u8>) -> Result<(), Fault<'static>>
    ensures { OnOk result (AddsUsage line.now log.now text.old.items text.new.items) }
{
    let name = name_of(line, log.number());
    let (entries, stamp, _) = used_of(log, line.centre_count());
    writeln!(text, "{name} log {entries} of {MOST_ENTRIES}")?;
    writeln!(text, "{name} clock {stamp} of {LAST_STAMP}")?;
    for to in 0..line.centre_count() {
        write_link(line, log, to, text)?;
    }
    Ok(())
}

// Writes the usage of the link from a centre to the one of this number, if they are linked.
fn write_link(
    line: &Line,
    log: &CentreLog,
    to: u8,
    text: &mut Vec<u8>,
) -> Result<(), Fault<'static>>
    ensures { OnOk result (text.new.items ≡ text.old.items ++ link_row line.now log.now.core to) }
{
    if !line.linked(log.number(), to) {
        return Ok(());
    }
    let (name, other) = (name_of(line, log.number()), name_of(line, to));
    let frames = log.core().sent(to);
    writeln!(text, "{name} link {other} {frames} of {MOST_FRAMES}")?;
    Ok(())
}

// The number of entries of a log, the stamp of the last, and the frames of the fullest link.
fn used_of(log: &CentreLog, centres: u8) -> (u64, u64, u64)
    ensures { result ≡ used_of log.now centres }
{
    let stamp = u64::from(last_stamp(log.entries()));
    let frames = most_sent(log.core(), centres);
    (log.entries().len() as u64, stamp, u64::from(frames))
}

// The frames of the centre's fullest link, to one of the first `centres`.
fn most_sent(centre: &Centre, centres: u8) -> u32
    ensures { result ≡ most_sent centre.now centres }
{
    (0..centres).fold(0, |most, to| centre.sent(to).max(most))
}
