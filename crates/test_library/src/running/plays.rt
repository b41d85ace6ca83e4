//! Plays at running centres: the steps of peers, and the comparisons after the centres have ended.

use crate::line::line_of;
use crate::running::client::{Done, Missed};
use crate::running::line::THREE_CENTRES;
use crate::running::notes::NoteCounter;
use crate::running::play::Round;
use crate::running::railway::{audited, served};
use crate::running::sheet::{Paper, cells};
use crate::running::{
    initiations, interlocking, journals, notes, options, order, sinks, slots, trains,
};
use rbc_line::Line;
use std::alloc::Global;
use std::sync::Wait;
use std::sync::atomic::AtomicUsize;
use std::test::*;
use std::thread::Threads;
use std::time::Clock;
use text_replay::auditing::Verdict;

/// The steps of peers at the endpoints of running centres, and the comparisons at the end.
pub struct Play<'a> {
    pub name: &'a str,
    pub mode: ServeMode,
    /// `None` if no journal is kept.
    pub journals: Option<Journals<'a>>,
    pub rounds: &'a [Round<'a>],
    /// The exit status.
    pub status: u8,
    pub seen: &'a [Seen<'a>],
}

/// The options of a running line.
#[derive(Clone, Copy)]
pub enum ServeMode {
    /// The defaults.
    Usual,
    /// Each train may send two messages at once, and then twenty a second.
    Slow,
    /// Sections that are shut are reported to the interlocking, and `show` prints the use of each log and link.
    Reporting,
    /// A train's messages are taken only over the connection that serves the train.
    Bound,
    /// Notes are JSON.
    Json,
}

/// The journals of the centres.
#[derive(Clone, Copy)]
pub struct Journals<'a> {
    /// The most bytes of those of A and B. That of C has room.
    pub rooms: (usize, usize),
    /// The events that the centres took earlier.
    pub before: &'a [Before<'a>],
}

/// The stamp of an event that the centres took earlier, and the event.
pub type Before<'a> = (u32, Taken<'a>);

/// An event that the centres took earlier.
#[derive(Clone, Copy)]
pub enum Taken<'a> {
    /// The interlocking releases section 2 at centre B.
    Set,
    /// A train sends the bytes of these digits to centre B.
    Said(&'a str),
    /// The first frame from one centre to another is delivered.
    Delivered(u8, u8),
}

/// A comparison after the centres have ended.
#[derive(Clone, Copy)]
pub enum Seen<'a> {
    /// The print is this text.
    Prints(&'a str),
    /// The print begins with this text.
    Begins(&'a str),
    /// The print has this text.
    Has(&'a str),
    /// The print has this text this many times.
    Counts(&'a str, usize),
    /// An audit finds the print equal, with at least and at most this many events.
    Audits(u64, u64),
    /// The journal of centre A has these entries.
    OfA(&'a [&'a str]),
    /// The journal of centre B has these entries.
    OfB(&'a [&'a str]),
    /// The journal of centre A has this many bytes.
    LengthOfA(usize),
    /// This many notes have this text. It is one of the first comparisons.
    Noted(&'a str, usize),
}

/// Centre A took train 1's first message: it is the first event of the print.
pub const OPENED_FIRST: Seen<'_> = Seen::Begins("> train A 9B028000000040000040\n");

#[test]
fn each_play_ends_as_it_should(rt: HostRuntime) -> Result<(), Fail> {
    for plays in [
        &initiations::PLAYS[..],
        &interlocking::PLAYS[..],
        &slots::PLAYS[..],
        &trains::PLAYS[..],
        &sinks::PLAYS[..],
        &options::PLAYS[..],
        &notes::PLAYS[..],
        &order::PLAYS[..],
    ] {
        end_as_they_should(&rt, &rt, plays)?;
    }
    Ok(())
}

#[test]
fn each_play_with_journals_ends_as_it_should(rt: HostRuntime) -> Result<(), Fail> {
    end_as_they_should(&rt, &rt, &journals::PLAYS)
}

// Reports the first play that does not end as expected, by its name and its fault. Threads wait by `rt`, and peers are
// at `host`.
fn end_as_they_should<R: Threads + Wait + Sync + Clock>(
    rt: &R,
    host: &HostRuntime,
    plays: &'static [Play<'static>],
) -> Result<(), Fail> {
    for play in plays {
        if let Err(missed) = end_so(rt, host, play) {
            let name = play.name;
            return Err(Fail::new(format_args!("{name}: {missed:?}")));
        }
    }
    Ok(())
}

fn end_so<R: Threads + Wait + Sync + Clock>(
    rt: &R,
    host: &HostRuntime,
    play: &'static Play<'static>,
) -> Done<()> {
    let alloc = host.alloc();
    let of_a = cells(alloc)?;
    let of_b = cells(alloc)?;
    let of_c = cells(alloc)?;
    let (a, b) = match play.journals {
        Some(journals) => journals.rooms,
        None => (0, 0),
    };
    let (room_a, room_b) = (AtomicUsize::new(a), AtomicUsize::new(b));
    let room_c = AtomicUsize::new(256);
    let papers = Papers {
        a: Paper {
            cells: &of_a,
            room: &room_a,
        },
        b: Paper {
            cells: &of_b,
            room: &room_b,
        },
        c: Paper {
            cells: &of_c,
            room: &room_c,
        },
    };
    played_so(rt, host, play, papers)
}

fn played_so<R: Threads + Wait + Sync + Clock>(
    rt: &R,
    host: &HostRuntime,
    play: &'static Play<'static>,
    papers: Papers<'_>,
) -> Done<()> {
    let alloc = host.alloc();
    let line = line_of(alloc, THREE_CENTRES).ok().ok_or(Missed::Memory)?;
    let notes = NoteCounter::new(play.seen);
    let scene = Scene {
        host,
        alloc,
        line: &line,
        play,
        papers,
        notes: &notes,
    };
    let (status, printed) = served(rt, scene)?;
    all_seen(scene, status, &printed)
}

/// The journals of centres A, B and C.
#[derive(Clone, Copy)]
pub struct Papers<'a> {
    pub a: Paper<'a>,
    pub b: Paper<'a>,
    pub c: Paper<'a>,
}

/// A play, its line, its journals and its notes.
#[derive(Clone, Copy)]
pub struct Scene<'a> {
    pub host: &'a HostRuntime,
    pub alloc: Global,
    pub line: &'a Line,
    pub play: &'static Play<'static>,
    pub papers: Papers<'a>,
    pub notes: &'a NoteCounter,
}

fn all_seen(scene: Scene<'_>, status: u8, printed: &[u8]) -> Done<()> {
    if status != scene.play.status {
        return Err(Missed::Status);
    }
    let printed = std::str::from_utf8(printed).ok().ok_or(Missed::Print)?;
    each_seen(scene, printed, scene.play.seen)
}

fn each_seen(scene: Scene<'_>, printed: &str, all: &[Seen<'_>]) -> Done<()> {
    for seen in all {
        if !is_seen(scene, printed, *seen)? {
            return Err(Missed::Print);
        }
    }
    scene.notes.compare()
}

fn is_seen(scene: Scene<'_>, printed: &str, seen: Seen<'_>) -> Done<bool> {
    match seen {
        Seen::Audits(least, most) => has_events(scene, printed, least, most),
        Seen::OfA(entries) => scene.papers.a.has(scene.alloc, entries),
        Seen::OfB(entries) => scene.papers.b.has(scene.alloc, entries),
        Seen::LengthOfA(length) => Ok(scene.papers.a.length() == length),
        _ => Ok(is_print(printed, seen)),
    }
}

fn is_print(printed: &str, seen: Seen<'_>) -> bool {
    match seen {
        Seen::Prints(text) => printed == text,
        Seen::Begins(text) => printed.starts_with(text),
        Seen::Has(text) => printed.contains(text),
        Seen::Counts(text, count) => printed.matches(text).count() == count,
        // The notes are compared after all others.
        Seen::Noted(..) => true,
        _ => false,
    }
}

// Whether an audit finds the print equal, with a number of events within these.
fn has_events(scene: Scene<'_>, printed: &str, least: u64, most: u64) -> Done<bool> {
    match audited(scene.alloc, scene.line, printed)? {
        Verdict::Equal { events } => Ok(least <= events && events <= most),
        Verdict::Differs { .. } => Ok(false),
    }
}
