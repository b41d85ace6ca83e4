//! The centres of a line, served during a play.

use crate::running::client::{Done, Missed, connect, say};
use crate::running::line::{CONTROL, bytes_of};
use crate::running::play::{Stage, now, play_rounds};
use crate::running::plays::{Before, Papers, Play, Scene, ServeMode, Taken};
use crate::running::sheet::Sheet;
use rbc_line::Line;
use rbc_world::WorldEvent;
use serve_journal::JournalFile;
use serve_line::{Endpoints, NoNotes, Record, ServeOptions, serve};
use std::alloc::Global;
use std::net::SocketAddr;
use std::sync::Wait;
use std::thread;
use std::thread::Threads;
use std::time::Clock;
use text_journal::Entry;
use text_replay::auditing::{Audit, Verdict};

/// The addresses of centres A and B, and of the control endpoint.
#[derive(Clone, Copy)]
pub struct Addresses {
    pub centre: SocketAddr,
    pub second: SocketAddr,
    pub control: SocketAddr,
}

/// Serves the line during the play, and then sends `stop`. The result is the exit status of the centres, and the print.
pub fn served<R: Threads + Wait + Sync + Clock>(rt: &R, scene: Scene<'_>) -> Done<(u8, Vec<u8>)> {
    let endpoints = Endpoints::open(scene.host, scene.alloc, scene.line, 0, &NoNotes)
        .ok()
        .ok_or(Missed::Endpoint)?;
    let addresses = addresses_of(&endpoints)?;
    let (served, played) = thread::join(
        rt,
        || ended(rt, scene, endpoints),
        || played(scene, addresses),
    );
    match played {
        Ok(()) => served,
        Err(missed) => Err(missed),
    }
}

fn addresses_of(endpoints: &Endpoints) -> Done<Addresses> {
    Ok(Addresses {
        centre: address_of(endpoints, 0)?,
        second: address_of(endpoints, 1)?,
        control: address_of(endpoints, CONTROL)?,
    })
}

// The address of an endpoint. Only this host can connect to it.
fn address_of(endpoints: &Endpoints, number: usize) -> Done<SocketAddr> {
    let address = endpoints.address(number).ok_or(Missed::Endpoint)?;
    if address.ip().is_loopback() {
        Ok(address)
    } else {
        Err(Missed::Endpoint)
    }
}

fn played(scene: Scene<'_>, addresses: Addresses) -> Done<()> {
    let stage = Stage {
        host: scene.host,
        alloc: scene.alloc,
        addresses,
        journal: scene.papers.a,
        notes: scene.notes,
        begun: match now(scene.host) {
            Ok(begun) => begun,
            Err(_) => u64::MAX,
        },
    };
    let played = play_rounds(stage, scene.play.rounds);
    // If the centres have ended already, the endpoint is closed, or closes before it takes the line.
    if let Ok(control) = connect(scene.host, addresses.control) {
        let _ = say(&control, b"stop\n");
    }
    played
}

// The exit status of the centres.
fn ended<R: Threads + Wait + Sync + Clock>(
    rt: &R,
    scene: Scene<'_>,
    endpoints: Endpoints,
) -> Done<(u8, Vec<u8>)> {
    let record = record_of(scene.alloc, scene.play, scene.papers)?;
    let options = options_of(scene.play.mode);
    let mut out = Vec::new(scene.alloc);
    match serve(
        rt,
        scene.alloc,
        scene.line,
        endpoints,
        record,
        options,
        scene.notes,
        &mut out,
    ) {
        Ok(()) => Ok((0, out)),
        Err(fault) => Ok((fault.status(), out)),
    }
}

fn options_of(mode: ServeMode) -> ServeOptions {
    let mut options = ServeOptions::default();
    match mode {
        ServeMode::Usual => {}
        ServeMode::Slow => {
            options.rate.per_second = 20;
            options.rate.burst = 2;
        }
        ServeMode::Bound => {
            options.is_bound = true;
        }
        ServeMode::Json => {
            options.note_form.is_json = true;
        }
        ServeMode::Reporting => {
            options.is_telling = true;
            options.shows_life = true;
        }
    }
    options
}

// Journals of the centres, written on these papers.
fn record_of<'a>(alloc: Global, play: &Play<'_>, papers: Papers<'a>) -> Done<Record<Sheet<'a>>> {
    match play.journals {
        Some(journals) => Ok(Record {
            files: files_of(alloc, papers)?,
            entries: entries_of(alloc, journals.before)?,
        }),
        None => Ok(Record::none(alloc)),
    }
}

fn files_of<'a>(alloc: Global, papers: Papers<'a>) -> Done<Vec<JournalFile<Sheet<'a>>>> {
    let mut files = Vec::new(alloc);
    for paper in [papers.a, papers.b, papers.c] {
        let file = JournalFile::open(paper.open(), 0)
            .ok()
            .ok_or(Missed::Print)?;
        files.push(file).ok().ok_or(Missed::Memory)?;
    }
    Ok(files)
}

fn entries_of(alloc: Global, before: &[Before<'_>]) -> Done<Vec<Entry>> {
    let mut entries = Vec::new(alloc);
    for (stamp, taken) in before {
        let event = event_of(alloc, *taken)?;
        entries
            .push(Entry {
                stamp: *stamp,
                time_ms: None,
                event,
            })
            .ok()
            .ok_or(Missed::Memory)?;
    }
    Ok(entries)
}

fn event_of(alloc: Global, taken: Taken<'_>) -> Done<WorldEvent> {
    match taken {
        Taken::Set => Ok(WorldEvent::Set {
            centre: 1,
            section: 2,
        }),
        Taken::Said(digits) => Ok(WorldEvent::Train {
            centre: 1,
            bytes: bytes_of(alloc, digits)?,
        }),
        Taken::Delivered(from, to) => Ok(WorldEvent::Deliver {
            from,
            to,
            number: 1,
        }),
    }
}

/// The result of an audit of the print.
pub fn audited(alloc: Global, line: &Line, printed: &str) -> Done<Verdict> {
    let mut audit = Audit::new(alloc, line).ok().ok_or(Missed::Memory)?;
    for row in printed.lines() {
        audit.row(row);
    }
    audit.end().ok().ok_or(Missed::Audit)
}
