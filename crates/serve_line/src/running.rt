mod stages;

ghost use Rattle.std.specs.Prelude.{IfOk, OnOk};
ghost use Rattle.serve_line.specs.Lists.{Continues};

use crate::browsers::PageEndpoint;
use crate::clients::run_endpoint;
use crate::fact_notes::note_facts;
use crate::journals::{Record, keep};
use crate::links::carry;
use crate::pages::run_pages;
use crate::running::stages::Setting;
use crate::state::{DirectedLink, Endpoint, Endpoints, Peer, ServeOptions, Server, Slot};
use crossbeam_channel::bounded;
use rbc_line::Line;
use rbc_node::Share;
use serve_control::ServeFault;
use serve_journal::{DurableFile, JournalFile};
use serve_notes::{About, Backlog, Kind, Notes, QueuedNotes, write_notes};
use std::alloc::{AllocError, Global};
use std::io::Write;
use std::sync::Wait;
use std::thread;
use std::thread::Threads;
use std::time::Clock;

/// The most notes that wait for standard error.
const NOTES: usize = 1_024;

/// Runs the centres of the line until the interlocking sends `stop` and all sessions have ended. Then it gathers and
/// merges their logs. It prints all events with their effects, and the line, as a run does, unless the options forbid
/// it. One thread writes the notes, and one reads the logs for them. One thread for each journal writes the events of
/// its centre.
pub fn serve<
    R: Threads + Wait + Sync + Clock,
    N: Notes + Sync,
    F: DurableFile + Drop + Send,
    O: Write,
>(
    rt: &R,
    alloc: Global,
    line: &Line,
    endpoints: Endpoints,
    record: Record<F>,
    options: ServeOptions,
    notes: &N,
    out: &mut O,
) -> Result<(), ServeFault> {
    let (queue, waiting) = bounded(alloc, NOTES)?;
    let backlog = Backlog::new(alloc, options.note_form);
    thread::scope(thread::scope_env(), rt, |scope| {
        let backlog = &backlog;
        if scope
            .spawn(move || write_notes(rt, notes, &waiting, backlog))
            .is_err()
        {
            return Err(ServeFault::from(AllocError));
        }
        let queued = QueuedNotes { rt, queue, backlog };
        let setting = Setting {
            rt,
            alloc,
            line,
            options,
            notes: &queued,
        };
        setting.serve(record, endpoints, out)
    })
}

// Runs the links and the endpoints, and concurrently the page, the notes of the logs, and the journals.
fn run_beside<R: Threads + Wait + Sync + Clock, N: Notes + Sync, F: DurableFile + Drop + Send>(
    rt: &R,
    server: &Server<'_>,
    page: Option<&PageEndpoint>,
    files: Vec<JournalFile<F>>,
    notes: &N,
) {
    thread::scope(thread::scope_env(), rt, |scope| {
        if let Some(page) = page {
            if scope
                .spawn(move || run_pages(rt, server, notes, page))
                .is_err()
            {
                notes.note(About::of(Kind::Worker), "page: no thread could be made");
            }
        }
        if scope.spawn(move || note_facts(rt, server, notes)).is_err() {
            notes.note(
                About::of(Kind::Worker),
                "missions, handovers and sections are not noted, no thread could be made",
            );
        }
        run_journals(rt, server, files, notes);
    });
}

// Runs the links and the endpoints, and a thread for each journal.
fn run_journals<R: Threads + Wait + Sync + Clock, N: Notes + Sync, F: DurableFile + Drop + Send>(
    rt: &R,
    server: &Server<'_>,
    files: Vec<JournalFile<F>>,
    notes: &N,
) {
    thread::scope(thread::scope_env(), rt, |scope| {
        let mut left = files;
        left.reverse();
        for centre in 0..server.line.centre_count() {
            let Some(file) = left.pop() else {
                break;
            };
            if scope
                .spawn(move || keep(rt, server, notes, centre, file))
                .is_err()
            {
                server.lose(rt, centre);
                server.fail();
            }
        }
        run_links(rt, server, notes);
        server.finish();
    });
}

// Carries frames while the endpoints are open. Each link has a thread, with two workers.
fn run_links<R: Threads + Wait + Sync + Clock, N: Notes + Sync>(
    rt: &R,
    server: &Server<'_>,
    notes: &N,
) {
    thread::scope(thread::scope_env(), rt, |scope| {
        for link in server.links {
            if scope.spawn(move || carry(rt, server, link)).is_err() {
                server.fail();
            }
        }
        run_endpoints(rt, server, notes);
        server.state.end();
    });
}

// Accepts connections at each endpoint until the interlocking sends `stop` and the last connection has ended.
fn run_endpoints<R: Threads + Wait + Sync + Clock, N: Notes + Sync>(
    rt: &R,
    server: &Server<'_>,
    notes: &N,
) {
    thread::scope(thread::scope_env(), rt, |scope| {
        for endpoint in server.endpoints {
            let name = server.name(endpoint.peer);
            notes.note(
                server.about(Kind::Port, endpoint.peer),
                format_args!("{name}: listens on {}", endpoint.address),
            );
            if scope
                .spawn(move || run_endpoint(rt, server, notes, endpoint))
                .is_err()
            {
                if let Peer::Trains(_) = endpoint.peer {
                    server.state.close_endpoint();
                }
                server.fail();
            }
        }
    });
}

// The receipts of all committed events: those of the start, and those of the workers.
fn shares_of(
    begun: Vec<Share>,
    endpoints: Vec<Endpoint>,
    links: Vec<DirectedLink>,
) -> Result<Vec<Share>, AllocError>
    ensures { IfOk result (λ all. Continues begun.items all.items) }
{
    let mut all = begun;
    for endpoint in endpoints {
        add_shares(&mut all, endpoint.slots)?;
    }
    for link in links {
        all.push(link.share.into_inner())?;
    }
    Ok(all)
}

// Adds the receipts of these slots.
fn add_shares(all: &mut Vec<Share>, slots: Vec<Slot>) -> Result<(), AllocError>
    ensures { OnOk result (Continues all.old.items all.new.items) }
{
    for slot in slots {
        let mut shares = slot.shares.into_inner();
        all.append(&mut shares)?;
    }
    Ok(())
}
