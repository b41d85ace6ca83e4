ghost use Rattle.std.specs.Prelude.{◌≡◌, ◌≤◌, ℕ, false, IfOk, length, option_map, slice_get, string_bytes};
ghost use Rattle.serve_line.specs.Marks.{DiffersInMarks, marks_of, unmarked};
ghost use Rattle.serve_line.specs.Requests.{IsAnswerOfPage};

use crate::browsers::{PageEndpoint, Seen};
use crate::counting::mark_counts;
use crate::failures::is_idle;
use crate::looking::PageSnapshot;
use crate::moments::milliseconds_of;
use crate::requests::{drain, part_of, read_request, write_bounded};
use crate::state::{Endpoint, Peer, Server};
use serve_notes::{About, Kind, Notes};
use serve_page::{Asked, CentreNow, LineNow, Refusal, answer, answer_metrics, refusal};
use std::alloc::Global;
use std::io::Write;
use std::net::{Shutdown, TcpStream};
use std::sync::atomic::Ordering;
use std::sync::{Arc, Wait};
use std::thread;
use std::thread::Threads;
use std::time::{Clock, Duration, Instant};
use text_script::status::Fault;

/// The longest wait of a read or a write of a browser's connection, in milliseconds.
const PAGE_REST_MS: u64 = 250;

/// The lifetime of a view, in milliseconds. The centres are read at most four times a second, whatever the number of
/// requests.
const FRESH_MS: u64 = 250;

/// Answers browsers until all sessions have ended.
pub(crate) fn run_pages<R: Threads + Wait + Sync + Clock, N: Notes + Sync>(
    rt: &R,
    server: &Server<'_>,
    notes: &N,
    endpoint: &PageEndpoint,
) {
    notes.note(
        About::of(Kind::Port),
        format_args!("page: http://{}/", endpoint.address),
    );
    thread::scope(thread::scope_env(), rt, |scope| {
        for _ in rt.forever() {
            if server.state.is_empty() {
                break;
            }
            let Some(stream) = next_browser(rt, server, endpoint) else {
                continue;
            };
            let Some(place) = endpoint.place_for(rt, &stream) else {
                refuse(&stream);
                continue;
            };
            if scope
                .spawn(move || {
                    serve_browser(rt, server, notes, endpoint, &stream);
                    place.leave(rt);
                })
                .is_err()
            {
                place.leave(rt);
            }
        }
    });
}

// The next connection; `None` if none came for a while. It rests if the system can give none, or if the control
// endpoint can take none for lack of files.
fn next_browser<R: Wait>(
    rt: &R,
    server: &Server<'_>,
    endpoint: &PageEndpoint,
) -> Option<Arc<TcpStream, Global>> {
    if server.state.is_short_of_files() {
        endpoint.rest(rt);
        return None;
    }
    match endpoint.listener.accept() {
        Ok((stream, _)) => Arc::new(server.alloc, stream).ok(),
        Err(error) if is_idle(error.kind()) => None,
        Err(_) => {
            endpoint.rest(rt);
            None
        }
    }
}

// Answers that too many browsers ask. It never waits: a new connection has room for this answer.
fn refuse(stream: &TcpStream) {
    let _ = stream.set_nonblocking(true);
    let mut out = stream;
    let _ = out.write(refusal(Refusal::Crowd).as_bytes());
}

// Answers one request, and ends the connection.
fn serve_browser<R: Wait + Clock, N: Notes>(
    rt: &R,
    server: &Server<'_>,
    notes: &N,
    endpoint: &PageEndpoint,
    stream: &TcpStream,
) {
    let _ = stream.set_nodelay(true);
    let _ = stream.set_read_timeout(Some(Duration::from_millis(PAGE_REST_MS)));
    let _ = stream.set_write_timeout(Some(Duration::from_millis(PAGE_REST_MS)));
    let (mut source, mut out) = (stream, stream);
    let Some((asked, has_body)) = read_request(server, &mut source) else {
        return;
    };
    let Ok(text) = answer_to(rt, server, notes, endpoint, asked) else {
        return;
    };
    write_bounded(&mut out, part_of(text.as_str(), has_body).as_bytes());
    let _ = stream.shutdown(Shutdown::Write);
    drain(stream);
}

// The bytes of the answer. The centres are read only if the answer needs them, and by one thread at a time.
fn answer_to<R: Wait + Clock, N: Notes>(
    rt: &R,
    server: &Server<'_>,
    notes: &N,
    endpoint: &PageEndpoint,
    asked: Asked,
) -> Result<String, Fault<'static>>
    ensures { IfOk result (λ text. IsAnswerOfPage asked (string_bytes text)) }
{
    let mut seen = endpoint.seen.lock(rt);
    if let Asked::Page | Asked::Now { .. } | Asked::Health | Asked::Metrics = asked {
        refresh(rt, server, endpoint, &mut seen)?;
    }
    if let Asked::Metrics = asked {
        mark_counts(rt, server, notes, &mut seen.page_snapshot.counts);
        let PageSnapshot {
            layout,
            now,
            counts,
            ..
        } = &seen.page_snapshot;
        return Ok(answer_metrics(server.alloc, layout, now, Some(counts))?);
    }
    let PageSnapshot { layout, now, .. } = &seen.page_snapshot;
    Ok(answer(server.alloc, layout, now, seen.version, asked)?)
}

// Reads the centres again if the last view is old. While a journal can't be written, the page shows the old view. So
// nobody is shown an event that no journal has.
fn refresh<R: Wait + Clock>(
    rt: &R,
    server: &Server<'_>,
    endpoint: &PageEndpoint,
    seen: &mut Seen,
) -> Result<(), Fault<'static>> {
    let Ok(time) = Instant::now(rt) else {
        return Ok(());
    };
    if let Some(at) = seen.at {
        if milliseconds_of(time.duration_since(at)) < FRESH_MS {
            return Ok(());
        }
    }
    seen.at = Some(time);
    let found = seen
        .page_snapshot
        .look(rt, server.alloc, server.line, server.nodes)?;
    let mut has_changed = false;
    if let Some(opened) = server.open_kept(rt, found) {
        has_changed = seen.page_snapshot.show(opened.into_inner());
        has_changed = seen.page_snapshot.add_times(rt, server.journals) || has_changed;
    }
    let shown = &mut seen.page_snapshot.now;
    if let Some(places) = &endpoint.true_places {
        has_changed = places.copy_to(rt, &mut shown.true_places)? || has_changed;
    }
    if mark_endpoints(rt, server, shown) || has_changed {
        seen.version = seen.version.saturating_add(1);
    }
    Ok(())
}

// Marks whether connections are accepted, the number of connections, and the journals that can't be written. The result
// is whether any of these has changed.
fn mark_endpoints<R: Wait>(rt: &R, server: &Server<'_>, now: &mut LineNow) -> bool
    ensures others { DiffersInMarks now.old now.new }
    ensures stopped { result ≡ false → now.new.is_stopped ≡ now.old.is_stopped }
    ensures same { result ≡ false → (c : ℕ) → option_map marks_of (slice_get now.new.centres.items c)
        ≡ option_map marks_of (slice_get now.old.centres.items c) }
{
    let is_stopped = server.state.is_stopped();
    let mut has_changed = is_stopped != now.is_stopped;
    now.is_stopped = is_stopped;
    for endpoint in server.endpoints {
        if mark_endpoint(rt, server, endpoint, &mut now.centres) {
            has_changed = true;
        }
    }
    has_changed
}

// Marks the centre of an endpoint. The result is whether a mark other than the number of slots has changed.
fn mark_endpoint<R: Wait>(
    rt: &R,
    server: &Server<'_>,
    endpoint: &Endpoint,
    centres: &mut [CentreNow],
) -> bool
    ensures others { (c : ℕ) → option_map unmarked (slice_get centres.new c)
        ≡ option_map unmarked (slice_get centres.old c) }
    ensures same { result ≡ false → (c : ℕ) → option_map marks_of (slice_get centres.new c)
        ≡ option_map marks_of (slice_get centres.old c) }
{
    let Peer::Trains(centre) = endpoint.peer else {
        return false;
    };
    let at = centre as usize;
    if at >= centres.len() {
        return false;
    }
    let before = centres[at];
    centres[at] = CentreNow {
        taken: taken_in(endpoint),
        seats: endpoint.slots.len() as u64,
        is_stuck: server.is_stuck(rt, centre),
        ..before
    };
    has_other_marks(before, centres[at])
}

// Whether a centre has another number of connections, or a journal that can be written now or no longer.
fn has_other_marks(before: CentreNow, now: CentreNow) -> bool
    ensures { result ≡ false → marks_of now ≡ marks_of before }
{
    before.taken != now.taken || before.is_stuck != now.is_stuck
}

// The number of taken slots of an endpoint.
fn taken_in(endpoint: &Endpoint) -> u64
    ensures { result ≤ length endpoint.now.slots.items }
{
    let mut taken = 0u64;
    for slot in &endpoint.slots {
        if slot.is_taken.load(Ordering::SeqCst) {
            taken = taken.saturating_add(1);
        }
    }
    taken
}
