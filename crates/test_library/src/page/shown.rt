//! The status, the length and the contents of an answer: of the page and its numbers, of the health of the line and its
//! metrics, and of bytes that are not a request, are a part of one, or are too many.

use crate::page::line::{layout, now};
use crate::page::requests::long;
use crate::page::wanted::{Want, unmet};
use serve_page::{Asked, MOST_REQUEST, answer, asked_of};
use std::alloc::{AllocError, Global};
use std::test::*;
use text_page::{End, Layout, LineNow};

/// The state in which the line is shown.
#[derive(Clone, Copy)]
enum State {
    /// After five events, while the journal of B cannot be written.
    Usual,
    /// The same, without a true place.
    CentresAlone,
    /// The same, and the time of the last event is known.
    Timed,
    /// Both journals are written, both centres are at this end or at none, and stopped or not.
    Written(Option<End>, bool),
}

/// What is asked.
#[derive(Clone, Copy)]
enum Request<'a> {
    Of(Asked),
    /// These bytes.
    Bytes(&'a [u8]),
    /// A request with this many more fields of so many bytes each, and no end.
    Long(usize, usize),
}

/// The state of the line, a request, and what the answer has.
type Row<'a> = (State, Request<'a>, &'a [Want<'a>]);

// The version of the shown line.
const VERSION: u64 = 512;

static ROWS: [Row<'_>; 24] = [
    (
        State::Usual,
        Request::Of(Asked::Now { since: None }),
        &[
            Want::Has("HTTP/1.1 200 OK\r\n"),
            Want::Has("[0,1,\"main\",0,200,\"A\",\"given\",19,0]"),
            Want::Has("[2,2,\"main\",200,300,\"B\",\"kept\",19,0]"),
            Want::Has("[3,3,\"main\",300,400,\"B\",\"shut\",null,0]"),
            Want::Has("{\"version\":512,\"events\":5,\"stopped\":false,\n\"trains\":"),
            Want::Has("[19,\"A\",\"B\",\"main\",null,123.4,0,1,null,null,null,0]"),
            Want::Has("[19,\"A\",\"up\"]"),
            Want::Has("[\"A\",21000,4,4,1,9,0]"),
            Want::Has("[\"B\",21001,1,4,1,9,1]"),
            Want::Has("[\"A\",\"B\",3,2]"),
            Want::Has(
                "\"true_places\":[[\"train\",\"track\",\"rear_m\",\"front_m\"],[19,\"main\",20.0,110.0]]",
            ),
            Want::Has("[\"4 · \\u003cb> A B \\u003c/b> & more\"]"),
        ],
    ),
    (
        State::Usual,
        Request::Of(Asked::Now {
            since: Some(VERSION),
        }),
        &[Want::Has("HTTP/1.1 304 Not Modified\r\n")],
    ),
    (
        State::CentresAlone,
        Request::Of(Asked::Now { since: None }),
        &[Want::Has("\"links\""), Want::Lacks("true_places")],
    ),
    (
        State::Timed,
        Request::Of(Asked::Now { since: None }),
        &[Want::Has(
            "\"last\":[[\"event\",\"time\"],[\"4 · \\u003cb> A B \\u003c/b> & more\",\"2026-11-29T08:00:01.250Z\"]]",
        )],
    ),
    (
        State::Timed,
        Request::Of(Asked::Page),
        &[
            Want::Has("<tr><th scope='col'>Event<th scope='col'>Time in UTC\n"),
            Want::Has("&lt;/b&gt; &amp; more<td>2026-11-29T08:00:01.250Z\n"),
        ],
    ),
    (
        State::Usual,
        Request::Of(Asked::Line),
        &[
            Want::Has("HTTP/1.1 200 OK\r\n"),
            Want::Has("{\"nid_c\":7,\n\"tracks\":[[\"track\"],[\"main\"]]"),
            Want::Has("[2,\"main\",200,300,\"B\"]"),
        ],
    ),
    (
        State::Usual,
        Request::Of(Asked::Page),
        &[
            Want::Has("HTTP/1.1 200 OK\r\n"),
            Want::Has("<h2>Trains</h2><table><tr><th scope='col'>Train<th scope='col'>Supervisor"),
            Want::Has("<tr><td>19<td>A<td>B<td>main<td><td>123.4<td>0<td>1<td>"),
            Want::Has("<tr><td>0<td>1<td>main<td>0<td>200<td>A<td>given<td>19<td>\n"),
            Want::Has(
                "<h2>True places (demo only)</h2><table><tr><th scope='col'>Train<th scope='col'>Track",
            ),
            Want::Has("<tr><td>19<td>main<td>20<td>110\n"),
            Want::Has("<noscript><meta http-equiv='refresh'"),
            Want::Has("<td>4 · &lt;b&gt;\"A\\B\"&lt;/b&gt; &amp; more\n"),
        ],
    ),
    (
        State::Written(None, false),
        Request::Of(Asked::Health),
        &[Want::Begins("HTTP/1.1 200 OK"), Want::Body("ok\n")],
    ),
    (
        State::Written(None, true),
        Request::Of(Asked::Health),
        &[
            Want::Begins("HTTP/1.1 503 Service Unavailable"),
            Want::Body(
                "A: the centres are stopped, and accept no new connection\nB: the centres are stopped, and accept no new connection\n",
            ),
        ],
    ),
    (
        State::Written(Some(End::Log), false),
        Request::Of(Asked::Health),
        &[
            Want::Begins("HTTP/1.1 503 Service Unavailable"),
            Want::Body("A: its log is full\nB: its log is full\n"),
        ],
    ),
    (
        State::Written(Some(End::Clock), false),
        Request::Of(Asked::Health),
        &[
            Want::Begins("HTTP/1.1 503 Service Unavailable"),
            Want::Body("A: its clock is at the last stamp\nB: its clock is at the last stamp\n"),
        ],
    ),
    (
        State::Written(Some(End::Link), false),
        Request::Of(Asked::Health),
        &[
            Want::Begins("HTTP/1.1 503 Service Unavailable"),
            Want::Body(
                "A: a link from it has fewer than four frame numbers left\nB: a link from it has fewer than four frame numbers left\n",
            ),
        ],
    ),
    (
        State::Written(Some(End::Log), true),
        Request::Of(Asked::Health),
        &[
            Want::Begins("HTTP/1.1 503 Service Unavailable"),
            Want::Body(
                "A: the centres are stopped, and accept no new connection\nA: its log is full\nB: the centres are stopped, and accept no new connection\nB: its log is full\n",
            ),
        ],
    ),
    (
        State::Usual,
        Request::Of(Asked::Health),
        &[
            Want::Begins("HTTP/1.1 503 Service Unavailable\r\n"),
            Want::Ends("\r\n\r\nB: its journal cannot be written\n"),
        ],
    ),
    (
        State::Usual,
        Request::Of(Asked::Metrics),
        &[
            Want::Head("\r\nContent-Type: text/plain; version=0.0.4; charset=utf-8\r\n"),
            Want::Rows(&VALUES),
            Want::Has("\n# TYPE rbc_events_total counter\nrbc_events_total{centre=\"A\"}"),
            Want::Has("\n# TYPE rbc_seats gauge\nrbc_seats{centre=\"A\"}"),
            Want::Has(
                "\n# TYPE rbc_link_frames_taken_total counter\nrbc_link_frames_taken_total{from=\"A\"",
            ),
            Want::Parts("# HELP rbc_", 18),
            Want::Parts("\n# TYPE rbc_", 18),
        ],
    ),
    (State::Usual, Request::Bytes(b"GET /\r\n\r\n"), &NO_REQUEST),
    (
        State::Usual,
        Request::Bytes(b"GET / HTTP/2.0\r\n\r\n"),
        &NO_REQUEST,
    ),
    (
        State::Usual,
        Request::Bytes(b"\x16\x03\x01\x02\x00\x01\x00\x01\xfc\x03\x03"),
        &NO_REQUEST,
    ),
    (State::Usual, Request::Bytes(b"\0\0\0\0"), &NO_REQUEST),
    (
        State::Usual,
        Request::Bytes(b"GET / HTTP/1.1\r\nHost localhost\r\n\r\n"),
        &NO_REQUEST,
    ),
    (
        State::Usual,
        Request::Bytes(b"GET / HTTP/1.1\r\nHost: local\0host\r\n\r\n"),
        &NO_REQUEST,
    ),
    (State::Usual, Request::Long(1, MOST_REQUEST), &TOO_LONG),
    (State::Usual, Request::Long(64, 1), &TOO_LONG),
    (State::Usual, Request::Long(63, 1), &[Want::Is("")]),
];

// The status of the answer to what is no request, and to a request that is too long.
const NO_REQUEST: [Want<'_>; 1] = [Want::Begins("HTTP/1.1 400")];

const TOO_LONG: [Want<'_>; 1] = [Want::Begins("HTTP/1.1 431")];

const VALUES: [&str; 31] = [
    "rbc_stopped 0",
    "rbc_sections{state=\"shut\"} 1",
    "rbc_sections{state=\"open\"} 0",
    "rbc_sections{state=\"kept\"} 1",
    "rbc_sections{state=\"given\"} 2",
    "rbc_sections_wished 0",
    "rbc_events_total{centre=\"A\"} 4",
    "rbc_events_total{centre=\"B\"} 1",
    "rbc_events_limit{centre=\"A\"} 10",
    "rbc_events_limit{centre=\"B\"} 10",
    "rbc_stamp{centre=\"A\"} 4",
    "rbc_stamp{centre=\"B\"} 4",
    "rbc_stamp_limit{centre=\"A\"} 20",
    "rbc_stamp_limit{centre=\"B\"} 20",
    "rbc_connections{centre=\"A\"} 1",
    "rbc_connections{centre=\"B\"} 1",
    "rbc_seats{centre=\"A\"} 9",
    "rbc_seats{centre=\"B\"} 9",
    "rbc_sessions{centre=\"A\"} 1",
    "rbc_sessions{centre=\"B\"} 0",
    "rbc_missions{centre=\"A\"} 1",
    "rbc_missions{centre=\"B\"} 0",
    "rbc_handovers{centre=\"A\"} 1",
    "rbc_handovers{centre=\"B\"} 0",
    "rbc_journal_stuck{centre=\"A\"} 0",
    "rbc_journal_stuck{centre=\"B\"} 1",
    "rbc_centre_ended{centre=\"A\"} 0",
    "rbc_centre_ended{centre=\"B\"} 0",
    "rbc_link_frames_sent_total{from=\"A\",to=\"B\"} 3",
    "rbc_link_frames_taken_total{from=\"A\",to=\"B\"} 2",
    "rbc_link_frames_limit{from=\"A\",to=\"B\"} 30",
];

// The line in this state.
fn line_in(alloc: Global, state: State) -> Result<LineNow, AllocError> {
    let mut now = now(alloc)?;
    match state {
        State::Usual => {}
        State::CentresAlone => now.true_places.clear(),
        State::Timed => {
            for event in now.last.iter_mut() {
                event.time_ms = Some(1_795_939_201_250);
            }
        }
        State::Written(end, is_stopped) => {
            now.is_stopped = is_stopped;
            for centre in now.centres.iter_mut() {
                centre.is_stuck = false;
                centre.end = end;
            }
        }
    }
    Ok(now)
}

fn asked_by(alloc: Global, request: Request<'_>) -> Result<Asked, AllocError> {
    match request {
        Request::Of(asked) => Ok(asked),
        Request::Bytes(bytes) => Ok(asked_of(bytes)),
        Request::Long(count, bytes) => Ok(asked_of(&long(alloc, count, bytes)?)),
    }
}

// The head and the body of the answer.
fn answered(
    alloc: Global,
    layout: &Layout,
    state: State,
    request: Request<'_>,
) -> Result<String, AllocError> {
    let asked = asked_by(alloc, request)?;
    let now = line_in(alloc, state)?;
    answer(alloc, layout, &now, VERSION, asked)
}

#[test]
fn each_answer_has_its_status_and_its_contents(rt: HostRuntime) -> Result<(), Fail> {
    let layout = layout(rt.alloc())?;
    for (k, (state, request, wants)) in ROWS.iter().enumerate() {
        let text = answered(rt.alloc(), &layout, *state, *request)?;
        let unmet = unmet(text.as_str(), wants)?;
        assert!(rt; unmet == None, "{k}: {unmet:?}");
    }
    Ok(())
}
