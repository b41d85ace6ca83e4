//! The answers to the interlocking when a centre can take no more events.

use crate::line::line_of;
use crate::running::client::{Done, Missed, answers, connect};
use crate::running::line::THREE_CENTRES;
use rbc_line::Line;
use rbc_node::{Node, Open};
use rbc_world::{Body, Event, Frame};
use serve_line::clients::run_endpoint;
use serve_line::state::{
    CentreSink, Endpoint, Server, State, connections_of, endpoints_of, nodes_of, sinks_of,
    wakers_of,
};
use serve_line::status::MentionOrder;
use serve_line::{Endpoints, NoNotes, ServeOptions};
use std::alloc::Global;
use std::net::SocketAddr;
use std::sync::{Mutex, Wait};
use std::test::*;
use std::thread;
use std::thread::{Parker, Threads};
use std::time::Clock;

// The last stamp that a step may have.
const LAST_STAMP: u32 = 1_073_741_823;

// The clock of centre A is at its end, and 3 is the number of that fault. Centre B goes on.
static LINES: [(&str, &str); 4] = [
    ("set A 0\n", "refused 3\n"),
    ("unset A 0\n", "refused 3\n"),
    ("set B 2\n", "> set B 2\nB 2 Done\n"),
    (
        "show\n",
        "> show\nsection 0 A shut\nsection 1 A shut\nsection 2 B open\nsection 3 C shut\n",
    ),
];

// The nodes of the centres. A has taken a frame with so late a stamp that its own step has the last stamp.
fn nodes_at_the_end<R: Wait>(rt: &R, alloc: Global, line: &Line) -> Done<Vec<Node>> {
    let nodes = nodes_of(alloc, line).ok().ok_or(Missed::Memory)?;
    let first = nodes.first().ok_or(Missed::Endpoint)?;
    let frame = Frame::new(1, LAST_STAMP - 1, Body::AskRight { engine: 1 });
    let event = Event::Deliver { from: 1, frame };
    let mut share = first.share();
    match first.commit(rt, &Open, &mut share, event) {
        Ok(outcome) if outcome.stamp == LAST_STAMP => Ok(nodes),
        _ => Err(Missed::Clock),
    }
}

// Sends the lines over one connection, each after the answer to the previous one.
fn ask_all(host: &HostRuntime, alloc: Global, endpoint: SocketAddr) -> Done<()> {
    let stream = connect(host, endpoint)?;
    for (said, wanted) in &LINES {
        answers(alloc, &stream, said, wanted)?;
    }
    Ok(())
}

// The same, while the control endpoint is open. It is the last of the endpoints.
fn ask_at_the_door<R: Threads + Wait + Sync + Clock>(
    rt: &R,
    host: &HostRuntime,
    server: &Server<'_>,
) -> Done<()> {
    let endpoint = server.endpoints.last().ok_or(Missed::Endpoint)?;
    let address = endpoint.address.socket().ok_or(Missed::Endpoint)?;
    let ((), asked) = thread::join(
        rt,
        || run_endpoint(rt, server, &NoNotes, endpoint),
        || {
            let asked = ask_all(host, server.alloc, address);
            server.stop();
            asked
        },
    );
    asked
}

/// The centres of a line, and their endpoints.
#[derive(Clone, Copy)]
struct Centres<'a> {
    host: &'a HostRuntime,
    alloc: Global,
    line: &'a Line,
    nodes: &'a [Node],
    endpoints: &'a [Endpoint],
}

fn asked<R: Threads + Wait + Sync + Clock>(
    rt: &R,
    host: &HostRuntime,
    line: &Line,
    nodes: &[Node],
) -> Result<(), Fail> {
    let alloc = host.alloc();
    let endpoints = Endpoints::open(host, alloc, line, 0, &NoNotes)
        .ok()
        .ok_or(Missed::Endpoint)?;
    let (listening, socket, _) = endpoints.all();
    let endpoints = endpoints_of(alloc, line, nodes, listening, socket)?;
    let centres = Centres {
        host,
        alloc,
        line,
        nodes,
        endpoints: endpoints.as_slice(),
    };
    asked_of(rt, centres)
}

fn asked_of<R: Threads + Wait + Sync + Clock>(rt: &R, centres: Centres<'_>) -> Result<(), Fail> {
    let wakers = wakers_of(centres.alloc, centres.line)?;
    let connections = connections_of(centres.alloc, centres.line, &wakers, false)?;
    let sinks = sinks_of(
        centres.alloc,
        centres.line,
        &connections,
        centres.endpoints,
        &[],
        ServeOptions::default(),
    )?;
    asked_with(rt, centres, &wakers, &sinks)
}

fn asked_with<'a, R: Threads + Wait + Sync + Clock>(
    rt: &R,
    centres: Centres<'a>,
    wakers: &'a [Vec<Parker>],
    sinks: &'a [CentreSink<'a>],
) -> Result<(), Fail> {
    let mentions = Mutex::new(MentionOrder::new(centres.alloc, centres.line)?);
    let state = State::new(centres.line.centre_count());
    let server = Server {
        alloc: centres.alloc,
        line: centres.line,
        nodes: centres.nodes,
        sinks,
        endpoints: centres.endpoints,
        links: &[],
        wakers,
        journals: &[],
        mentions: &mentions,
        state: &state,
        options: ServeOptions::default(),
    };
    Ok(ask_at_the_door(rt, centres.host, &server)?)
}

#[test]
fn an_event_that_is_refused_is_answered_by_its_fault(rt: HostRuntime) -> Result<(), Fail> {
    let line = line_of(rt.alloc(), THREE_CENTRES)?;
    let nodes = nodes_at_the_end(&rt, rt.alloc(), &line)?;
    asked(&rt, &rt, &line, &nodes)
}
