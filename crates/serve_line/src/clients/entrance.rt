ghost use Rattle.std.specs.Prelude.{◌≡◌, IfOk, None};
ghost use Rattle.serve_line.specs.Addresses.{is_tcp, IsSameSource, listens_at_port};

use crate::clients::limits::DEAF_REST_MS;
use crate::failures::is_idle;
use crate::state::{ENDPOINT_REST_MS, Endpoint, Listener, Peer, PeerStream, Server};
use serve_notes::{Kind, Notes};
use std::alloc::Global;
use std::io;
use std::io::ErrorKind;
use std::sync::Wait;
use std::time::Duration;

/// The source of an endpoint's connections: its listener, and a file in reserve.
#[derive(Drop)]
pub(crate) struct Entrance {
    listener: Listener,
    // An open file. It is closed to make room for a connection if the program may open no further file.
    reserve: Option<Listener>,
    has_reserve: bool,
}

impl Entrance {
    /// Accepts connections of this listener, with a file in reserve or without one.
    pub fn new(listener: Listener, has_reserve: bool) -> Entrance
        ensures { result ≡ record { listener = listener; reserve = None; has_reserve = has_reserve } }
    {
        Entrance {
            listener,
            reserve: None,
            has_reserve,
        }
    }

    /// The next connection. An error for which `is_idle` holds means that none came for a while.
    pub fn accept(&mut self, alloc: Global) -> io::Result<PeerStream>
        ensures stream { IfOk result (λ stream. is_tcp stream ≡ listens_at_port self.old.listener) }
        ensures source { IsSameSource self.old self.new }
    {
        match self.listener.accept(alloc) {
            Ok(stream) => Ok(stream),
            Err(error) if is_idle(error.kind()) => {
                self.refill();
                Err(error)
            }
            Err(error) if self.reserve.is_none() => Err(error),
            Err(_) => {
                self.reserve = None;
                self.listener.accept(alloc)
            }
        }
    }

    // Opens the reserve file again, if that is possible.
    fn refill(&mut self)
        ensures { IsSameSource self.old self.new }
    {
        if self.has_reserve && self.reserve.is_none() {
            self.reserve = self.listener.try_clone().ok();
        }
    }
}

/// The next connection of an endpoint. If the control endpoint can take none, since too many files are open, the
/// endpoints of trains take none until it can. A call of `accept` that waits needs room for a file, too.
pub(crate) fn accept<R: Wait>(
    rt: &R,
    server: &Server<'_>,
    endpoint: &Endpoint,
    entrance: &mut Entrance,
) -> io::Result<PeerStream>
    ensures stream { IfOk result (λ stream. is_tcp stream ≡ listens_at_port entrance.old.listener) }
    ensures source { IsSameSource entrance.old entrance.new }
{
    match endpoint.peer {
        Peer::Trains(_) if server.state.is_short_of_files() => {
            rest(rt, endpoint);
            Err(io::Error::from(ErrorKind::WouldBlock))
        }
        Peer::Trains(_) => entrance.accept(server.alloc),
        Peer::Interlocking => {
            let next = entrance.accept(server.alloc);
            let is_short = match &next {
                Ok(_) => false,
                Err(error) => !is_idle(error.kind()),
            };
            server.state.note_files(is_short);
            next
        }
    }
}

/// Rests if the system can give no connection, as when too many files are open.
pub(crate) fn rest_after<R: Wait, N: Notes>(
    rt: &R,
    server: &Server<'_>,
    notes: &N,
    endpoint: &Endpoint,
    error: &io::Error,
) {
    if is_idle(error.kind()) {
        return;
    }
    let name = server.name(endpoint.peer);
    notes.note(
        server.about(Kind::Device, endpoint.peer),
        format_args!("{name}: no connection can be taken now: {error}"),
    );
    endpoint
        .waker
        .park_timeout(rt, Duration::from_millis(DEAF_REST_MS));
}

/// Rests at an endpoint for at most `ENDPOINT_REST_MS`, or until its waker is rung.
pub(crate) fn rest<R: Wait>(rt: &R, endpoint: &Endpoint) {
    endpoint
        .waker
        .park_timeout(rt, Duration::from_millis(ENDPOINT_REST_MS));
}
