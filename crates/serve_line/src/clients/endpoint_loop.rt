ghost use Rattle.std.specs.Prelude.{◌≡◌, IfOk, IfSome, map, None, true};
ghost use Rattle.serve_line.specs.Peers.{is_interlocking};
ghost use Rattle.serve_line.specs.Slots.{IsSlotOf};

use crate::clients::connection_refusal::ConnectionRefusal;
use crate::clients::control::serve_control;
use crate::clients::entrance::{Entrance, accept, rest, rest_after};
use crate::clients::grace::{Grace, grace_of};
use crate::clients::limits::{GRACE_RESTS, LEAVING_RESTS, NEXT_RESTS};
use crate::clients::sessions::serve_train;
use crate::state::{Endpoint, Peer, PeerStream, Room, Server, Slot, SlotState, Watch, room_for};
use crate::status::Life;
use serve_notes::{Kind, Notes};
use std::alloc::AllocError;
use std::sync::Wait;
use std::sync::atomic::Ordering;
use std::thread;
use std::thread::Threads;
use std::time::Clock;

/// Accepts connections at one endpoint until the centres stop, and closes it. After the stop, connections have a
/// limited time to end; then they are shut. It returns after the last connection.
pub fn run_endpoint<R: Threads + Wait + Sync + Clock, N: Notes + Sync>(
    rt: &R,
    server: &Server<'_>,
    notes: &N,
    endpoint: &Endpoint,
) {
    thread::scope(thread::scope_env(), rt, |scope| {
        let Some(mut entrance) = entrance_of(rt, endpoint) else {
            return;
        };
        let mut looks = Looks::new();
        for _ in rt.forever() {
            if server.state.is_stopped() {
                break;
            }
            looks.look(rt, server, notes, endpoint);
            let Some((stream, slot)) = next_peer(rt, server, notes, endpoint, &mut entrance) else {
                continue;
            };
            let peer = endpoint.peer;
            if slot.is_reserve {
                attend(rt, server, notes, peer, slot, stream);
            } else if scope
                .spawn(move || attend(rt, server, notes, peer, slot, stream))
                .is_err()
            {
                attend_here(rt, server, notes, endpoint, slot);
            }
        }
        drop(entrance);
        match endpoint.peer {
            Peer::Trains(_) => end_trains(rt, server, notes, endpoint),
            Peer::Interlocking => end_controls(rt, server, endpoint),
        }
    });
    if let Peer::Trains(_) = endpoint.peer {
        server.state.close_endpoint();
    }
}

// The source of an endpoint's connections. The control endpoint keeps a file in reserve.
fn entrance_of<R: Wait>(rt: &R, endpoint: &Endpoint) -> Option<Entrance>
    ensures { IfSome result (λ entrance. entrance.has_reserve ≡ is_interlocking endpoint.now.peer) }
{
    let listener = endpoint.listener.lock(rt).take()?;
    let has_reserve = matches!(endpoint.peer, Peer::Interlocking);
    Some(Entrance::new(listener, has_reserve))
}

/// The periodic checks of an endpoint's thread: the usage of its centre, and the queue of its journal.
#[derive(Clone, Copy)]
struct Looks {
    life: Life,
    watch: Watch,
}

impl Looks {
    fn new() -> Looks
        ensures life { (result.life.log.noted ≡ 0) × (result.life.clock.noted ≡ 0) × (result.life.link.noted ≡ 0) }
        ensures watch { result.watch.moves ≡ record { left = 0; since = None } }
    {
        Looks {
            life: Life::new(),
            watch: Watch::new(),
        }
    }

    fn look<R: Wait + Clock, N: Notes>(
        &mut self,
        rt: &R,
        server: &Server<'_>,
        notes: &N,
        endpoint: &Endpoint,
    ) {
        let (Some(node), Some(sink)) = (server.node(endpoint.peer), server.sink(endpoint.peer))
        else {
            return;
        };
        self.life.look(rt, server.line, node, notes, sink.name);
        self.watch.look(rt, &sink.queue, notes, sink.name);
    }
}

// Serves the connection of a slot if no thread can be made. A connection of the interlocking is served in the thread of
// the endpoint, so that `stop` can be sent. A connection of a train ends.
fn attend_here<R: Threads + Wait + Sync + Clock, N: Notes + Sync>(
    rt: &R,
    server: &Server<'_>,
    notes: &N,
    endpoint: &Endpoint,
    slot: &Slot,
) {
    let stream = slot.stream.lock(rt).take();
    slot.leave(rt);
    let Some((stream, reserve)) = reserve_for(rt, endpoint, stream) else {
        let about = server.about(Kind::Thread, endpoint.peer);
        notes.note(about, "a connection is ended, no thread could be made");
        return;
    };
    attend(rt, server, notes, endpoint.peer, reserve, stream);
}

// Puts the connection of a slot into the reserve slot of its endpoint. `None` if there is none, or it is taken.
fn reserve_for<'a, R: Wait>(
    rt: &R,
    endpoint: &'a Endpoint,
    stream: Option<PeerStream>,
) -> Option<(PeerStream, &'a Slot)>
    ensures { IfSome result (λ next. IsSlotOf endpoint.now next.1.now × (next.1.now.is_reserve ≡ true)) }
{
    let stream = stream?;
    let shared = stream.try_clone().ok()?;
    let slot = endpoint.reserve_slot(rt)?;
    *slot.stream.lock(rt) = Some(shared);
    Some((stream, slot))
}

// The next connection of an endpoint, with its slot. `None` if none came for a while, or after `stop`, or if it is
// refused.
fn next_peer<'a, R: Wait, N: Notes>(
    rt: &R,
    server: &Server<'_>,
    notes: &N,
    endpoint: &'a Endpoint,
    entrance: &mut Entrance,
) -> Option<(PeerStream, &'a Slot)>
    ensures { IfSome result (λ next. IsSlotOf endpoint.now next.1.now) }
{
    let stream = match accept(rt, server, endpoint, entrance) {
        Ok(stream) => stream,
        Err(error) => {
            rest_after(rt, server, notes, endpoint, &error);
            return None;
        }
    };
    // It may have come while the endpoint waited, and after `stop`.
    if server.state.is_stopped() {
        return None;
    }
    match seat(rt, server, endpoint, &stream) {
        Ok(slot) => Some((stream, slot)),
        Err(refusal) => {
            let (name, words) = (server.name(endpoint.peer), refusal.words());
            notes.note(
                server.about(Kind::Refusal, endpoint.peer),
                format_args!("{name}: a connection is refused, {words}"),
            );
            None
        }
    }
}

// Puts a new connection into a slot.
fn seat<'a, R: Wait>(
    rt: &R,
    server: &Server<'_>,
    endpoint: &'a Endpoint,
    stream: &PeerStream,
) -> Result<&'a Slot, ConnectionRefusal>
    ensures { IfOk result (λ slot. IsSlotOf endpoint.now slot.now) }
{
    let shared = stream.try_clone()?;
    if let Peer::Trains(centre) = endpoint.peer {
        if server.is_stuck(rt, centre) {
            return Err(ConnectionRefusal::Journal);
        }
    }
    let Some(slot) = slot_for(rt, server, endpoint)? else {
        return Err(ConnectionRefusal::Slots);
    };
    slot.heard.store(server.state.hear(), Ordering::SeqCst);
    *slot.stream.lock(rt) = Some(shared);
    Ok(slot)
}

// A slot for a new connection. If all are taken, another connection has to leave its slot. At a centre, this is the
// earliest connection that serves no train. At the control endpoint, it is the least recently active one. If that
// connection does not leave, as when it waits for the disk, the next one of the interlocking has to. If none leaves,
// the reserve slot is taken. `None` if that is not free.
fn slot_for<'a, R: Wait>(
    rt: &R,
    server: &Server<'_>,
    endpoint: &'a Endpoint,
) -> Result<Option<&'a Slot>, AllocError>
    ensures { IfOk result (λ found. IfSome found (λ slot. IsSlotOf endpoint.now slot.now)) }
{
    let each = match endpoint.peer {
        Peer::Trains(_) => LEAVING_RESTS,
        Peer::Interlocking => NEXT_RESTS,
    };
    for turn in 0..=LEAVING_RESTS {
        let slots = states_of(rt, server, endpoint)?;
        match room_for(&slots, turn % each == 0, turn == LEAVING_RESTS) {
            Room::Take(place) | Room::Reserve(place) => return Ok(endpoint.take(rt, place)),
            Room::Leave(place) => endpoint.shut(rt, place),
            Room::Wait => {}
            Room::Full => break,
        }
        rest(rt, endpoint);
    }
    Ok(None)
}

// The states of an endpoint's slots now.
fn states_of<R: Wait>(
    rt: &R,
    server: &Server<'_>,
    endpoint: &Endpoint,
) -> Result<Vec<SlotState>, AllocError>
    ensures { IfOk result (λ states. map (λ state. state.is_reserve) states.items
        ≡ map (λ slot. slot.is_reserve) endpoint.now.slots.items) }
{
    let mut states = Vec::with_capacity(server.alloc, endpoint.slots.len())?;
    for slot in &endpoint.slots {
        let is_serving = server.is_serving(rt, endpoint.peer, slot.number);
        states.push(slot.state(is_serving))?;
    }
    Ok(states)
}

// After `stop`, trains have about 30 seconds to end their connections, and after `stop now` no time. Then the remaining
// connections are ended.
fn end_trains<R: Wait, N: Notes>(rt: &R, server: &Server<'_>, notes: &N, endpoint: &Endpoint) {
    for rests in 0..=GRACE_RESTS {
        let (is_empty, is_hasty) = (endpoint.is_empty(), server.state.is_hasty());
        match grace_of(rests, GRACE_RESTS, is_empty, is_hasty) {
            Grace::Over => return,
            Grace::Wait => rest(rt, endpoint),
            Grace::Cut => break,
        }
    }
    let name = server.name(endpoint.peer);
    notes.note(
        server.about(Kind::Stop, endpoint.peer),
        format_args!("{name}: the connections that are left are ended"),
    );
    for slot in &endpoint.slots {
        slot.shut(rt);
    }
}

// After the last session the interlocking has a second to read its last answers. Then its connections are ended.
fn end_controls<R: Wait>(rt: &R, server: &Server<'_>, endpoint: &Endpoint) {
    for _ in rt.forever() {
        if endpoint.is_empty() || server.state.is_empty() {
            break;
        }
        rest(rt, endpoint);
    }
    for rests in 0..=LEAVING_RESTS {
        match grace_of(rests, LEAVING_RESTS, endpoint.is_empty(), false) {
            Grace::Over => return,
            Grace::Wait => rest(rt, endpoint),
            Grace::Cut => break,
        }
    }
    for slot in &endpoint.slots {
        slot.shut(rt);
    }
}

// Serves one connection, and frees its slot.
fn attend<R: Threads + Wait + Sync + Clock, N: Notes + Sync>(
    rt: &R,
    server: &Server<'_>,
    notes: &N,
    peer: Peer,
    slot: &Slot,
    stream: PeerStream,
) {
    match peer {
        Peer::Trains(centre) => {
            if let Some(stream) = stream.into_tcp() {
                serve_train(rt, server, notes, centre, slot, stream);
            }
        }
        Peer::Interlocking => serve_control(rt, server, notes, slot, &stream),
    }
    slot.leave(rt);
}
