//! The endpoints with their slots, as they are built.

ghost use Rattle.std.specs.List.{range_with_len};
ghost use Rattle.std.specs.Option.{option_map_or};
ghost use Rattle.std.specs.Prelude.{[], ◌++◌, ◌∷◌, ◌≡◌, ◌+◌, IfOk, false, length, map, vec_len};
ghost use Rattle.serve_line.specs.Building.{control_places, control_seats, peer_at, place_of, seats_at, seats_of};
ghost use Rattle.serve_line.specs.Building.{slot_places};

use crate::state::endpoints::{Listening, ListeningAt};
use crate::state::limits::{CONTROLS, SPARE};
use crate::state::peer::Peer;
use crate::state::slots::{Endpoint, Slot};
use crate::state::streams::{Address, Listener};
use rbc_line::Line;
use rbc_node::{Node, Share};
use serve_journal::Opened;
use std::alloc::{AllocError, Global};
use std::sync::Mutex;
use std::sync::atomic::{AtomicBool, AtomicU64};
use std::thread::Parker;

/// The most connections of a centre at the same time.
pub(crate) fn most_trains(line: &Line) -> usize
    ensures { result ≡ length line.now.trains + 8 }
{
    line.train_count() as usize + SPARE
}

/// The endpoints of the centres, and after them the control endpoint, each with its slots. The control endpoint is the
/// last port, or the Unix socket.
pub fn endpoints_of(
    alloc: Global,
    line: &Line,
    nodes: &[Node],
    listening: Vec<Listening>,
    socket: Option<ListeningAt>,
) -> Result<Vec<Endpoint>, AllocError>
    ensures { IfOk result (λ endpoints. map seats_of endpoints.items ≡ map (seats_at line.now nodes.now)
        (range_with_len 0 (vec_len listening)) ++ option_map_or (λ socket. control_seats ∷ []) socket []) }
{
    let mut endpoints = ports_of(alloc, line, nodes, listening)?;
    if let Some(socket) = socket {
        let endpoint = control_at(alloc, nodes, socket)?;
        endpoints.push(endpoint)?;
    }
    Ok(endpoints)
}

// The endpoints of these ports, in their order.
fn ports_of(
    alloc: Global,
    line: &Line,
    nodes: &[Node],
    listening: Vec<Listening>,
) -> Result<Vec<Endpoint>, AllocError>
    ensures { IfOk result (λ endpoints. map seats_of endpoints.items
        ≡ map (seats_at line.now nodes.now) (range_with_len 0 (vec_len listening))) }
{
    let mut left = listening;
    left.reverse();
    let mut endpoints = Vec::new(alloc);
    for number in 0..left.len() {
        let Some(listening) = left.pop() else {
            break;
        };
        let endpoint = endpoint_of(alloc, line, nodes, number, listening)?;
        endpoints.push(endpoint)?;
    }
    Ok(endpoints)
}

// The control endpoint at a Unix socket.
fn control_at(alloc: Global, nodes: &[Node], socket: ListeningAt) -> Result<Endpoint, AllocError>
    ensures { IfOk result (λ endpoint. seats_of endpoint ≡ control_seats) }
{
    let ListeningAt { listener, path } = socket;
    Ok(Endpoint {
        listener: Mutex::new(Some(Listener::Unix(listener))),
        address: Address::Path(path),
        peer: Peer::Interlocking,
        slots: control_slots(alloc, nodes)?,
        waker: Parker::new(),
    })
}

// The endpoint of this number: a centre's, or after those the control endpoint.
fn endpoint_of(
    alloc: Global,
    line: &Line,
    nodes: &[Node],
    number: usize,
    listening: Listening,
) -> Result<Endpoint, AllocError>
    ensures peer { IfOk result (λ endpoint. endpoint.peer ≡ peer_at nodes.now number) }
    ensures slots { IfOk result (λ endpoint. map place_of endpoint.slots.items
        ≡ slot_places line.now nodes.now number) }
{
    Ok(Endpoint {
        listener: Mutex::new(Some(Listener::Tcp(listening.listener))),
        address: Address::Port(listening.address),
        peer: peer_at(nodes, number),
        slots: slots_at(alloc, line, nodes, number)?,
        waker: Parker::new(),
    })
}

// The kind of peer at the endpoint of this number.
fn peer_at(nodes: &[Node], number: usize) -> Peer
    ensures { result ≡ peer_at nodes.now number }
{
    match nodes.get(number) {
        Some(node) => Peer::Trains(node.share().centre()),
        None => Peer::Interlocking,
    }
}

// The slots of the endpoint of this number.
fn slots_at(
    alloc: Global,
    line: &Line,
    nodes: &[Node],
    number: usize,
) -> Result<Vec<Slot>, AllocError>
    ensures { IfOk result (λ slots. map place_of slots.items ≡ slot_places line.now nodes.now number) }
{
    match nodes.get(number) {
        Some(_) => slots_of(alloc, most_trains(line), &nodes[number..=number]),
        None => control_slots(alloc, nodes),
    }
}

// The slots of the control endpoint; the last is the reserve slot.
fn control_slots(alloc: Global, nodes: &[Node]) -> Result<Vec<Slot>, AllocError>
    ensures { IfOk result (λ slots. map place_of slots.items ≡ control_places) }
{
    let mut slots = slots_of(alloc, CONTROLS, nodes)?;
    let reserve = slot_of(alloc, CONTROLS, true, nodes)?;
    slots.push(reserve)?;
    Ok(slots)
}

// This many free slots, each with a share of each of these nodes.
fn slots_of(alloc: Global, count: usize, nodes: &[Node]) -> Result<Vec<Slot>, AllocError>
    ensures { IfOk result (λ slots. map place_of slots.items
        ≡ map (λ number. (number, false)) (range_with_len 0 count)) }
{
    let mut slots = Vec::with_capacity(alloc, count)?;
    for number in 0..count {
        let slot = slot_of(alloc, number, false, nodes)?;
        slots.push(slot)?;
    }
    Ok(slots)
}

// The slot of this number; it is free.
fn slot_of(
    alloc: Global,
    number: usize,
    is_reserve: bool,
    nodes: &[Node],
) -> Result<Slot, AllocError>
    ensures { IfOk result (λ slot. place_of slot ≡ (number, is_reserve)) }
{
    let shares: Vec<Share> = nodes.iter().map(|node| node.share()).collect(alloc)?;
    Ok(Slot {
        number,
        is_reserve,
        is_taken: AtomicBool::new(false),
        is_leaving: AtomicBool::new(false),
        heard: AtomicU64::new(0),
        stream: Mutex::new(None),
        shares: Mutex::new(shares),
        told: Mutex::new(Opened::nothing(alloc)),
    })
}
