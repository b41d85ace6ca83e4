ghost use Rattle.std.specs.Prelude.{◌++◌, ◌<◌, ◌≡◌, ◌≤◌, false, IfNone};
ghost use Rattle.std.specs.Prelude.{IfSome, IsTrue, length, slice_get, true, vec_len};
ghost use Rattle.serve_line.specs.Slots.{IsSlotOf};

use crate::state::limits::MOST_TOLD;
use crate::state::peer::Peer;
use crate::state::room::SlotState;
use crate::state::streams::{Address, Listener, PeerStream};
use rbc_node::Share;
use serve_journal::Opened;
use std::alloc::Global;
use std::sync::atomic::{AtomicBool, AtomicU64, Ordering};
use std::sync::{Mutex, Wait};
use std::thread::Parker;

/// A slot of an endpoint: it holds one connection at a time. Its shares hold the receipts of the connection's commits,
/// one share for each centre that the endpoint reaches.
#[derive(Drop)]
pub struct Slot {
    /// The number of the slot at its endpoint, from 0.
    pub number: usize,
    /// Whether the thread of the endpoint serves the connection of this slot. The slot is taken if no other slot
    /// becomes free, or no thread can be made.
    pub is_reserve: bool,
    /// Whether a connection has the slot.
    pub is_taken: AtomicBool,
    /// Whether the connection has to leave the slot.
    pub is_leaving: AtomicBool,
    /// The time of the connection's last activity, its start or its last line, as `State::hear` counts.
    pub heard: AtomicU64,
    /// The connection, while one has the slot.
    pub stream: Mutex<Option<PeerStream>>,
    /// The receipts.
    pub shares: Mutex<Vec<Share>>,
    /// Notification lines that the connection has not written yet, at most `MOST_TOLD` bytes and one line.
    pub told: Mutex<Opened<Vec<u8>>>,
}

impl Slot {
    /// Shuts the connection that has the slot.
    pub fn shut<R: Wait>(&self, rt: &R) {
        self.is_leaving.store(true, Ordering::SeqCst);
        if let Some(stream) = &*self.stream.lock(rt) {
            stream.shut();
        }
    }

    /// Whether the connection has to leave the slot.
    pub fn is_leaving(&self) -> bool {
        self.is_leaving.load(Ordering::SeqCst)
    }

    /// Notifies the connection that has the slot that a section is shut. If too many bytes wait for the connection, or
    /// the text is missing, it ends.
    pub fn tell<R: Wait>(&self, rt: &R, text: Option<&Opened<Vec<u8>>>) {
        if !self.is_taken.load(Ordering::SeqCst) {
            return;
        }
        if !self.is_told(rt, text) {
            self.shut(rt);
        }
    }

    // Adds a text to the notification lines, and returns whether there was room for it.
    fn is_told<R: Wait>(&self, rt: &R, text: Option<&Opened<Vec<u8>>>) -> bool {
        let Some(text) = text else {
            return false;
        };
        let mut told = self.told.lock(rt);
        add_told(&mut told, text)
    }

    /// Takes the notification lines since the last call.
    pub fn take_told<R: Wait>(&self, rt: &R, alloc: Global) -> Opened<Vec<u8>> {
        std::mem::replace(&mut *self.told.lock(rt), Opened::nothing(alloc))
    }

    /// Frees the slot: its connection has ended.
    pub fn leave<R: Wait>(&self, rt: &R) {
        *self.stream.lock(rt) = None;
        self.is_taken.store(false, Ordering::SeqCst);
    }

    /// The state of the slot now. `is_serving`: whether its connection serves a train.
    pub(crate) fn state(&self, is_serving: bool) -> SlotState
        ensures { (result.is_reserve ≡ self.now.is_reserve) × (result.is_serving ≡ is_serving) }
    {
        SlotState {
            is_reserve: self.is_reserve,
            is_taken: self.is_taken.load(Ordering::SeqCst),
            is_leaving: self.is_leaving(),
            is_serving,
            heard: self.heard.load(Ordering::SeqCst),
        }
    }
}

/// A listening port or socket, and the slots of its connections.
#[derive(Drop)]
pub struct Endpoint {
    /// `None` after the endpoint is closed.
    pub listener: Mutex<Option<Listener>>,
    /// The address of the port or socket.
    pub address: Address,
    /// The kind of peer.
    pub peer: Peer,
    /// The slots of the connections.
    pub slots: Vec<Slot>,
    /// Rung when the endpoint is to close.
    pub waker: Parker,
}

impl Endpoint {
    /// Takes the slot at a place, which is free. Only the thread of the endpoint calls it.
    pub fn take<R: Wait>(&self, rt: &R, place: usize) -> Option<&Slot>
        ensures some { IfSome result (λ slot. slice_get self.now.slots.items place ≡ Some slot.now) }
        ensures none { IfNone result (length self.now.slots.items ≤ place) }
    {
        let slot = self.slots.get(place)?;
        slot.told.lock(rt).clear();
        slot.is_leaving.store(false, Ordering::SeqCst);
        slot.is_taken.store(true, Ordering::SeqCst);
        Some(slot)
    }

    /// Takes the reserve slot, if the endpoint has one and it is free. Only the thread of the endpoint calls it.
    pub fn reserve_slot<R: Wait>(&self, rt: &R) -> Option<&Slot>
        ensures { IfSome result (λ slot. IsSlotOf self.now slot.now × (slot.now.is_reserve ≡ true)) }
    {
        for (place, slot) in self.slots.iter().enumerate() {
            if slot.is_reserve && !slot.is_taken.load(Ordering::SeqCst) {
                return self.take(rt, place);
            }
        }
        None
    }

    /// Shuts the connection that has the slot at a place.
    pub fn shut<R: Wait>(&self, rt: &R, place: usize) {
        if let Some(slot) = self.slots.get(place) {
            slot.shut(rt);
        }
    }

    /// Whether no slot is taken.
    pub fn is_empty(&self) -> bool {
        for slot in &self.slots {
            if slot.is_taken.load(Ordering::SeqCst) {
                return false;
            }
        }
        true
    }
}

// Adds a text to notification lines, and returns whether there was room for it.
fn add_told(told: &mut Opened<Vec<u8>>, text: &Opened<Vec<u8>>) -> bool
    ensures room { IsTrue result → vec_len told.old.answer < 65536 }
    ensures added { IsTrue result → told.new.answer.items ≡ told.old.answer.items ++ text.now.answer.items }
    ensures refused { result ≡ false → told.new.answer.items ≡ told.old.answer.items }
{
    if told.get().len() >= MOST_TOLD {
        return false;
    }
    told.add(text).is_ok()
}
