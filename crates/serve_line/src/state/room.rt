//! The slots of an endpoint at one moment, and the slot for a new connection.

ghost use Rattle.std.specs.Prelude.{◌≡◌, All, IfNone, IfSome, false, position};
ghost use Rattle.std.specs.List.{list_any};
ghost use Rattle.serve_line.specs.Rooms.{IsEarliest, IsRoom, found_after, is_leaving, is_open, is_spare, may_leave};

/// The state of a slot at one moment.
#[derive(Clone, Copy)]
pub struct SlotState {
    /// Whether it is the reserve slot: the thread of the endpoint serves its connection.
    pub is_reserve: bool,
    /// Whether a connection has the slot.
    pub is_taken: bool,
    /// Whether the connection has to leave the slot.
    pub is_leaving: bool,
    /// Whether the connection serves a train.
    pub is_serving: bool,
    /// The time of the connection's last activity, as a count.
    pub heard: u64,
}

/// The slot for a new connection. A slot is named by its place.
#[derive(Clone, Copy)]
pub enum Room {
    /// The connection takes this free slot.
    Take(usize),
    /// The connection takes this reserve slot.
    Reserve(usize),
    /// The connection of this slot has to leave it.
    Leave(usize),
    /// A slot may become free.
    Wait,
    /// There is none.
    Full,
}

/// The slot for a new connection at an endpoint with these slots. Another connection has to leave only if `is_due`. If
/// `is_last`, the new connection waits no longer.
pub fn room_for(slots: &[SlotState], is_due: bool, is_last: bool) -> Room
    ensures { IsRoom slots.now is_due is_last result }
{
    if let Some(place) = open_in(slots) {
        return Room::Take(place);
    }
    if !is_last {
        if !is_due {
            return Room::Wait;
        }
        if let Some(place) = earliest(slots) {
            return Room::Leave(place);
        }
        if is_awaiting(slots) {
            return Room::Wait;
        }
    }
    match spare_in(slots) {
        Some(place) => Room::Reserve(place),
        None => Room::Full,
    }
}

// The first free slot that is not in reserve.
fn open_in(slots: &[SlotState]) -> Option<usize>
    ensures { result ≡ position is_open slots.now }
{
    slots
        .iter()
        .position(|slot| !slot.is_taken && !slot.is_reserve)
}

// The first free reserve slot.
fn spare_in(slots: &[SlotState]) -> Option<usize>
    ensures { result ≡ position is_spare slots.now }
{
    slots
        .iter()
        .position(|slot| !slot.is_taken && slot.is_reserve)
}

// Whether a connection has to leave its slot, and has not left yet.
fn is_awaiting(slots: &[SlotState]) -> bool
    ensures { result ≡ list_any is_leaving slots.now }
{
    slots.iter().any(|slot| slot.is_leaving && slot.is_taken)
}

// Whether the connection of a slot may have to leave it.
fn may_leave(slot: SlotState) -> bool
    ensures { result ≡ may_leave slot }
{
    !slot.is_reserve && !slot.is_leaving && !slot.is_serving
}

// The slot whose connection was last active earliest, among those that may have to leave.
fn earliest(slots: &[SlotState]) -> Option<usize>
    ensures some { IfSome result (IsEarliest slots.now) }
    ensures none { IfNone result (All (λ slot. may_leave slot ≡ false) slots.now) }
{
    let mut found: Option<(usize, u64)> = None;
    for (place, slot) in slots.iter().enumerate() {
        found = found_after(found, place, *slot);
    }
    match found {
        Some((place, _)) => Some(place),
        None => None,
    }
}

// The slot that was found and its time, after the slot at this place.
fn found_after(found: Option<(usize, u64)>, place: usize, slot: SlotState) -> Option<(usize, u64)>
    ensures { result ≡ found_after found place slot }
{
    if !may_leave(slot) {
        return found;
    }
    match found {
        Some((_, heard)) if heard <= slot.heard => found,
        _ => Some((place, slot.heard)),
    }
}
