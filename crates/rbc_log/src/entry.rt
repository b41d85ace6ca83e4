ghost use Rattle.std.specs.Prelude.{◌≡◌, IfOk};

use rbc_centre::{Event, FrameRoom, Outcome};
use std::alloc::{AllocError, Global};

/// An event that a centre took, and its outcome.
#[derive(Debug, Drop)]
pub struct Entry {
    /// The number of the centre.
    pub centre: u8,
    pub event: Event,
    pub outcome: Outcome,
}

impl Entry {
    ghost use Rattle.rbc_centre.specs.Rooms.{HasFrameRoom};
    ghost use Rattle.rbc_log.specs.Entries.{written_of};

    /// A copy of the entry. If memory for its frames runs out, they take the room.
    pub fn copied(&self, alloc: Global, room: &mut FrameRoom) -> Result<Entry, AllocError>
        requires { HasFrameRoom room.old }
        ensures { IfOk result (λ e. written_of e ≡ written_of self.now) }
    {
        Ok(Entry {
            centre: self.centre,
            event: self.event.copied(alloc)?,
            outcome: self.outcome.copied(room),
        })
    }
}
