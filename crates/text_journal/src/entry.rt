ghost use Rattle.std.specs.Prelude.{◌≡◌};
ghost use Rattle.text_journal.specs.Order.{taken_at};

use text_script::WorldEvent;

/// An event that a centre took, the stamp of the answer, and the time at which it was written.
#[derive(Debug, Drop)]
pub struct Entry {
    pub stamp: u32,
    /// In milliseconds since 1970-01-01 UTC, by the clock of the machine. Times need not rise: a clock may be set back.
    /// `None` if the line has no time.
    pub time_ms: Option<u64>,
    pub event: WorldEvent,
}

impl Entry {
    /// The centre that took the event.
    pub fn centre(&self) -> u8
        ensures { result ≡ taken_at self.now }
    {
        match &self.event {
            WorldEvent::Train { centre, .. } => *centre,
            WorldEvent::Set { centre, .. } => *centre,
            WorldEvent::Unset { centre, .. } => *centre,
            WorldEvent::Deliver { to, .. } => *to,
        }
    }
}
