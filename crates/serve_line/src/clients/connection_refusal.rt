ghost use Rattle.std.specs.Prelude.{◌≡◌};
ghost use Rattle.serve_line.specs.Refusals.{words_of};

use std::alloc::AllocError;

/// The reason why a new connection is refused.
#[derive(Clone, Copy)]
pub(crate) enum ConnectionRefusal {
    /// Memory ran out.
    Memory,
    /// The centre's journal can't be written.
    Journal,
    /// No slot is free.
    Slots,
}

impl From<AllocError> for ConnectionRefusal {
    fn from(_error: AllocError) -> ConnectionRefusal {
        ConnectionRefusal::Memory
    }
}

impl ConnectionRefusal {
    /// The text of the note of the refusal.
    pub fn words(self) -> &'static str
        ensures { result.now ≡ words_of self }
    {
        match self {
            ConnectionRefusal::Memory => "memory ran out",
            ConnectionRefusal::Journal => "the journal can't be written",
            ConnectionRefusal::Slots => "there are too many",
        }
    }
}
