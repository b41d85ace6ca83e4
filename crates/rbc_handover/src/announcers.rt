ghost use Rattle.std.specs.Prelude.{◌≡◌};
ghost use Rattle.rbc_handover.specs.Expectations.{is_told};

/// The centres that get the reply that this one takes over.
#[derive(Clone, Copy, Debug, PartialEq, Eq)]
pub struct Announcers {
    /// Of each centre, by its number in the line file.
    pub(crate) are_told: [bool; 8],
}

impl Announcers {
    /// Whether the centre gets it.
    pub fn has(self, centre: u8) -> bool
        ensures { result ≡ is_told self centre }
    {
        (centre as usize) < 8 && self.are_told[centre as usize]
    }
}
