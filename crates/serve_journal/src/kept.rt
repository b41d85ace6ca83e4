ghost use Rattle.std.specs.Prelude.{◌≡◌};
ghost use Rattle.serve_journal.specs.Shown.{shows};

/// Shows that the journal of a centre has the centre's events up to a stamp. Only `JournalFile::keep` makes one, once
/// they are durable. Only that of stamp 0, which shows no event, needs no journal.
#[derive(Debug, Drop)]
pub struct Kept {
    // The number of the centre.
    pub(crate) centre: u8,
    pub(crate) stamp: u32,
}

impl Kept {
    /// Shows no event of this centre: the stamps of events count from 1.
    pub fn no_event(centre: u8) -> Kept
        ensures centre { result.centre ≡ centre }
        ensures stamp { result.stamp ≡ 0 }
    {
        Kept { centre, stamp: 0 }
    }

    /// The same again.
    pub fn again(&self) -> Kept
        ensures { result ≡ self.now }
    {
        Kept {
            centre: self.centre,
            stamp: self.stamp,
        }
    }

    /// Whether it shows the event of this centre with this stamp.
    pub fn shows(&self, centre: u8, stamp: u32) -> bool
        ensures { result ≡ shows self.now centre stamp }
    {
        self.centre == centre && stamp <= self.stamp
    }

    /// The number of the centre.
    pub fn centre(&self) -> u8
        ensures { result ≡ self.now.centre }
    {
        self.centre
    }

    /// The stamp of the last of these events.
    pub fn stamp(&self) -> u32
        ensures { result ≡ self.now.stamp }
    {
        self.stamp
    }
}
