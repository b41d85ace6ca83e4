ghost use Rattle.std.specs.Prelude.{◌≡◌};

/// The use of a home section.
#[derive(Clone, Copy, Debug, PartialEq, Eq)]
pub enum Entry {
    /// Not released by the interlocking.
    Shut,
    /// Released, and in no use.
    Open,
    /// In use for a train, with its claim at this centre.
    Taken { nid_engine: u32 },
    /// In use for a train at another centre.
    Out { nid_engine: u32 },
}

impl Entry {
    ghost use Rattle.rbc_spec.specs.Centre.{is_open, is_unused, is_taken_for, is_out_for, is_used_for};
    ghost use Rattle.rbc_book.specs.Entries.{entry_of};

    /// Whether the section is released and in no use.
    pub fn is_open(self) -> bool
        ensures { result ≡ is_open (entry_of self) }
    {
        matches!(self, Entry::Open)
    }

    /// Whether the section is in no use.
    pub fn is_unused(self) -> bool
        ensures { result ≡ is_unused (entry_of self) }
    {
        matches!(self, Entry::Shut | Entry::Open)
    }

    /// Whether the section is in use for this train, here or at another centre.
    pub fn is_used_for(self, train: u32) -> bool
        ensures { result ≡ is_used_for train (entry_of self) }
    {
        match self {
            Entry::Taken { nid_engine } | Entry::Out { nid_engine } => nid_engine == train,
            _ => false,
        }
    }

    /// Whether the section is in use for this train, with its claim at this centre.
    pub fn is_taken_for(self, train: u32) -> bool
        ensures { result ≡ is_taken_for train (entry_of self) }
    {
        match self {
            Entry::Taken { nid_engine } => nid_engine == train,
            _ => false,
        }
    }

    /// Whether the section is in use for this train at another centre.
    pub fn is_out_for(self, train: u32) -> bool
        ensures { result ≡ is_out_for train (entry_of self) }
    {
        match self {
            Entry::Out { nid_engine } => nid_engine == train,
            _ => false,
        }
    }
}

/// The page of a section in a centre's book.
#[derive(Clone, Copy, Debug, PartialEq, Eq)]
pub struct Page {
    pub entry: Entry,
    /// The interlocking wishes the section back.
    pub is_wished: bool,
}

impl Page {
    /// A section that is in no use and not released.
    pub const SHUT: Page = Page {
        entry: Entry::Shut,
        is_wished: false,
    };

    pub(crate) fn new(entry: Entry, is_wished: bool) -> Page
        ensures { result ≡ record { entry = entry; is_wished = is_wished } }
    {
        Page { entry, is_wished }
    }
}
