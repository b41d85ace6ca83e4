/// The use of a section, as the line sees it.
#[derive(Clone, Copy, Debug, PartialEq, Eq)]
pub enum Mark {
    /// Not released by the interlocking.
    Shut,
    /// Released, and in no use.
    Open,
    /// In use for a train that has it in no movement authority.
    Kept { nid_engine: u32 },
    /// In a train's movement authority.
    Given { nid_engine: u32 },
}

/// A section of the line.
#[derive(Clone, Copy, Debug, PartialEq, Eq)]
pub struct SectionView {
    pub mark: Mark,
    /// The interlocking wishes it back.
    pub is_wished: bool,
}
