/// A section of a track, with the balise group at its start.
#[derive(Clone, Copy, PartialEq, Eq, Debug)]
pub struct Section {
    /// Number of the track in the line file, from 0.
    pub track: u8,
    /// The start of the section, in metres from the start of its track.
    pub start: u32,
    /// Length in metres.
    pub metres: u16,
    /// Number of the home centre.
    pub home: u8,
    /// NID_BG of the balise group at its start.
    pub balise: u16,
}

/// A train, and the centre at which its supervision right is registered.
#[derive(Clone, Copy, PartialEq, Eq, Debug)]
pub struct Train {
    /// NID_ENGINE of the train (SUBSET-026 7.5).
    pub nid_engine: u32,
    /// Number of the centre.
    pub registrar: u8,
}

/// A radio block centre by its name in the line file.
#[derive(Drop)]
pub(crate) struct Centre {
    pub(crate) name: String,
    pub(crate) nid_rbc: u16,
}

/// The lists of a line.
#[derive(Drop)]
pub(crate) struct Rows {
    pub(crate) nid_c: u16,
    pub(crate) centres: Vec<Centre>,
    pub(crate) tracks: Vec<String>,
    pub(crate) sections: Vec<Section>,
    pub(crate) trains: Vec<Train>,
}
