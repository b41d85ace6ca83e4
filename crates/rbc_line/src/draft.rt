use toml::value::Array;

/// The parts of a line file.
#[derive(Clone, Copy)]
pub(crate) struct Parts<'a> {
    pub(crate) nid_c: i64,
    pub(crate) centres: &'a Array,
    pub(crate) tracks: &'a Array,
    pub(crate) trains: &'a Array,
}

/// A centre as the line file has it.
#[derive(Clone, Copy)]
pub(crate) struct DraftCentre<'a> {
    pub(crate) name: &'a str,
    pub(crate) nid_rbc: i64,
}

/// A section as the line file has it, with the number of its track.
#[derive(Clone, Copy)]
pub(crate) struct DraftSection<'a> {
    pub(crate) track: usize,
    pub(crate) metres: i64,
    pub(crate) home: &'a str,
    pub(crate) balise: i64,
}

/// A track as the line file has it.
#[derive(Drop)]
pub(crate) struct DraftTrack<'a> {
    pub(crate) name: &'a str,
    pub(crate) sections: Vec<DraftSection<'a>>,
}

/// A train as the line file has it.
#[derive(Clone, Copy)]
pub(crate) struct DraftTrain<'a> {
    pub(crate) engine: i64,
    pub(crate) registrar: &'a str,
}

/// The names of the tracks, and the sections of all tracks in order.
#[derive(Drop)]
pub(crate) struct DraftTracks<'a> {
    pub(crate) names: Vec<&'a str>,
    pub(crate) sections: Vec<DraftSection<'a>>,
}

/// The content of a line file, before any limit is tested.
#[derive(Drop)]
pub(crate) struct Draft<'a> {
    pub(crate) nid_c: i64,
    pub(crate) centres: Vec<DraftCentre<'a>>,
    pub(crate) tracks: DraftTracks<'a>,
    pub(crate) trains: Vec<DraftTrain<'a>>,
}
