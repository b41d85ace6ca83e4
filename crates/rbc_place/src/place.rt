ghost use Rattle.std.specs.Prelude.{◌<◌, ◌≤◌, ◌^◌};

/// The place of a train. Its ends are in decimetres from the start of its track.
#[derive(Clone, Copy, Debug, PartialEq, Eq)]
pub struct Place {
    /// Number of the track in the line file, from 0.
    pub track: u8,
    /// NID_LRBG of the balise group that the report names: 24 bits.
    pub group: u32,
    /// The safe front end: 31 bits.
    pub front: u32,
    /// The safe rear end, known only if train integrity is confirmed. It may be before the start of the track.
    pub rear: Option<i32>,
    pub ghost of_24_bits: { group < 2 ^ 24 },
    pub ghost of_31_bits: { front ≤ 2147483647 },
}

impl Place {
    ghost use Rattle.std.specs.Prelude.{◌≡◌};
    ghost use Rattle.rbc_spec.specs.Place as spec;
    ghost use Rattle.rbc_place.specs.Places.{place_of};

    /// Whether the place is on this track.
    pub fn is_on_track(self, track: u8) -> bool
        ensures { result ≡ spec.is_placed_on track (place_of self) }
    {
        self.track == track
    }
}
