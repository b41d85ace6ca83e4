ghost use Rattle.std.specs.Prelude.{◌≡◌};

use crate::kinds::Kind;

/// The subject of a note: its kind, and whom its text names.
#[derive(Clone, Copy)]
pub struct About<'a> {
    pub kind: Kind,
    /// The name of the centre.
    pub centre: Option<&'a str>,
    /// NID_ENGINE of the train.
    pub engine: Option<u32>,
    pub peer: Option<PeerConnection>,
}

/// A connection, by the number of its slot.
#[derive(Clone, Copy)]
pub enum PeerConnection {
    /// A connection of a train.
    Train(usize),
    /// A connection of the interlocking.
    Control(usize),
}

impl<'a> About<'a> {
    /// A note of this kind that names nobody.
    pub fn of(kind: Kind) -> About<'a>
        ensures { result ≡ record { kind = kind; centre = None; engine = None; peer = None } }
    {
        About {
            kind,
            centre: None,
            engine: None,
            peer: None,
        }
    }

    /// A note of this kind about the centre of this name.
    pub fn centre(kind: Kind, name: &'a str) -> About<'a>
        ensures { result ≡ record { kind = kind; centre = Some name.entry; engine = None; peer = None } }
    {
        About {
            centre: Some(name),
            ..About::of(kind)
        }
    }

    /// The same, and about the train of this NID_ENGINE.
    pub fn train(self, nid_engine: u32) -> About<'a>
        ensures { result ≡ record self.entry { engine = Some nid_engine } }
    {
        About {
            engine: Some(nid_engine),
            ..self
        }
    }

    /// The same, and about this connection.
    pub fn over(self, peer: PeerConnection) -> About<'a>
        ensures { result ≡ record self.entry { peer = Some peer } }
    {
        About {
            peer: Some(peer),
            ..self
        }
    }
}
