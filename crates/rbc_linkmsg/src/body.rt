ghost use Rattle.std.specs.Prelude.{◌≡◌};

use rbc_line::SectionRun;

/// The place that is yielded with a train.
#[derive(Clone, Copy, Debug, PartialEq, Eq)]
pub struct YieldedPlace {
    /// Number of the track in the line file, from 0.
    pub track: u8,
    /// NID_LRBG of the balise group that the place names.
    pub group: u32,
    /// The safe front end, in decimetres from the start of the track.
    pub front: i32,
    /// The safe rear end, in decimetres from the start of the track, if it is known.
    pub rear: Option<i32>,
}

/// The mission that is handed over with the supervision of a train.
#[derive(Clone, Copy, Debug, PartialEq, Eq)]
pub struct Yielding {
    /// T_TRAIN of the last message that was received.
    pub heard: u32,
    /// Whether the data of the train are known.
    pub has_data: bool,
    /// Whether its mission has ended.
    pub is_ended: bool,
    /// The place of the train.
    pub place: YieldedPlace,
    /// The sections of its movement authority.
    pub hand: SectionRun,
}

/// The body of a frame between centres (profile; the words for a handover are those of SUBSET-039).
#[derive(Clone, Copy, Debug, PartialEq, Eq)]
pub enum Body {
    /// The registrar is asked for the supervision right of the train.
    AskRight {
        engine: u32,
    },
    /// The right is given.
    GiveRight {
        engine: u32,
    },
    /// The right is not there to be given.
    RefuseRight {
        engine: u32,
    },
    /// The right is returned to the registrar.
    ReturnRight {
        engine: u32,
    },
    /// Asks for sections: from the first on, at most `most`.
    RouteAsk {
        engine: u32,
        first: u16,
        most: u16,
    },
    /// These sections are lent.
    RouteInfo {
        engine: u32,
        run: SectionRun,
    },
    /// The interlocking wishes a lent section back.
    RouteWithdraw {
        engine: u32,
        section: u16,
    },
    /// Lent sections are returned.
    RouteReturn {
        engine: u32,
        run: SectionRun,
    },
    /// A handover of this number is announced, on this track.
    Announce {
        handover: u32,
        engine: u32,
        track: u8,
    },
    /// The handover of this number is cancelled.
    Cancel {
        handover: u32,
        engine: u32,
    },
    /// The train of this handover has reported in the accepting centre's area.
    TakingOver {
        handover: u32,
        engine: u32,
    },
    /// The supervision is handed over.
    Yield {
        handover: u32,
        engine: u32,
        yielding: Yielding,
    },
}

impl Body {
    ghost use Rattle.rbc_linkmsg.specs.Bodies.{body_of, engine_in};

    /// NID_ENGINE of the train that it names.
    pub fn engine(self) -> u32
        ensures { result ≡ engine_in (body_of self) }
    {
        match self {
            Body::AskRight { engine }
            | Body::GiveRight { engine }
            | Body::RefuseRight { engine }
            | Body::ReturnRight { engine }
            | Body::RouteAsk { engine, .. }
            | Body::RouteInfo { engine, .. }
            | Body::RouteWithdraw { engine, .. }
            | Body::RouteReturn { engine, .. }
            | Body::Announce { engine, .. }
            | Body::Cancel { engine, .. }
            | Body::TakingOver { engine, .. }
            | Body::Yield { engine, .. } => engine,
        }
    }
}
