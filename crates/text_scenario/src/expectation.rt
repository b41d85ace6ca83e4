ghost use Rattle.std.specs.Prelude.{◌≡◌};

use rbc_world::{Body, Mark, Word};

/// An expectation of the answer to an event, or of the line after it.
#[derive(Clone, Copy)]
pub enum Expectation {
    /// A centre took a step, which sends nothing: to no train, to no other centre, and not to the interlocking.
    Nothing,
    /// No centre took a step.
    Refused,
    /// A train's message has no answer, for the reason of this number or for any.
    Silence(Option<u32>),
    /// The centre sends the train this message.
    Message {
        centre: u8,
        nid_engine: u32,
        message: Message,
    },
    /// The first centre sends the second a frame with this body.
    Frame {
        from: u8,
        to: u8,
        body: BodyKind,
    },
    /// The centre replies so to the interlocking.
    Reply {
        centre: u8,
        word: Word,
    },
    /// This is the use of a section.
    Section {
        section: u16,
        mark: Mark,
    },
    /// This centre supervises the train, or none does.
    Train {
        nid_engine: u32,
        supervisor: Option<u8>,
    },
}

/// A message to a train; a part that is not named may be any.
#[derive(Clone, Copy)]
pub enum Message {
    /// Any message of this NID_MESSAGE.
    Numbered(u32),
    /// Message 3: the end of the authority, in metres of its track.
    Authority(Option<u32>),
    /// Message 9: the end of the shortened authority, in metres of its track.
    ShorteningRequest(Option<u32>),
    /// Message 8: T_TRAIN of the train data.
    DataAcknowledged(Option<u32>),
    /// Message 24 with packet 131: NID_RBC of the accepting centre, and the border in metres of its track.
    Transition {
        nid_rbc: Option<u32>,
        border: Option<u32>,
    },
    /// Message 24 with packet 42.
    EndSession,
    SystemVersion,
    TerminationAcknowledged,
    TrainRejected,
    TrainAccepted,
}

/// Which body a frame has.
#[derive(Clone, Copy)]
pub enum BodyKind {
    AskRight = 1,
    GiveRight = 2,
    RefuseRight = 3,
    ReturnRight = 4,
    RouteAsk = 5,
    RouteInfo = 6,
    RouteWithdraw = 7,
    RouteReturn = 8,
    Announce = 9,
    Cancel = 10,
    TakingOver = 11,
    Yield = 12,
}

impl BodyKind {
    ghost use Rattle.rbc_linkmsg.specs.Bodies.{body_of};
    ghost use Rattle.text_scenario.specs.Meets.{kind_number, kind_of};

    /// Which body this is.
    pub fn of(body: Body) -> BodyKind
        ensures { result ≡ kind_of (body_of body) }
    {
        match body {
            Body::AskRight { .. } => BodyKind::AskRight,
            Body::GiveRight { .. } => BodyKind::GiveRight,
            Body::RefuseRight { .. } => BodyKind::RefuseRight,
            Body::ReturnRight { .. } => BodyKind::ReturnRight,
            Body::RouteAsk { .. } => BodyKind::RouteAsk,
            Body::RouteInfo { .. } => BodyKind::RouteInfo,
            Body::RouteWithdraw { .. } => BodyKind::RouteWithdraw,
            Body::RouteReturn { .. } => BodyKind::RouteReturn,
            Body::Announce { .. } => BodyKind::Announce,
            Body::Cancel { .. } => BodyKind::Cancel,
            Body::TakingOver { .. } => BodyKind::TakingOver,
            Body::Yield { .. } => BodyKind::Yield,
        }
    }

    /// Its number, as the byte of a frame names it.
    pub fn number(self) -> u8
        ensures { result ≡ kind_number self }
    {
        self as u8
    }
}
