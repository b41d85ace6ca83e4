ghost use Rattle.std.specs.Prelude.{◌≡◌, pos, true, int_lt};
ghost use Rattle.law_trains.specs.Trains.{IsNew};
ghost use Rattle.train_unit.specs.Units.{train_of};
ghost use Rattle.train_unit.specs.declared.ends.Ends.{Ends as There};

/// The centre that a train follows.
#[derive(Clone, Copy, Debug, PartialEq, Eq)]
pub(crate) struct Followed {
    /// Its number.
    pub(crate) centre: u8,
    /// T_TRAIN of its message 8, by which the train follows it.
    pub(crate) stamp: u32,
}

/// A request to shorten that a train received (message 9).
#[derive(Clone, Copy, Debug, PartialEq, Eq)]
pub(crate) struct Asked {
    /// Its T_TRAIN.
    pub(crate) stamp: u32,
    /// The proposed end of the authority, in metres from the start of the track.
    pub(crate) end: u32,
}

/// The on-board unit of a train. It can't be copied, so that no two trains have one name.
#[derive(Debug, Drop)]
pub struct OnBoardUnit {
    /// NID_ENGINE of the train.
    pub(crate) nid_engine: u32,
    /// T_TRAIN of the last message that it sent.
    pub(crate) clock: u32,
    /// It has sent a start of mission.
    pub(crate) has_started: bool,
    /// The end of its authority, in metres from the start of the track.
    pub(crate) end: Option<u32>,
    /// The centre that it follows.
    pub(crate) follows: Option<Followed>,
    /// T_TRAIN of the last message by which it gave something back.
    pub(crate) gave_back: u32,
    /// For each centre, the request to shorten that it received last.
    pub(crate) asked: [Option<Asked>; 8],
}

impl OnBoardUnit {
    /// The unit of a train that has sent and received nothing.
    pub fn new(nid_engine: u32) -> OnBoardUnit
        ensures name { result.nid_engine ≡ nid_engine }
        ensures stamps { (result.clock ≡ 0) × (result.gave_back ≡ 0) }
        ensures new { (ends : There) → int_lt ends.rear (pos ends.front) ≡ true → IsNew (train_of result ends) }
    {
        OnBoardUnit {
            nid_engine,
            clock: 0,
            has_started: false,
            end: None,
            follows: None,
            gave_back: 0,
            asked: [None; 8],
        }
    }

    /// NID_ENGINE of the train.
    pub fn nid_engine(&self) -> u32
        ensures { result ≡ self.now.nid_engine }
    {
        self.nid_engine
    }
}
