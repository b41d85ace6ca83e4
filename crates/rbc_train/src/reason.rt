ghost use Rattle.std.specs.Prelude.{◌≡◌};

/// Why a train's message is left without an answer.
#[derive(Clone, Copy, Debug, PartialEq, Eq)]
pub enum Reason {
    /// Its T_TRAIN is not above the last that the centre has received from the train (3.16.3).
    StaleStamp = 1,
    /// The train has no session here (3.5.3).
    NoSession = 2,
    /// The train is not of the line.
    ForeignEngine = 3,
    /// The report has no place that the message can be taken at (3.6).
    NoPlace = 4,
    /// The train is not supervised by this centre.
    NotSupervised = 5,
    /// Its train data are not known.
    NoTrainData = 6,
    /// A request to shorten its authority is pending (3.8.6).
    ProposalPending = 7,
    /// It answers a request that is not pending.
    Unasked = 8,
    /// Its mission is ended.
    MissionEnded = 9,
    /// The session is up already, or not up yet (3.5.3).
    WrongPhase = 10,
}

impl Reason {
    ghost use Rattle.rbc_train.specs.Reasons.{number_of_reason};

    /// The number that is printed.
    pub fn number(self) -> u8
        ensures { result ≡ number_of_reason self }
    {
        self as u8
    }
}
