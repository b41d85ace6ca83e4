use rbc_line::SectionRun;

/// A pending request to shorten: the train has not answered it.
#[derive(Clone, Copy, Debug, PartialEq, Eq)]
pub struct Proposal {
    /// T_TRAIN of its message 9.
    pub stamp: u32,
    /// The last section of the hand that is to be kept.
    pub last_kept: u16,
}

/// The content of a request to shorten.
#[derive(Clone, Copy, Debug, PartialEq, Eq)]
pub struct Shortening {
    /// L_ENDSECTION of message 9: the proposed end, in metres from the balise group of the train's place.
    pub l_endsection: u16,
    /// The last section of the hand that is to be kept.
    pub last_kept: u16,
}

/// The facts that decide whether a request to shorten may be sent for a mission.
#[derive(Clone, Copy, Debug, PartialEq, Eq)]
pub struct ShorteningFacts {
    /// The session with the train is up.
    pub is_up: bool,
    /// The mission is ended.
    pub is_ended: bool,
    /// The pending request.
    pub proposal: Option<Proposal>,
    /// The sections of the authority.
    pub hand: SectionRun,
    /// The safe front end, in decimetres from the start of the track.
    pub front: u32,
    /// The balise group of the train's place, in metres from the start of the track.
    pub group_start: u32,
}
