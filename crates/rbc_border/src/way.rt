use rbc_line::SectionRun;

/// The way of a mission: its track, and the sections of its movement authority.
#[derive(Clone, Copy, Debug, PartialEq, Eq)]
pub struct Way {
    /// Number of the track in the line file, from 0.
    pub track: u8,
    /// The sections of the train's hand.
    pub hand: SectionRun,
}
