ghost use Rattle.std.specs.Prelude.{◌≡◌, false, Some, None, if◌then◌else◌};

use rbc_place::Place;
use rbc_shorten::Proposal;

/// The facts of a mission beside its hand.
#[derive(Clone, Copy, Debug, PartialEq, Eq)]
pub struct MissionFacts {
    /// The last reported place of the train.
    pub place: Place,
    /// Its train data are known.
    pub has_data: bool,
    /// The train has ended it.
    pub is_ended: bool,
    /// The pending request to shorten the movement authority (3.8.6).
    pub proposal: Option<Proposal>,
}

impl MissionFacts {
    /// A mission that begins.
    pub fn at(place: Place) -> MissionFacts
        ensures { result ≡ record { place = place; has_data = false; is_ended = false; proposal = None } }
    {
        MissionFacts {
            place,
            has_data: false,
            is_ended: false,
            proposal: None,
        }
    }

    /// The facts, if the mission stays.
    pub(crate) fn stay(self, is_left: bool) -> Option<MissionFacts>
        ensures { result ≡ (if is_left then Some self else None) }
    {
        if is_left { Some(self) } else { None }
    }
}

/// Closes the mission if it has no section left.
#[inline(always)]
pub(crate) fn close_unless(mission: &mut Option<MissionFacts>, is_left: bool)
    ensures { mission.new ≡ (if is_left then mission.old else None) }
{
    if !is_left {
        *mission = None;
    }
}
