ghost use Rattle.std.specs.Prelude.{◌≡◌};

use std::alloc::AllocError;

/// Why a line file is refused. Of those from `Shape` on that apply to a file, the lowest is named.
#[derive(Clone, Copy, PartialEq, Eq, Debug)]
pub enum LineFault {
    /// 1: an allocation was refused.
    Memory,
    /// 2: the text is not TOML.
    Text,
    /// 3: a key is missing, unknown, or of another type.
    Shape,
    /// 4: not 2 to 8 centres.
    Centres,
    /// 5: not 1 to 4 tracks.
    Tracks,
    /// 6: a track without a section, or more than 512 sections in all.
    Sections,
    /// 7: not 1 to 64 trains.
    Trains,
    /// 8: a length that is not 100 to 2 000 metres.
    Length,
    /// 9: a number out of its range, or a centre's or track's name that is not 1 to 16 ASCII letters or digits.
    Number,
    /// 10: a centre's name, a track's name, an NID_RBC, a balise group or an engine occurs twice.
    Twice,
    /// 11: a home or a registrar that names no centre.
    Home,
    /// 12: the sections of one home on one track are not consecutive.
    Order,
}

impl LineFault {
    ghost use Rattle.rbc_line.specs.Faults.{number_of};

    /// The fault's number, 1 to 12.
    pub fn number(self) -> u8
        ensures { result ≡ number_of self }
    {
        match self {
            LineFault::Memory => 1,
            LineFault::Text => 2,
            LineFault::Shape => 3,
            LineFault::Centres => 4,
            LineFault::Tracks => 5,
            LineFault::Sections => 6,
            LineFault::Trains => 7,
            LineFault::Length => 8,
            LineFault::Number => 9,
            LineFault::Twice => 10,
            LineFault::Home => 11,
            LineFault::Order => 12,
        }
    }
}

impl From<AllocError> for LineFault {
    ghost use Rattle.std.specs.Prelude.{◌≡◌};
    ghost use Rattle.rbc_line.specs.declared.fault.LineFault.TheVariants.{Memory};

    ghost from_gives = { λ _ fault. fault ≡ Memory };

    fn from(_: AllocError) -> LineFault {
        LineFault::Memory
    }
}
