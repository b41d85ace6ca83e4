ghost use Rattle.std.specs.Prelude.{◌≡◌, ◌^◌, ◌<◌, IfSome};
ghost use Rattle.rbc_vars.specs.Values.{direction_of, direction_value};

/// Q_DIRLRBG, Q_DLRBG and Q_DIRTRAIN, which have the same values. They are the orientation of the train, the side of
/// the balise group on which its front is, and the direction in which it moves.
#[derive(Clone, Copy, Debug, PartialEq, Eq)]
pub enum Direction {
    /// Against the direction of the balise group.
    Reverse = 0,
    /// In the direction of the balise group.
    Nominal = 1,
    /// Not known.
    Unknown = 2,
    /// A value without a meaning.
    Spare = 3,
}

impl Direction {
    /// The variable of this value.
    #[tactic(auto, unfolding(crate::specs::Values::direction_of))]
    pub fn of(value: u64) -> Option<Self>
        ensures exact { result ≡ direction_of value }
        ensures value { IfSome result (λ v. direction_value v ≡ value) }
    {
        match value {
            0 => Some(Direction::Reverse),
            1 => Some(Direction::Nominal),
            2 => Some(Direction::Unknown),
            3 => Some(Direction::Spare),
            _ => None,
        }
    }

    /// Its value, of 2 bits.
    pub fn value(self) -> u64
        ensures value { result ≡ direction_value self }
        ensures range { result < 2 ^ 2 }
    {
        self as u64
    }
}
