ghost use Rattle.std.specs.Prelude.{◌≡◌, ◌^◌, ◌<◌, IfSome};
ghost use Rattle.rbc_vars.specs.Values.{m_level_of, m_level_value};

/// M_LEVEL: the level under which the train runs.
#[derive(Clone, Copy, Debug, PartialEq, Eq)]
pub enum MLevel {
    /// Level 0.
    Level0 = 0,
    /// Level NTC, a national train control system.
    Ntc = 1,
    /// Level 1.
    Level1 = 2,
    /// Level 2.
    Level2 = 3,
    /// Level 3.
    Level3 = 4,
    /// A value without a meaning.
    Spare5 = 5,
    /// A value without a meaning.
    Spare6 = 6,
    /// A value without a meaning.
    Spare7 = 7,
}

impl MLevel {
    /// The variable of this value.
    #[tactic(auto, unfolding(crate::specs::Values::m_level_of))]
    pub fn of(value: u64) -> Option<Self>
        ensures exact { result ≡ m_level_of value }
        ensures value { IfSome result (λ v. m_level_value v ≡ value) }
    {
        match value {
            0 => Some(MLevel::Level0),
            1 => Some(MLevel::Ntc),
            2 => Some(MLevel::Level1),
            3 => Some(MLevel::Level2),
            4 => Some(MLevel::Level3),
            5 => Some(MLevel::Spare5),
            6 => Some(MLevel::Spare6),
            7 => Some(MLevel::Spare7),
            _ => None,
        }
    }

    /// Its value, of 3 bits.
    pub fn value(self) -> u64
        ensures value { result ≡ m_level_value self }
        ensures range { result < 2 ^ 3 }
    {
        self as u64
    }
}
