ghost use Rattle.std.specs.Prelude.{◌≡◌, ◌^◌, ◌<◌, IfSome};
ghost use Rattle.rbc_vars.specs.Values.{q_status_of, q_status_value};

/// Q_STATUS: whether a train that starts its mission knows its position.
#[derive(Clone, Copy, Debug, PartialEq, Eq)]
pub enum QStatus {
    /// The position is not valid.
    Invalid = 0,
    /// The position is valid.
    Valid = 1,
    /// The position is not known.
    Unknown = 2,
}

impl QStatus {
    /// The variable of this value: 3 is spare.
    #[tactic(auto, unfolding(crate::specs::Values::q_status_of))]
    pub fn of(value: u64) -> Option<Self>
        ensures exact { result ≡ q_status_of value }
        ensures value { IfSome result (λ v. q_status_value v ≡ value) }
    {
        match value {
            0 => Some(QStatus::Invalid),
            1 => Some(QStatus::Valid),
            2 => Some(QStatus::Unknown),
            _ => None,
        }
    }

    /// Its value, of 2 bits.
    pub fn value(self) -> u64
        ensures value { result ≡ q_status_value self }
        ensures range { result < 2 ^ 2 }
    {
        self as u64
    }
}
