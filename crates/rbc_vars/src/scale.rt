ghost use Rattle.std.specs.Prelude.{◌≡◌, ◌^◌, ◌<◌, IfSome};
ghost use Rattle.rbc_vars.specs.Values.{q_scale_of, q_scale_value};

/// Q_SCALE: the unit of the distances of a packet.
#[derive(Clone, Copy, Debug, PartialEq, Eq)]
pub enum QScale {
    /// 10 cm.
    Decimetre = 0,
    /// 1 m.
    Metre = 1,
    /// 10 m.
    Decametre = 2,
}

impl QScale {
    /// The variable of this value: 3 is spare, and no unit.
    #[tactic(auto, unfolding(crate::specs::Values::q_scale_of))]
    pub fn of(value: u64) -> Option<Self>
        ensures exact { result ≡ q_scale_of value }
        ensures value { IfSome result (λ v. q_scale_value v ≡ value) }
    {
        match value {
            0 => Some(QScale::Decimetre),
            1 => Some(QScale::Metre),
            2 => Some(QScale::Decametre),
            _ => None,
        }
    }

    /// Its value, of 2 bits.
    pub fn value(self) -> u64
        ensures value { result ≡ q_scale_value self }
        ensures range { result < 2 ^ 2 }
    {
        self as u64
    }
}
