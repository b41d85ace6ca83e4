ghost use Rattle.std.specs.Prelude.{◌≡◌, ◌^◌, ◌<◌, IfSome};
ghost use Rattle.rbc_vars.specs.Values.{q_length_of, q_length_value};

/// Q_LENGTH: whether train integrity is confirmed, and by which source.
#[derive(Clone, Copy, Debug, PartialEq, Eq)]
pub enum QLength {
    /// Nothing.
    NoInformation = 0,
    /// Confirmed by a monitoring device.
    ConfirmedByDevice = 1,
    /// Confirmed by the driver.
    ConfirmedByDriver = 2,
    /// The train may have been parted.
    Lost = 3,
}

impl QLength {
    /// The variable of this value.
    #[tactic(auto, unfolding(crate::specs::Values::q_length_of))]
    pub fn of(value: u64) -> Option<Self>
        ensures exact { result ≡ q_length_of value }
        ensures value { IfSome result (λ v. q_length_value v ≡ value) }
    {
        match value {
            0 => Some(QLength::NoInformation),
            1 => Some(QLength::ConfirmedByDevice),
            2 => Some(QLength::ConfirmedByDriver),
            3 => Some(QLength::Lost),
            _ => None,
        }
    }

    /// Its value, of 2 bits.
    pub fn value(self) -> u64
        ensures value { result ≡ q_length_value self }
        ensures range { result < 2 ^ 2 }
    {
        self as u64
    }
}
