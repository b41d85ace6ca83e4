//! Distances that a train reports (SUBSET-026 7.5).

ghost use Rattle.std.specs.Prelude.{◌≡◌, ◌^◌, ◌<◌, Some, None, nat_lt, if◌then◌else◌};

use std::marker::Model;

/// D_LRBG: from the balise group to the estimated front end, in the unit of Q_SCALE; 32 767 is unknown.
#[derive(Clone, Copy, Debug, PartialEq, Eq)]
pub struct DLrbg {
    value: u16,
}

impl Model for DLrbg {
    ghost use Rattle.std.specs.Prelude.{ℕ, ◌^◌, ◌<◌};

    ghost Value = { ℕ };

    ghost view = { λ v. v.value };

    ghost invariant = { λ v. v.value < 2 ^ 15 };

    ghost inverse = { λ n. record { value = n } };
}

impl DLrbg {
    /// The variable of this value, if 15 bits have room for it.
    pub fn of(value: u64) -> Option<Self>
        ensures { result ≡ (if nat_lt value (2 ^ 15) then Some value else None) }
    {
        if value < 1 << 15 {
            Some(DLrbg::new(value))
        } else {
            None
        }
    }

    /// The variable of a value that has 15 bits.
    pub fn new(value: u64) -> Self
        requires { value < 2 ^ 15 }
        ensures { result ≡ value }
    {
        DLrbg {
            value: value as u16,
        }
    }

    /// Its value.
    pub fn value(self) -> u64
        ensures value { result ≡ self }
        ensures range { result < 2 ^ 15 }
    {
        self.value.into()
    }
}

/// L_DOUBTOVER: how far the train may be in rear of its estimated position, in the unit of Q_SCALE; 32 767 is unknown.
#[derive(Clone, Copy, Debug, PartialEq, Eq)]
pub struct LDoubtover {
    value: u16,
}

impl Model for LDoubtover {
    ghost use Rattle.std.specs.Prelude.{ℕ, ◌^◌, ◌<◌};

    ghost Value = { ℕ };

    ghost view = { λ v. v.value };

    ghost invariant = { λ v. v.value < 2 ^ 15 };

    ghost inverse = { λ n. record { value = n } };
}

impl LDoubtover {
    /// The variable of this value, if 15 bits have room for it.
    pub fn of(value: u64) -> Option<Self>
        ensures { result ≡ (if nat_lt value (2 ^ 15) then Some value else None) }
    {
        if value < 1 << 15 {
            Some(LDoubtover::new(value))
        } else {
            None
        }
    }

    /// The variable of a value that has 15 bits.
    pub fn new(value: u64) -> Self
        requires { value < 2 ^ 15 }
        ensures { result ≡ value }
    {
        LDoubtover {
            value: value as u16,
        }
    }

    /// Its value.
    pub fn value(self) -> u64
        ensures value { result ≡ self }
        ensures range { result < 2 ^ 15 }
    {
        self.value.into()
    }
}

/// L_DOUBTUNDER: how far the train may be ahead of its estimated position, in the unit of Q_SCALE; 32 767 is unknown.
#[derive(Clone, Copy, Debug, PartialEq, Eq)]
pub struct LDoubtunder {
    value: u16,
}

impl Model for LDoubtunder {
    ghost use Rattle.std.specs.Prelude.{ℕ, ◌^◌, ◌<◌};

    ghost Value = { ℕ };

    ghost view = { λ v. v.value };

    ghost invariant = { λ v. v.value < 2 ^ 15 };

    ghost inverse = { λ n. record { value = n } };
}

impl LDoubtunder {
    /// The variable of this value, if 15 bits have room for it.
    pub fn of(value: u64) -> Option<Self>
        ensures { result ≡ (if nat_lt value (2 ^ 15) then Some value else None) }
    {
        if value < 1 << 15 {
            Some(LDoubtunder::new(value))
        } else {
            None
        }
    }

    /// The variable of a value that has 15 bits.
    pub fn new(value: u64) -> Self
        requires { value < 2 ^ 15 }
        ensures { result ≡ value }
    {
        LDoubtunder {
            value: value as u16,
        }
    }

    /// Its value.
    pub fn value(self) -> u64
        ensures value { result ≡ self }
        ensures range { result < 2 ^ 15 }
    {
        self.value.into()
    }
}

/// L_TRAININT: the length of a train with confirmed integrity, in metres for every Q_SCALE (profile).
#[derive(Clone, Copy, Debug, PartialEq, Eq)]
pub struct LTrainint {
    value: u16,
}

impl Model for LTrainint {
    ghost use Rattle.std.specs.Prelude.{ℕ, ◌^◌, ◌<◌};

    ghost Value = { ℕ };

    ghost view = { λ v. v.value };

    ghost invariant = { λ v. v.value < 2 ^ 15 };

    ghost inverse = { λ n. record { value = n } };
}

impl LTrainint {
    /// The variable of this value, if 15 bits have room for it.
    pub fn of(value: u64) -> Option<Self>
        ensures { result ≡ (if nat_lt value (2 ^ 15) then Some value else None) }
    {
        if value < 1 << 15 {
            Some(LTrainint::new(value))
        } else {
            None
        }
    }

    /// The variable of a value that has 15 bits.
    pub fn new(value: u64) -> Self
        requires { value < 2 ^ 15 }
        ensures { result ≡ value }
    {
        LTrainint {
            value: value as u16,
        }
    }

    /// Its value.
    pub fn value(self) -> u64
        ensures value { result ≡ self }
        ensures range { result < 2 ^ 15 }
    {
        self.value.into()
    }
}
