//! Variables of a train's time, of its state of running, and of its requests (SUBSET-026 7.5).

ghost use Rattle.std.specs.Prelude.{◌≡◌, ◌^◌, ◌<◌, Some, None, nat_lt, if◌then◌else◌};

use std::marker::Model;

/// T_TRAIN: a clock, in units of 10 ms on board; 4 294 967 295 is unknown.
#[derive(Clone, Copy, Debug, PartialEq, Eq)]
pub struct TTrain {
    value: u32,
}

impl Model for TTrain {
    ghost use Rattle.std.specs.Prelude.{ℕ, ◌^◌, ◌<◌};

    ghost Value = { ℕ };

    ghost view = { λ v. v.value };

    ghost invariant = { λ v. v.value < 2 ^ 32 };

    ghost inverse = { λ n. record { value = n } };
}

impl TTrain {
    /// The variable of this value, if 32 bits have room for it.
    pub fn of(value: u64) -> Option<Self>
        ensures { result ≡ (if nat_lt value (2 ^ 32) then Some value else None) }
    {
        if value < 1 << 32 {
            Some(TTrain::new(value))
        } else {
            None
        }
    }

    /// The variable of a value that has 32 bits.
    pub fn new(value: u64) -> Self
        requires { value < 2 ^ 32 }
        ensures { result ≡ value }
    {
        TTrain {
            value: value as u32,
        }
    }

    /// Its value.
    pub fn value(self) -> u64
        ensures value { result ≡ self }
        ensures range { result < 2 ^ 32 }
    {
        self.value.into()
    }
}

/// V_TRAIN: the speed of the train, in units of 5 km/h.
#[derive(Clone, Copy, Debug, PartialEq, Eq)]
pub struct VTrain {
    value: u8,
}

impl Model for VTrain {
    ghost use Rattle.std.specs.Prelude.{ℕ, ◌^◌, ◌<◌};

    ghost Value = { ℕ };

    ghost view = { λ v. v.value };

    ghost invariant = { λ v. v.value < 2 ^ 7 };

    ghost inverse = { λ n. record { value = n } };
}

impl VTrain {
    /// The variable of this value, if 7 bits have room for it.
    pub fn of(value: u64) -> Option<Self>
        ensures { result ≡ (if nat_lt value (2 ^ 7) then Some value else None) }
    {
        if value < 1 << 7 {
            Some(VTrain::new(value))
        } else {
            None
        }
    }

    /// The variable of a value that has 7 bits.
    pub fn new(value: u64) -> Self
        requires { value < 2 ^ 7 }
        ensures { result ≡ value }
    {
        VTrain { value: value as u8 }
    }

    /// Its value.
    pub fn value(self) -> u64
        ensures value { result ≡ self }
        ensures range { result < 2 ^ 7 }
    {
        self.value.into()
    }
}

/// M_MODE: the mode of the on-board equipment.
#[derive(Clone, Copy, Debug, PartialEq, Eq)]
pub struct MMode {
    value: u8,
}

impl Model for MMode {
    ghost use Rattle.std.specs.Prelude.{ℕ, ◌^◌, ◌<◌};

    ghost Value = { ℕ };

    ghost view = { λ v. v.value };

    ghost invariant = { λ v. v.value < 2 ^ 4 };

    ghost inverse = { λ n. record { value = n } };
}

impl MMode {
    /// The variable of this value, if 4 bits have room for it.
    pub fn of(value: u64) -> Option<Self>
        ensures { result ≡ (if nat_lt value (2 ^ 4) then Some value else None) }
    {
        if value < 1 << 4 {
            Some(MMode::new(value))
        } else {
            None
        }
    }

    /// The variable of a value that has 4 bits.
    pub fn new(value: u64) -> Self
        requires { value < 2 ^ 4 }
        ensures { result ≡ value }
    {
        MMode { value: value as u8 }
    }

    /// Its value.
    pub fn value(self) -> u64
        ensures value { result ≡ self }
        ensures range { result < 2 ^ 4 }
    {
        self.value.into()
    }
}

/// Q_MARQSTREASON: why a movement authority is asked for, a bit for each reason.
#[derive(Clone, Copy, Debug, PartialEq, Eq)]
pub struct QMarqstreason {
    value: u8,
}

impl Model for QMarqstreason {
    ghost use Rattle.std.specs.Prelude.{ℕ, ◌^◌, ◌<◌};

    ghost Value = { ℕ };

    ghost view = { λ v. v.value };

    ghost invariant = { λ v. v.value < 2 ^ 5 };

    ghost inverse = { λ n. record { value = n } };
}

impl QMarqstreason {
    /// The variable of this value, if 5 bits have room for it.
    pub fn of(value: u64) -> Option<Self>
        ensures { result ≡ (if nat_lt value (2 ^ 5) then Some value else None) }
    {
        if value < 1 << 5 {
            Some(QMarqstreason::new(value))
        } else {
            None
        }
    }

    /// The variable of a value that has 5 bits.
    pub fn new(value: u64) -> Self
        requires { value < 2 ^ 5 }
        ensures { result ≡ value }
    {
        QMarqstreason { value: value as u8 }
    }

    /// Its value.
    pub fn value(self) -> u64
        ensures value { result ≡ self }
        ensures range { result < 2 ^ 5 }
    {
        self.value.into()
    }
}
