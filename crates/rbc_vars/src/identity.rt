//! Variables that identify something or somebody (SUBSET-026 7.5).

ghost use Rattle.std.specs.Prelude.{◌≡◌, ◌^◌, ◌<◌, Some, None, nat_lt, if◌then◌else◌};

use std::marker::Model;

/// NID_ENGINE: the on-board equipment, which identifies the train.
#[derive(Clone, Copy, Debug, PartialEq, Eq)]
pub struct NidEngine {
    value: u32,
}

impl Model for NidEngine {
    ghost use Rattle.std.specs.Prelude.{ℕ, ◌^◌, ◌<◌};

    ghost Value = { ℕ };

    ghost view = { λ v. v.value };

    ghost invariant = { λ v. v.value < 2 ^ 24 };

    ghost inverse = { λ n. record { value = n } };
}

impl NidEngine {
    /// The variable of this value, if 24 bits have room for it.
    pub fn of(value: u64) -> Option<Self>
        ensures { result ≡ (if nat_lt value (2 ^ 24) then Some value else None) }
    {
        if value < 1 << 24 {
            Some(NidEngine::new(value))
        } else {
            None
        }
    }

    /// The variable of a value that has 24 bits.
    pub fn new(value: u64) -> Self
        requires { value < 2 ^ 24 }
        ensures { result ≡ value }
    {
        NidEngine {
            value: value as u32,
        }
    }

    /// Its value.
    pub fn value(self) -> u64
        ensures value { result ≡ self }
        ensures range { result < 2 ^ 24 }
    {
        self.value.into()
    }
}

/// NID_LRBG: the last relevant balise group, NID_C and NID_BG together; 16 777 215 is unknown.
#[derive(Clone, Copy, Debug, PartialEq, Eq)]
pub struct NidLrbg {
    value: u32,
}

impl Model for NidLrbg {
    ghost use Rattle.std.specs.Prelude.{ℕ, ◌^◌, ◌<◌};

    ghost Value = { ℕ };

    ghost view = { λ v. v.value };

    ghost invariant = { λ v. v.value < 2 ^ 24 };

    ghost inverse = { λ n. record { value = n } };
}

impl NidLrbg {
    /// The variable of this value, if 24 bits have room for it.
    pub fn of(value: u64) -> Option<Self>
        ensures { result ≡ (if nat_lt value (2 ^ 24) then Some value else None) }
    {
        if value < 1 << 24 {
            Some(NidLrbg::new(value))
        } else {
            None
        }
    }

    /// The variable of a value that has 24 bits.
    pub fn new(value: u64) -> Self
        requires { value < 2 ^ 24 }
        ensures { result ≡ value }
    {
        NidLrbg {
            value: value as u32,
        }
    }

    /// Its value.
    pub fn value(self) -> u64
        ensures value { result ≡ self }
        ensures range { result < 2 ^ 24 }
    {
        self.value.into()
    }
}

/// NID_C: the country or region.
#[derive(Clone, Copy, Debug, PartialEq, Eq)]
pub struct NidC {
    value: u16,
}

impl Model for NidC {
    ghost use Rattle.std.specs.Prelude.{ℕ, ◌^◌, ◌<◌};

    ghost Value = { ℕ };

    ghost view = { λ v. v.value };

    ghost invariant = { λ v. v.value < 2 ^ 10 };

    ghost inverse = { λ n. record { value = n } };
}

impl NidC {
    /// The variable of this value, if 10 bits have room for it.
    pub fn of(value: u64) -> Option<Self>
        ensures { result ≡ (if nat_lt value (2 ^ 10) then Some value else None) }
    {
        if value < 1 << 10 {
            Some(NidC::new(value))
        } else {
            None
        }
    }

    /// The variable of a value that has 10 bits.
    pub fn new(value: u64) -> Self
        requires { value < 2 ^ 10 }
        ensures { result ≡ value }
    {
        NidC {
            value: value as u16,
        }
    }

    /// Its value.
    pub fn value(self) -> u64
        ensures value { result ≡ self }
        ensures range { result < 2 ^ 10 }
    {
        self.value.into()
    }
}

/// NID_RBC: the radio block centre, within its NID_C.
#[derive(Clone, Copy, Debug, PartialEq, Eq)]
pub struct NidRbc {
    value: u16,
}

impl Model for NidRbc {
    ghost use Rattle.std.specs.Prelude.{ℕ, ◌^◌, ◌<◌};

    ghost Value = { ℕ };

    ghost view = { λ v. v.value };

    ghost invariant = { λ v. v.value < 2 ^ 14 };

    ghost inverse = { λ n. record { value = n } };
}

impl NidRbc {
    /// The variable of this value, if 14 bits have room for it.
    pub fn of(value: u64) -> Option<Self>
        ensures { result ≡ (if nat_lt value (2 ^ 14) then Some value else None) }
    {
        if value < 1 << 14 {
            Some(NidRbc::new(value))
        } else {
            None
        }
    }

    /// The variable of a value that has 14 bits.
    pub fn new(value: u64) -> Self
        requires { value < 2 ^ 14 }
        ensures { result ≡ value }
    {
        NidRbc {
            value: value as u16,
        }
    }

    /// Its value.
    pub fn value(self) -> u64
        ensures value { result ≡ self }
        ensures range { result < 2 ^ 14 }
    {
        self.value.into()
    }
}

/// NID_NTC: the national train control system under which the train runs.
#[derive(Clone, Copy, Debug, PartialEq, Eq)]
pub struct NidNtc {
    value: u8,
}

impl Model for NidNtc {
    ghost use Rattle.std.specs.Prelude.{ℕ, ◌^◌, ◌<◌};

    ghost Value = { ℕ };

    ghost view = { λ v. v.value };

    ghost invariant = { λ v. v.value < 2 ^ 8 };

    ghost inverse = { λ n. record { value = n } };
}

impl NidNtc {
    /// The variable of this value, if 8 bits have room for it.
    pub fn of(value: u64) -> Option<Self>
        ensures { result ≡ (if nat_lt value (2 ^ 8) then Some value else None) }
    {
        if value < 1 << 8 {
            Some(NidNtc::new(value))
        } else {
            None
        }
    }

    /// The variable of a value that has 8 bits.
    pub fn new(value: u64) -> Self
        requires { value < 2 ^ 8 }
        ensures { result ≡ value }
    {
        NidNtc { value: value as u8 }
    }

    /// Its value.
    pub fn value(self) -> u64
        ensures value { result ≡ self }
        ensures range { result < 2 ^ 8 }
    {
        self.value.into()
    }
}
