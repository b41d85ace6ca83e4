//! Distances that a centre gives (SUBSET-026 7.5).

ghost use Rattle.std.specs.Prelude.{◌≡◌, ◌^◌, ◌<◌, Some, None, nat_lt, if◌then◌else◌};

use std::marker::Model;

/// L_ENDSECTION: from the balise group of the message to the end of the authority, in metres (profile).
#[derive(Clone, Copy, Debug, PartialEq, Eq)]
pub struct LEndsection {
    value: u16,
}

impl Model for LEndsection {
    ghost use Rattle.std.specs.Prelude.{ℕ, ◌^◌, ◌<◌};

    ghost Value = { ℕ };

    ghost view = { λ v. v.value };

    ghost invariant = { λ v. v.value < 2 ^ 15 };

    ghost inverse = { λ n. record { value = n } };
}

impl LEndsection {
    /// The variable of this value, if 15 bits have room for it.
    pub fn of(value: u64) -> Option<Self>
        ensures { result ≡ (if nat_lt value (2 ^ 15) then Some value else None) }
    {
        if value < 1 << 15 {
            Some(LEndsection::new(value))
        } else {
            None
        }
    }

    /// The variable of a value that has 15 bits.
    pub fn new(value: u64) -> Self
        requires { value < 2 ^ 15 }
        ensures { result ≡ value }
    {
        LEndsection {
            value: value as u16,
        }
    }

    /// Its value.
    pub fn value(self) -> u64
        ensures value { result ≡ self }
        ensures range { result < 2 ^ 15 }
    {
        self.value.into()
    }
}

/// D_RBCTR: from the balise group of the message to the border, in metres (profile).
#[derive(Clone, Copy, Debug, PartialEq, Eq)]
pub struct DRbctr {
    value: u16,
}

impl Model for DRbctr {
    ghost use Rattle.std.specs.Prelude.{ℕ, ◌^◌, ◌<◌};

    ghost Value = { ℕ };

    ghost view = { λ v. v.value };

    ghost invariant = { λ v. v.value < 2 ^ 15 };

    ghost inverse = { λ n. record { value = n } };
}

impl DRbctr {
    /// The variable of this value, if 15 bits have room for it.
    pub fn of(value: u64) -> Option<Self>
        ensures { result ≡ (if nat_lt value (2 ^ 15) then Some value else None) }
    {
        if value < 1 << 15 {
            Some(DRbctr::new(value))
        } else {
            None
        }
    }

    /// The variable of a value that has 15 bits.
    pub fn new(value: u64) -> Self
        requires { value < 2 ^ 15 }
        ensures { result ≡ value }
    {
        DRbctr {
            value: value as u16,
        }
    }

    /// Its value.
    pub fn value(self) -> u64
        ensures value { result ≡ self }
        ensures range { result < 2 ^ 15 }
    {
        self.value.into()
    }
}
