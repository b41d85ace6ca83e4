//! The head of a message: NID_MESSAGE and L_MESSAGE.

ghost use Rattle.std.specs.Prelude.{◌≡◌, ◌*◌, ◌+◌, ◌/◌};

/// The number of bytes with NID_MESSAGE and L_MESSAGE.
pub(crate) const HEAD: usize = 3;

/// L_MESSAGE: the ten bits after NID_MESSAGE.
pub(crate) fn length_of(second: u8, third: u8) -> usize
    ensures { result ≡ second * 4 + third / 64 }
{
    usize::from(second) * 4 + usize::from(third) / 64
}
