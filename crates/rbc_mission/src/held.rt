ghost use Rattle.std.specs.Prelude.{◌≡◌, if◌then◌else◌};

use rbc_right::Right;
use std::mem;

/// The right to supervise a train, if it is held. It can't be copied or dropped.
#[must_use]
#[derive(Debug)]
pub enum HeldRight {
    Nothing,
    Held(Right),
}

impl HeldRight {
    /// Ends it when its centre ends.
    pub fn end(self) {
        match self {
            HeldRight::Held(right) => {
                right.send();
            }
            HeldRight::Nothing => {}
        }
    }
}

/// Holds a right. One that was held ends.
pub(crate) fn hold(held: &mut HeldRight, right: Right)
    ensures { held.new ≡ HeldRight.Held right }
{
    let before = mem::replace(held, HeldRight::Held(right));
    before.end();
}

/// Hands out the held right, unless it stays.
pub(crate) fn let_go(held: &mut HeldRight, stays: bool) -> HeldRight
    ensures gone { result ≡ (if stays then HeldRight.Nothing else held.old) }
    ensures held { held.new ≡ (if stays then held.old else HeldRight.Nothing) }
{
    if stays {
        return HeldRight::Nothing;
    }
    mem::replace(held, HeldRight::Nothing)
}
