//! The rule of a link's queue, and the steps that keep it. A frame is put or taken. A second pass is made, or two
//! passes become one. A pass learns that no two of its frames have one number.
ghost use Rattle.std.specs.Prelude.{◌≡◌, ◌∷◌};
ghost use Rattle.rbc_board.specs.InStep.{viewed, IsUnique};

use crate::view::View;
use crossbeam_queue::protocol::{Join, Lesson, Outcome, Protocol, Split};
use rbc_linkmsg::Frame;

/// One pass puts. All frames that are in the queue or are known were put, each number once. Those in the queue are in
/// the order of their numbers.
pub struct InStep;

impl Protocol<Frame, View> for InStep {
    ghost use Rattle.std.specs.Prelude.{true, []};
    ghost use Rattle.rbc_board.specs.InStep.{viewed, InStep as Rule};

    ghost holds = { Rule };

    ghost first = { viewed true 0 [] };
}

/// A second pass, which knows no frame.
pub(crate) struct Second;

impl Split<View> for Second {
    ghost use Rattle.std.specs.Prelude.{false, []};
    ghost use Rattle.rbc_board.specs.InStep.{viewed};

    ghost left = { λ v. v };

    ghost right = { λ v. viewed false 0 [] };
}

/// One pass that knows the frames of two.
pub(crate) struct Both;

impl Join<View> for Both {
    ghost use Rattle.std.specs.Prelude.{false, [], ◌++◌};
    ghost use Rattle.rbc_board.specs.InStep.{viewed};

    ghost both = { λ v w. viewed v.puts v.last (v.known ++ w.known) };

    ghost spent = { viewed false 0 [] };
}

/// A frame is put, and is known.
pub(crate) struct Puts;

impl Outcome<Frame, View> for Puts {
    ghost then = { λ v x w. w ≡ viewed v.puts x.number (x ∷ v.known) };
}

impl Lesson<Frame, View> for Puts {
    ghost fact = { λ v items. Unit {0} };
}

/// A frame is taken, and is known.
pub(crate) struct Takes;

impl Outcome<Frame, View> for Takes {
    ghost then = { λ v x w. w ≡ viewed v.puts v.last (x ∷ v.known) };
}

impl Lesson<Frame, View> for Takes {
    ghost fact = { λ v items. Unit {0} };
}

/// No two of the frames that are known have one number.
pub(crate) struct Agreed;

impl Lesson<Frame, View> for Agreed {
    ghost fact = { λ v items. IsUnique v.known };
}
