ghost use Rattle.std.specs.Prelude.{ℕ, Bool, List, Option};
ghost use Rattle.rbc_spec.specs.Frame.{Frame};
ghost use Rattle.rbc_node.specs.Receipts.{ShareValue};
ghost use Rattle.serve_workers.specs.Carried.{TakesTurns, Delivers};

use crate::order::{InOrder, Order};

/// A worker that asks for frames in the order of their numbers, with the turns that `receive_frames` guarantees. It
/// commits the frames that its notes know in the order of their numbers, from the first number that was asked for. No
/// number between is left out, and nothing else is committed.
pub fn frames_are_committed_in_their_order()
    ensures { (known : ℕ → Option Frame) (c from : ℕ) (o p : InOrder) (old new : ShareValue)
        (turns : List (Option Bool))
        → TakesTurns ⟦<InOrder as Order>⟧.asks ⟦<InOrder as Order>⟧.follows known c from o p old new turns
        → (frames : List Frame) × Delivers known c from o.number old new frames }
{}
