//! Laws of requests, for the initial state of a line and for each step of a world.

ghost use Rattle.std.specs.Prelude.{◌≡◌, Ok};
ghost use Rattle.rbc_spec.specs.Line.{Line, IsLine};
ghost use Rattle.rbc_spec.specs.World.{World, Event, Answer, new_world, world_step};
ghost use Rattle.law_invariants.specs.Flow.Flow.{flow_of};
ghost use Rattle.law_invariants.specs.Handover.Worlds.{IsWorldSound};
ghost use Rattle.law_invariants.specs.NoUnasked.Asked.{IsAsked};

/// At a line's beginning nothing was asked for, nothing is on the way, and no section is out.
pub fn a_line_begins_asked()
    ensures { (line : Line) → IsAsked line (flow_of (new_world line)) }
{}

/// Each event of a sound world keeps requests proper. An answer is on the way only if its question is pending. A right
/// returns only to its registrar, and a section only to its home.
pub fn each_step_keeps_all_asked()
    ensures { (line : Line) (w : World) (event : Event) (answer : Answer) (new : World) → IsLine line
        → IsWorldSound line w
        → IsAsked line (flow_of w) → world_step line w event ≡ Ok (answer, new) → IsAsked line (flow_of new) }
{}
