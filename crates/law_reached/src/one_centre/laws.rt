//! Laws of a one-centre line.

ghost use Rattle.std.specs.Prelude.{◌≡◌, ℕ, List, Ok};
ghost use Rattle.rbc_spec.specs.Line.{Line, IsLine};
ghost use Rattle.rbc_spec.specs.LineCentre.{line_beginning};
ghost use Rattle.rbc_spec.specs.World.{World, Event, Answer, new_world, world_step, world_run};
ghost use Rattle.rbc_spec.specs.ReadOff.{read_off};
ghost use Rattle.rbc_spec.specs.Theorems.{IsOneCentreLine, GoesForced, ForcedRun, OneCentreTheorem};
ghost use Rattle.law_base.specs.Local.Local.{IsLocal};
ghost use Rattle.law_refinement.specs.Meets.{Meets};

/// On such a line, let no other centre have a part in the world, and let the state that is read off show it. Then the
/// one line centre meets each event with the same answer and without a choice. It ends in the state that is read off
/// the new world.
pub fn each_event_leaves_no_choice()
    ensures { (line : Line) (c : ℕ) (w new : World) (event : Event) (answer : Answer) → IsLine line
        → IsOneCentreLine line c → Meets line w (read_off line w) → IsLocal line w
        → world_step line w event ≡ Ok (answer, new)
        → GoesForced line (read_off line w) event answer (read_off line new) }
{}

/// The answers of the centres of such a line, from its initial state, lead the one line centre to the state that is
/// read off. They leave it no choice.
pub fn each_run_leaves_no_choice()
    ensures { (line : Line) (c : ℕ) (events : List Event) (answers : List Answer) (w : World) → IsLine line
        → IsOneCentreLine line c → world_run line (new_world line) events ≡ Ok (answers, w)
        → ForcedRun line line_beginning events answers (read_off line w) }
{}

/// The answers and states of the centres of such a line are a run of the one line centre without a choice.
pub fn the_one_centre_theorem()
    ensures { OneCentreTheorem }
{}
