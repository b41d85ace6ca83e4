//! Laws of the facts that are known of a world, and of its view.

ghost use Rattle.std.specs.Prelude.{◌≡◌, ℕ, List, Some, Ok};
ghost use Rattle.rbc_spec.specs.Line.{Line, IsLine};
ghost use Rattle.rbc_spec.specs.LineCentre.{line_beginning};
ghost use Rattle.rbc_spec.specs.Frame.{Frame};
ghost use Rattle.rbc_spec.specs.World.{World, Event, Answer, new_world, frame_sent, world_step, world_run};
ghost use Rattle.rbc_spec.specs.Run.{Goes};
ghost use Rattle.rbc_spec.specs.ReadOff.{StandsFor, read_off};
ghost use Rattle.rbc_spec.specs.Promises.{KeepsPromises, IsSound};
ghost use Rattle.rbc_spec.specs.Theorems.{IsOneCentreLine, GoesForced, ForcedRun, IsOneCentreRun};
ghost use Rattle.law_base.specs.Local.Local.{IsLocal};
ghost use Rattle.law_reached.specs.Known.{IsKnown};
ghost use Rattle.law_reached.specs.Seen.{AreMissionsSeen, AreSectionsSeen};

/// The facts that are known of each world after a list of events have at most one proof, and suffice. The state that is
/// read off represents the world, which is sound, and each frame has the number under which it was sent.
pub fn what_is_known_of_a_world()
    ensures reached { (line : Line) (events : List Event) (answers : List Answer) (w : World) → IsLine line
        → world_run line (new_world line) events ≡ Ok (answers, w) → IsKnown line w }
    ensures one_proof { (line : Line) (w : World) (p q : IsKnown line w) → p ≡ q }
    ensures stands { (line : Line) (w : World) → IsKnown line w → StandsFor line w (read_off line w) }
    ensures sound { (line : Line) (w : World) → IsLine line → IsKnown line w → IsSound line w }
    ensures number { (line : Line) (w : World) (a b number : ℕ) (f : Frame) → IsKnown line w
        → frame_sent w a b number ≡ Some f
        → f.number ≡ number }
{}

/// From such a world the one line centre may give the same answer to each further event, between the states that are
/// read off. The event keeps its promises.
pub fn each_further_event()
    ensures goes { (line : Line) (w new : World) (event : Event) (answer : Answer) → IsLine line → IsKnown line w
        → world_step line w event ≡ Ok (answer, new) → Goes line (read_off line w) event answer (read_off line new) }
    ensures promises { (line : Line) (w new : World) (event : Event) (answer : Answer) → IsLine line → IsKnown line w
        → world_step line w event ≡ Ok (answer, new) → KeepsPromises line w event answer new }
{}

/// In such a world each train's mission is found at a centre or, if none of them has it, in a Yield on the way.
pub fn who_has_a_mission()
    ensures { (line : Line) (w : World) → IsKnown line w → AreMissionsSeen line w }
{}

/// There each section's mark is found at its home, and in the hand of the mission of the train that it is in use for.
pub fn what_a_section_is_marked()
    ensures { (line : Line) (w : World) → IsKnown line w → AreSectionsSeen line w }
{}

/// On a one-centre line no other centre has a part in any world after a list of events. This fact has at most one
/// proof. So each further event leaves no choice, and so does each run.
pub fn each_event_is_forced()
    ensures local { (line : Line) (c : ℕ) (events : List Event) (answers : List Answer) (w : World) → IsLine line
        → IsOneCentreLine line c
        → world_run line (new_world line) events ≡ Ok (answers, w) → IsLocal line w }
    ensures one_proof { (line : Line) (w : World) (p q : IsLocal line w) → p ≡ q }
    ensures forced { (line : Line) (c : ℕ) (w new : World) (event : Event) (answer : Answer) → IsLine line
        → IsOneCentreLine line c → IsKnown line w → IsLocal line w
        → world_step line w event ≡ Ok (answer, new)
        → GoesForced line (read_off line w) event answer (read_off line new) }
    ensures forced_after { (line : Line) (c : ℕ) (events : List Event) (answers : List Answer) (w new : World)
        (event : Event) (answer : Answer)
        → IsLine line → IsOneCentreLine line c → world_run line (new_world line) events ≡ Ok (answers, w)
        → world_step line w event ≡ Ok (answer, new)
        → GoesForced line (read_off line w) event answer (read_off line new) }
    ensures run { (line : Line) (c : ℕ) (events : List Event) (answers : List Answer) (w : World) → IsLine line
        → IsOneCentreLine line c
        → world_run line (new_world line) events ≡ Ok (answers, w) → IsOneCentreRun line events answers w }
    // It ends in the state that is read off the centres.
    ensures last { (line : Line) (c : ℕ) (events : List Event) (answers : List Answer) (w : World) → IsLine line
        → IsOneCentreLine line c
        → world_run line (new_world line) events ≡ Ok (answers, w)
        → ForcedRun line line_beginning events answers (read_off line w) }
{}
