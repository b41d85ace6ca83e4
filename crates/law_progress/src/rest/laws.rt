//! Laws of the frames on the way.

ghost use Rattle.std.specs.Prelude.{◌≡◌, ℕ, ◌+◌, ◌≤◌, List, All, Some, Ok};
ghost use Rattle.rbc_spec.specs.Line.{Line, IsLine};
ghost use Rattle.rbc_spec.specs.Frame.{Frame};
ghost use Rattle.rbc_spec.specs.Outcome.{Next};
ghost use Rattle.rbc_spec.specs.Step.{link_answer};
ghost use Rattle.rbc_spec.specs.World.{World, Event, Answer, Delivery, new_world, frame_sent, world_step, world_run};
ghost use Rattle.law_invariants.specs.Ranges.Stays.{IsReadInRange};
ghost use Rattle.law_progress.specs.Rest.Rest.{work, ComesToRest};

/// After any list of events, the delivery of a frame that is the next of its link leaves less work on the way.
pub fn a_delivery_is_work_done()
    ensures { (line : Line) (events : List Event) (answers : List Answer) (w new : World) (answer : Answer)
        (a b number : ℕ) (f : Frame) → IsLine line
        → world_run line (new_world line) events ≡ Ok (answers, w) → frame_sent w a b number ≡ Some f
        → link_answer line b (w.at b) a f ≡ Next
        → world_step line w (Delivery a b number) ≡ Ok (answer, new) → work line new + 1 ≤ work line w }
{}

/// Take any world after a list of events, with each train message in its ranges. At most as many deliveries as the work
/// on the way lead to rest. Nothing is on the way then, each question has its answer, and no start waits. Or a delivery
/// is refused, at the end of a step clock or for a full link.
pub fn each_line_comes_to_rest()
    ensures { (line : Line) (events : List Event) (answers : List Answer) (w : World) → IsLine line
        → All IsReadInRange events
        → world_run line (new_world line) events ≡ Ok (answers, w) → ComesToRest line w }
{}
