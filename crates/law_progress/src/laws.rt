//! The law of the ends of handovers.

ghost use Rattle.std.specs.Prelude.{◌≡◌, List, All, Ok};
ghost use Rattle.rbc_spec.specs.Line.{Line, IsLine};
ghost use Rattle.rbc_spec.specs.World.{World, Event, Answer, new_world, world_run};
ghost use Rattle.law_invariants.specs.Ranges.Stays.{IsReadInRange};
ghost use Rattle.law_progress.specs.Ends.{GoesOn};

/// Take any world after a list of events, with each train message in its ranges. Finitely many deliveries and messages
/// of trains lead to rest without a handover: none is announced, expected or taken. The messages begin a session or
/// report a place. Or a step on the way is refused, at the end of a step clock or for a full link. Or a train with a
/// pending handover has no T_TRAIN left for its report.
pub fn each_handover_can_end()
    ensures { (line : Line) (events : List Event) (answers : List Answer) (w : World) → IsLine line
        → All IsReadInRange events
        → world_run line (new_world line) events ≡ Ok (answers, w) → GoesOn line w }
{}
