//! Laws of fair schedules.

ghost use Rattle.std.specs.Prelude.{◌⊎◌, ℕ, List};
ghost use Rattle.rbc_spec.specs.Line.{Line, IsLine};
ghost use Rattle.rbc_spec.specs.World.{Event};
ghost use Rattle.law_invariants.specs.Ranges.Stays.{IsReadInRange};
ghost use Rattle.law_progress.specs.Fair.Schedule.{IsFair, EndsInDeliveries, BeginsWith, RestsFrom, StopsFrom};

/// Take an endless schedule that delivers the next frame of each link at some time if one is on the way. From some
/// position on all its events are deliveries, and each train message is in its ranges. Then it reaches rest: from some
/// position on nothing is on the way, each question has its answer, and no start waits. No event has messages, replies
/// or frames, or changes more than a clock. Or from some position on such a frame is refused at each delivery, at the
/// end of a step clock or for a full link.
pub fn each_fair_schedule_comes_to_rest()
    ensures { (line : Line) (schedule : ℕ → Event) → IsLine line → ((n : ℕ) → IsReadInRange (schedule n))
        → IsFair line schedule
        → EndsInDeliveries schedule → (n : ℕ) × (RestsFrom line schedule n ⊎ StopsFrom line schedule n) }
{}

/// There are such schedules: each list of events is the beginning of one.
pub fn each_list_begins_a_fair_schedule()
    ensures { (line : Line) (events : List Event) → IsLine line
        → (schedule : ℕ → Event) × BeginsWith events schedule × IsFair line schedule × EndsInDeliveries schedule }
{}
