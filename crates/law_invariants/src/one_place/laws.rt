//! Laws of places.

ghost use Rattle.std.specs.Prelude.{◌≡◌, ℕ, List, true, Ok};
ghost use Rattle.rbc_spec.specs.Line.{Line, IsLine, is_home};
ghost use Rattle.rbc_spec.specs.World.{World, Event, Answer, new_world, world_run};
ghost use Rattle.rbc_spec.specs.Promises.{HasOnePlace};
ghost use Rattle.law_invariants.specs.OnePlace.Where.{IsWhereHomeHasIt};

/// After any list of events each section in use is in one hand, pool, waiting start or frame. It is there for the train
/// that its home names. Each right is at one centre, in one mission or in one frame. A train has at most one mission.
pub fn each_thing_is_in_one_place()
    ensures { (line : Line) (events : List Event) (answers : List Answer) (w : World) → IsLine line
        → world_run line (new_world line) events ≡ Ok (answers, w) → HasOnePlace line w }
{}

/// That one place follows from the home's entry. A taken section is at its home. A section that is out is at one other
/// centre, or on the way. On the way it is lent by its home, returned to it, or handed over with its train.
pub fn each_section_is_where_its_home_has_it()
    ensures { (line : Line) (events : List Event) (answers : List Answer) (w : World) (c s : ℕ) → IsLine line
        → world_run line (new_world line) events ≡ Ok (answers, w) → is_home line c s ≡ true
        → IsWhereHomeHasIt line w c s }
{}
