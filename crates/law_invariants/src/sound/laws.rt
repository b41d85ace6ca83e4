//! Laws of a sound centre.

ghost use Rattle.std.specs.Prelude.{◌≡◌, ℕ, List, Ok};
ghost use Rattle.rbc_spec.specs.Line.{Line, IsLine};
ghost use Rattle.rbc_spec.specs.Frame.{Body, HasBodyRange};
ghost use Rattle.rbc_spec.specs.Centre.{Centre, beginning};
ghost use Rattle.rbc_spec.specs.Step.{Event};
ghost use Rattle.rbc_spec.specs.World as world;
ghost use Rattle.rbc_spec.specs.World.{World, Answer, new_world, world_run};
ghost use Rattle.law_invariants.specs.Flow.Sound.{IsCentreSound, IsBodySound};
ghost use Rattle.law_invariants.specs.Sound.Stays.{HasHandRange, IsInRange, StaysSound};
ghost use Rattle.law_invariants.specs.Sound.Worlds.{AreCentresSound};

/// At its beginning a centre is sound.
pub fn a_centre_begins_sound()
    ensures { (line : Line) (c : ℕ) → IsCentreSound line c (beginning line c) }
{}

/// A sound centre stays sound after every event, and its frames are sound.
pub fn a_centre_stays_sound()
    ensures { (line : Line) (c : ℕ) (k : Centre) (event : Event) → IsLine line → IsInRange event
        → IsCentreSound line c k
        → StaysSound line c k event }
{}

/// A frame whose fields are in their ranges may be delivered, and so may one that a sound centre sent.
pub fn a_frame_in_range_has_a_hand()
    ensures ranges { (body : Body) → HasBodyRange body → HasHandRange body }
    ensures sound { (line : Line) (a b : ℕ) (body : Body) → IsBodySound line a b body → HasHandRange body }
{}

/// After any list of events each centre of a line is sound by itself, and so is each body that one has sent.
pub fn each_centre_of_a_world_is_sound()
    ensures { (line : Line) (events : List world.Event) (answers : List Answer) (w : World) → IsLine line
        → world_run line (new_world line) events ≡ Ok (answers, w) → AreCentresSound line w }
{}
