//! Laws of the ranges of a centre's state and of its frames.

ghost use Rattle.std.specs.Prelude.{◌≡◌, ℕ, List, All, Ok, None};
ghost use Rattle.rbc_spec.specs.Line.{Line, IsLine};
ghost use Rattle.rbc_spec.specs.Centre.{Centre, beginning};
ghost use Rattle.rbc_spec.specs.Step.{Event, refusal};
ghost use Rattle.rbc_spec.specs.World as world;
ghost use Rattle.rbc_spec.specs.World.{World, Answer, new_world, world_run};
ghost use Rattle.law_invariants.specs.Ranges.Ranges.{HasEventRanges, HasStateRanges};
ghost use Rattle.law_invariants.specs.Ranges.Few.{IsFewAnswer};
ghost use Rattle.law_invariants.specs.Ranges.Stays.{StaysInRange, SendsInRange, IsReadInRange, IsWorldInRange};

/// At its beginning a centre is in its ranges.
pub fn a_centre_begins_in_range()
    ensures { (line : Line) (c : ℕ) → HasStateRanges line c (beginning line c) }
{}

/// For every event in its ranges: a step that is not refused leaves the centre in its ranges. It sends bodies in their
/// ranges, and only on links.
pub fn a_centre_stays_in_range()
    ensures { (line : Line) (c : ℕ) (k : Centre) (event : Event) → IsLine line → HasEventRanges line c event
        → HasStateRanges line c k → refusal line c k event ≡ None → StaysInRange line c k event }
{}

/// Each frame of such a step has each field in its range: it has a spelling.
pub fn each_frame_has_its_ranges()
    ensures { (line : Line) (c : ℕ) (k : Centre) (event : Event) → IsLine line → HasEventRanges line c event
        → HasStateRanges line c k → refusal line c k event ≡ None → SendsInRange line c k event }
{}

/// After any list of events with each train message in range, each frame that a centre has sent has each field in its
/// range. So every frame of a world has a spelling.
pub fn each_frame_of_a_world_has_its_ranges()
    ensures { (line : Line) (events : List world.Event) (answers : List Answer) (w : World) → IsLine line
        → All IsReadInRange events → world_run line (new_world line) events ≡ Ok (answers, w) → IsWorldInRange line w }
{}

/// After any list of events with each train message in range, each answer is small. It has at most two messages to
/// trains, 64 replies to the interlocking, and three frames on a link, in their order.
pub fn each_answer_says_few()
    ensures { (line : Line) (events : List world.Event) (answers : List Answer) (w : World) → IsLine line
        → All IsReadInRange events → world_run line (new_world line) events ≡ Ok (answers, w)
        → All IsFewAnswer answers }
{}
