//! Laws of the definitions, at points that a reader might misread. The functions do nothing: each contract is a law.

ghost use Rattle.std.specs.Prelude.{◌≡◌, ℕ, ◌+◌, ◌<◌, ◌≤◌, ◌&&◌, true, false, Some, None};
ghost use Rattle.rbc_spec.specs.Line.{Line, IsLine, is_home, start, end};
ghost use Rattle.rbc_spec.specs.Sections.{is_on, home_run};
ghost use Rattle.rbc_spec.specs.SectionRuns.{within};
ghost use Rattle.rbc_spec.specs.Place.{Place, covers, covered, is_cleared};
ghost use Rattle.rbc_spec.specs.Message.{is_stale};
ghost use Rattle.rbc_spec.specs.Outcome.{Next, Old, Early};
ghost use Rattle.rbc_spec.specs.Step.{offered};
ghost use Rattle.rbc_spec.specs.World.{World};
ghost use Rattle.rbc_spec.specs.LineCentre.{LineState};
ghost use Rattle.rbc_spec.specs.ReadOff.{StandsFor};
ghost use Rattle.rbc_spec.specs.Promises.{IsSafe};

/// On one track a section ends at or before the start of each later one, so starts and ends rise.
pub fn sections_follow_one_another()
    ensures ends { (line : Line) (track s e : ℕ) → is_on line track s ≡ true → is_on line track e ≡ true → s ≤ e
        → end line s ≤ end line e }
    ensures before { (line : Line) (track s e : ℕ) → is_on line track s ≡ true → is_on line track e ≡ true → s < e
        → end line s ≤ start line e }
{}

/// The sections that a place covers are a run: each section between two covered ones is covered too.
pub fn a_place_covers_a_run()
    ensures { (line : Line) (place : Place) (s : ℕ) → IsLine line
        → within (covered line place) s ≡ covers line place s }
{}

/// The sections of one home on one track are a run.
pub fn a_home_is_a_run()
    ensures { (line : Line) (d track s : ℕ) → IsLine line
        → within (home_run line d track) s ≡ (is_home line d s && is_on line track s) }
{}

/// A section that a train has cleared is not covered by the train's place.
pub fn what_is_cleared_is_not_covered()
    ensures { (line : Line) (place : Place) (s : ℕ) → is_cleared line place s ≡ true → covers line place s ≡ false }
{}

/// A late or repeated message is stale; one with a later stamp is not.
pub fn a_stamp_is_heard_once()
    ensures first { (stamp : ℕ) → is_stale stamp None ≡ false }
    ensures again { (stamp last : ℕ) → stamp ≤ last → is_stale stamp (Some last) ≡ true }
    ensures later { (stamp last : ℕ) → last < stamp → is_stale stamp (Some last) ≡ false }
{}

/// After `count` frames one number is the next. Those up to `count` are old, and those past the next are early.
pub fn one_number_is_next()
    ensures next { (count : ℕ) → offered count (count + 1) ≡ Next }
    ensures old { (count number : ℕ) → number ≤ count → offered count number ≡ Old }
    ensures early { (count number : ℕ) → count + 1 < number → offered count number ≡ Early }
{}

/// At most one state of the one line centre represents a world. Two such states are equal on the line's sections,
/// trains and centres.
pub fn one_state_stands()
    ensures sessions { (line : Line) (w : World) (u v : LineState) (t c : ℕ) → StandsFor line w u → StandsFor line w v
        → (u.phase t c ≡ v.phase t c) × (u.heard t c ≡ v.heard t c) × (u.said t c ≡ v.said t c)
        × (u.wait t c ≡ v.wait t c) }
    ensures missions { (line : Line) (w : World) (u v : LineState) (t : ℕ) → StandsFor line w u → StandsFor line w v
        → u.mission t ≡ v.mission t }
    ensures sections { (line : Line) (w : World) (u v : LineState) (s c : ℕ) → is_home line c s ≡ true
        → StandsFor line w u → StandsFor line w v
        → (u.mark s ≡ v.mark s) × (u.wish s ≡ v.wish s) }
{}

/// A world that some state of the one line centre represents is safe.
pub fn what_stands_is_safe()
    ensures { (line : Line) (w : World) (v : LineState) → StandsFor line w v → IsSafe line w }
{}
