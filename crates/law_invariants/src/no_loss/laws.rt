//! Laws of rights and of the tokens of sections, which are not lost.

ghost use Rattle.std.specs.Prelude.{◌≡◌, ℕ, true, List, Ok};
ghost use Rattle.law_base.specs.Counting.Network.{took, acted, TakesHead, IsCounted};
ghost use Rattle.rbc_spec.specs.Line.{Line, IsLine, is_centre};
ghost use Rattle.rbc_spec.specs.Centre.{Centre};
ghost use Rattle.rbc_spec.specs.Frame.{Body};
ghost use Rattle.rbc_spec.specs.Step.{Event, stamp_of, state_after};
ghost use Rattle.rbc_spec.specs.World as world;
ghost use Rattle.rbc_spec.specs.World.{World, Answer, new_world, world_step, world_run};
ghost use Rattle.law_invariants.specs.Flow.Counts.{rights, tokens};
ghost use Rattle.law_invariants.specs.Flow.Flow.{Flow, flow_of};
ghost use Rattle.law_invariants.specs.Flow.Keeping.{nothing_came, came_with};
ghost use Rattle.law_invariants.specs.Flow.Sound.{IsCentreSound, IsFlowSound, LosesNothing};
ghost use Rattle.law_invariants.specs.Sound.Stays.{IsInRange};
ghost use Rattle.law_invariants.specs.NoCopy.Stray.{is_looked_for};
ghost use Rattle.law_invariants.specs.NoCopy.Steps.{came_to, done, IsExactStep};
ghost use Rattle.law_invariants.specs.Handover.Worlds.{IsWorldSound};
ghost use Rattle.law_invariants.specs.NoUnasked.Asked.{IsAsked};
ghost use Rattle.law_invariants.specs.NoLoss.Keeps.{HasRightOnce, BringsNoStray, IsExactAct};

/// Let a sound centre have no right beside a mission of the same train, and let the event bring no stray frame. Then
/// its step neither loses nor makes a right. The centre then holds or sends all that it had and that arrived.
pub fn no_step_loses_a_right()
    ensures { (line : Line) (c t : ℕ) (k : Centre) (event : Event) → IsLine line → IsCentreSound line c k
        → HasRightOnce k
        → BringsNoStray line c k event → IsExactStep (rights line t) line c k event }
{}

/// Nor does the step lose or make a token of a section. Waiting starts, hands, pools and frames have the section as
/// often as before and as it arrived. Only its home may put it into use, or out of it.
pub fn no_step_loses_a_token()
    ensures { (line : Line) (c t s : ℕ) (k : Centre) (event : Event) → IsLine line → IsInRange event
        → IsCentreSound line c k → HasRightOnce k
        → BringsNoStray line c k event → IsExactStep (tokens line t s) line c k event }
{}

/// So each step of such a centre is an exact act of the flow: of rights and of tokens.
pub fn each_step_is_exact()
    ensures { (line : Line) (c : ℕ) (k : Centre) (event : Event) → IsLine line → IsInRange event
        → IsCentreSound line c k → HasRightOnce k
        → BringsNoStray line c k event
        → IsExactAct line c k (came_to line c k event) (state_after (stamp_of k event) k (done line c k event))
        (done line c k event).reply.frames }
{}

/// If nothing was lost before, an exact act of a centre loses nothing: by itself, or at the head of a link.
pub fn an_exact_act_loses_nothing()
    ensures by_itself { (line : Line) (w : Flow) (c : ℕ) (y : Centre) (frames : ℕ → List Body) → IsCounted w
        → is_centre line c ≡ true
        → IsExactAct line c (w.at c) nothing_came y frames → LosesNothing line w
        → LosesNothing line (acted w c y frames) }
    ensures at_head { (line : Line) (w : Flow) (a c : ℕ) (f : Body) (y : Centre) (frames : ℕ → List Body) → IsCounted w
        → is_centre line a ≡ true → is_centre line c ≡ true → TakesHead w a c f
        → IsExactAct line c (w.at c) (came_with a c f) y frames → LosesNothing line w
        → LosesNothing line (acted (took w a c) c y frames) }
{}

/// In a sound flow no centre has a right beside its mission.
pub fn a_sound_flow_has_each_right_once()
    ensures { (line : Line) (w : Flow) (c : ℕ) → IsFlowSound line w → is_centre line c ≡ true → HasRightOnce (w.at c) }
{}

/// In a sound flow with only proper requests, the head of each link is a frame that its receiver looks for. A right was
/// asked for, or returns to its registrar. Lent sections were asked for, and returned sections are out there. Each
/// Yield may be accepted.
pub fn what_a_sound_flow_brings()
    ensures { (line : Line) (w : Flow) (a c : ℕ) (f : Body) → IsLine line → IsFlowSound line w → IsAsked line w
        → is_centre line a ≡ true → is_centre line c ≡ true → TakesHead w a c f
        → is_looked_for line c a (w.at c) f ≡ true }
{}

/// So no event of a world loses a right or a token of a section, and after any list of events none is lost.
pub fn nothing_is_ever_lost()
    ensures step { (line : Line) (w : World) (event : world.Event) (answer : Answer) (new : World) → IsLine line
        → IsWorldSound line w
        → IsAsked line (flow_of w) → LosesNothing line (flow_of w) → world_step line w event ≡ Ok (answer, new)
        → LosesNothing line (flow_of new) }
    ensures run { (line : Line) (events : List world.Event) (answers : List Answer) (w : World) → IsLine line
        → world_run line (new_world line) events ≡ Ok (answers, w) → LosesNothing line (flow_of w) }
{}
