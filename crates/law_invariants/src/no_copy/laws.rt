//! Laws of rights and of the tokens of sections, for each step of a centre.

ghost use Rattle.std.specs.Prelude.{ℕ};
ghost use Rattle.rbc_spec.specs.Line.{Line, IsLine};
ghost use Rattle.rbc_spec.specs.Centre.{Centre};
ghost use Rattle.rbc_spec.specs.Step.{Event, stamp_of, state_after};
ghost use Rattle.law_invariants.specs.Flow.Counts.{rights, tokens};
ghost use Rattle.law_invariants.specs.Flow.Sound.{IsCentreSound};
ghost use Rattle.law_invariants.specs.Flow.Keeping.{IsFairAct};
ghost use Rattle.law_invariants.specs.NoCopy.Steps.{came_to, done, IsFairStep};

/// No step of a centre makes a right to supervise a train. A right that the centre holds or sends after the step was
/// held before, or arrived with the event.
pub fn no_step_makes_a_right()
    ensures { (line : Line) (c t : ℕ) (k : Centre) (event : Event) → IsCentreSound line c k
        → IsFairStep (rights line t) line c k event }
{}

/// No step makes a token of a section. After it, waiting starts, hands, pools and frames have the section at most as
/// often as before. A token may arrive, and its home may put the section into use.
pub fn no_step_makes_a_token()
    ensures { (line : Line) (c t s : ℕ) (k : Centre) (event : Event) → IsLine line → IsCentreSound line c k
        → IsFairStep (tokens line t s) line c k event }
{}

/// So each step of a sound centre is a fair act of the flow: of rights and of tokens.
pub fn each_step_is_fair()
    ensures { (line : Line) (c : ℕ) (k : Centre) (event : Event) → IsLine line → IsCentreSound line c k
        → IsFairAct line c k (came_to line c k event) (state_after (stamp_of k event) k (done line c k event))
        (done line c k event).reply.frames }
{}
