//! Laws of handovers, for each step of a centre.

ghost use Rattle.std.specs.Prelude.{◌≡◌, ◌≤◌, ℕ, true, List, [], Ok};
ghost use Rattle.law_base.specs.Counting.Network.{took, acted, TakesHead, IsCounted};
ghost use Rattle.rbc_spec.specs.Line.{Line, IsLine, is_centre};
ghost use Rattle.rbc_spec.specs.Frame.{Frame, Body};
ghost use Rattle.rbc_spec.specs.Outcome.{Next};
ghost use Rattle.rbc_spec.specs.Centre.{Centre};
ghost use Rattle.rbc_spec.specs.Step.{Event, Deliver, link_answer};
ghost use Rattle.rbc_spec.specs.World as world;
ghost use Rattle.rbc_spec.specs.World.{World, Answer, new_world, world_step, world_run};
ghost use Rattle.law_invariants.specs.Flow.Flow.{Flow};
ghost use Rattle.law_invariants.specs.Flow.Pairs.{IsPaired, before};
ghost use Rattle.law_invariants.specs.Flow.Sound.{IsFlowSound, ArePaired};
ghost use Rattle.law_invariants.specs.Handover.Orderly.{Allowance, IsOrderlyWith, IsOrderly, IsTaking, IsTakenWith};
ghost use Rattle.law_invariants.specs.Handover.Steps.{IsByItself, left_by, sent_by};
ghost use Rattle.law_invariants.specs.Handover.Worlds.{IsWorldSound};

/// An orderly act of a centre keeps the agreement of any two centres on the handover of a train. It must yield only
/// announced handovers that are taken over. A frame that is the next of its link, and is taken in order, keeps it too.
pub fn an_orderly_act_keeps_all_paired()
    ensures acts { (w : Flow) (c i j t : ℕ) (y : Centre) (frames : ℕ → List Body) → IsCounted w
        → IsOrderly (w.at c) y frames
        → IsPaired w i j t → IsPaired (acted w c y frames) i j t }
    ensures yields { (w : Flow) (c i j t : ℕ) (y : Centre) (frames : ℕ → List Body) (allow : Allowance) → IsCounted w
        → IsOrderlyWith allow (w.at c) y frames
        → ((d u h : ℕ) → allow d u h ≡ true → (before w c d u h ≡ 0) × (h ≤ (w.at c).announced))
        → IsPaired w i j t → IsPaired (acted w c y frames) i j t }
    ensures takes { (w : Flow) (a c i j t : ℕ) (f : Body) (y : Centre) → TakesHead w a c f → IsTaking a f (w.at c) y
        → IsPaired w i j t → IsPaired (acted (took w a c) c y (λ d. [])) i j t }
{}

/// Each step of a centre is orderly: by itself in every state, and after the next frame of a link in a sound flow.
pub fn each_step_is_orderly()
    ensures by_itself { (line : Line) (c : ℕ) (k : Centre) (event : Event) → IsByItself line c k event
        → IsOrderly k (left_by line c k event) (sent_by line c k event) }
    ensures at_head { (line : Line) (w : Flow) (a c : ℕ) (f : Frame) → IsLine line → IsFlowSound line w
        → is_centre line a ≡ true → is_centre line c ≡ true → TakesHead w a c f.body
        → link_answer line c (w.at c) a f ≡ Next
        → IsTakenWith a f.body (w.at c) (left_by line c (w.at c) (Deliver a f))
        (sent_by line c (w.at c) (Deliver a f)) }
{}

/// So each step of a centre keeps the agreement of any two centres of the line on the handover of each train.
pub fn each_step_keeps_all_paired()
    ensures by_itself { (line : Line) (w : Flow) (c : ℕ) (event : Event) → IsCounted w
        → IsByItself line c (w.at c) event
        → ArePaired line w → ArePaired line
        (acted w c (left_by line c (w.at c) event) (sent_by line c (w.at c) event)) }
    ensures at_head { (line : Line) (w : Flow) (a c : ℕ) (f : Frame) → IsLine line → IsFlowSound line w
        → is_centre line a ≡ true → is_centre line c ≡ true → TakesHead w a c f.body
        → link_answer line c (w.at c) a f ≡ Next
        → ArePaired line (acted (took w a c) c (left_by line c (w.at c) (Deliver a f))
        (sent_by line c (w.at c) (Deliver a f))) }
{}

/// With the laws of each centre by itself and of fair steps: each event of a world keeps its whole flow sound.
pub fn each_step_keeps_all_sound()
    ensures { (line : Line) (w : World) (event : world.Event) (answer : Answer) (new : World) → IsLine line
        → IsWorldSound line w → world_step line w event ≡ Ok (answer, new) → IsWorldSound line new }
{}

/// So after any list of events the flow of a line is sound.
pub fn each_world_flow_is_sound()
    ensures { (line : Line) (events : List world.Event) (answers : List Answer) (w : World) → IsLine line
        → world_run line (new_world line) events ≡ Ok (answers, w) → IsWorldSound line w }
{}
