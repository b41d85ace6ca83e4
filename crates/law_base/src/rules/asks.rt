//! Laws of the questions that a centre asks the next for sections.

ghost use Rattle.std.specs.Prelude.{◌≡◌, ℕ, Some};
ghost use Rattle.rbc_spec.specs.SectionRuns.{SectionRun};
ghost use Rattle.rbc_spec.specs.Line.{Line};
ghost use Rattle.rbc_spec.specs.Centre.{Centre, Mission, beginning};
ghost use Rattle.rbc_spec.specs.Links.{is_wanted};
ghost use Rattle.rbc_spec.specs.Step.{Event, taken};
ghost use Rattle.law_base.specs.Rules.Asks.{AsksForEmptyPools, follows_hand};

/// While a question of a train is pending, the pool of its mission is empty: in the initial state, and after each step.
pub fn a_question_stands_for_an_empty_pool()
    ensures beginning { (line : Line) (c : ℕ) → AsksForEmptyPools (beginning line c) }
    ensures step { (line : Line) (c : ℕ) (k : Centre) (event : Event) → AsksForEmptyPools k
        → AsksForEmptyPools (taken line c event k).1 }
    // So the mission can use the sections of a pending question whenever they follow the hand: the condition that the
    // pool is empty always holds.
    ensures wanted { (line : Line) (k : Centre) (t first : ℕ) (m : Mission) (r : SectionRun) → AsksForEmptyPools k
        → k.route_ask t ≡ Some first
        → k.mission t ≡ Some m → is_wanted line r m ≡ follows_hand line r m }
{}
