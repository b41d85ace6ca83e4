//! Laws of quiet steps, and of the wrong ones beside them.

ghost use Rattle.std.specs.Prelude.{◌≡◌, ℕ, true, false, Option};
ghost use Rattle.rbc_spec.specs.Line.{Line};
ghost use Rattle.rbc_spec.specs.LineCentre.{LineState, Said, nothing, is_given_to, is_waiting_at, line_beginning};
ghost use Rattle.rbc_spec.specs.LineCentre.Mark.{Given, Open};
ghost use Rattle.rbc_spec.specs.Outcome.{Reason};
ghost use Rattle.rbc_spec.specs.Quiet.{Quiet, TakesQuiet};
ghost use Rattle.rbc_spec.specs.Quiet.Quiet.{Admit, Keep, Unkeep};
ghost use Rattle.rbc_spec.specs.Run.{OwnStep};
ghost use Rattle.rbc_spec.specs.World.{Event};
ghost use Rattle.law_mutants.specs.Small.{small};
ghost use Rattle.law_mutants.specs.Quiet.{StartsAreKept, GivesAtOnce, FreesAny, one_open, one_given, one_freed};

/// A quiet step gives a section to a train only if it admits a start of that train which waits for the section. If an
/// open section is given at once, it is in the authority of a train without a start.
pub fn no_section_is_given_without_a_start()
    ensures the_rule_keeps { (line : Line) (v new : LineState) (q : Quiet) (said : Said) (t s : ℕ)
        → TakesQuiet line v q said new → is_given_to t (v.mark s) ≡ false → is_given_to t (new.mark s) ≡ true
        → (c : ℕ) × (q ≡ Admit t c) × (is_waiting_at line v t c s ≡ true) }
    ensures the_wrong_rule_breaks { GivesAtOnce small one_open (Keep 1 1) nothing one_given
        × (is_given_to 1 (one_open.mark 1) ≡ false) × (is_given_to 1 (one_given.mark 1) ≡ true) }
{}

/// In each quiet step a given section stays given to its train. A premise is that each waiting start has its sections
/// kept. That is so at the beginning, and each own step and quiet step leaves it so. If each section may be freed that
/// no start waits for, a given section is open.
pub fn no_quiet_step_frees_a_given_section()
    ensures at_the_beginning { (line : Line) → StartsAreKept line line_beginning }
    ensures an_own_step_keeps { (line : Line) (v mid : LineState) (event : Event) (said : Said) (why : Option Reason)
        → StartsAreKept line v → OwnStep line v event said mid why → StartsAreKept line mid }
    ensures the_rule_keeps { (line : Line) (v new : LineState) (q : Quiet) (said : Said)
        → StartsAreKept line v → TakesQuiet line v q said new
        → ((t s : ℕ) → v.mark s ≡ Given t → new.mark s ≡ Given t) × StartsAreKept line new }
    ensures the_wrong_rule_breaks { StartsAreKept small one_given
        × FreesAny small one_given (Unkeep 1 1) nothing one_freed
        × (one_given.mark 1 ≡ Given 1) × (one_freed.mark 1 ≡ Open) }
{}
