//! The quiet steps that give or free a section, and those that may not be taken.

ghost use Rattle.std.specs.Prelude.{◌≡◌, [], ◌∷◌, None, Some};
ghost use Rattle.rbc_spec.specs.LineCentre.{LineState, Said};
ghost use Rattle.rbc_spec.specs.LineCentre.Mark.{Given, Kept, Open};
ghost use Rattle.rbc_spec.specs.Quiet.{TakesQuiet};
ghost use Rattle.rbc_spec.specs.Quiet.Quiet.{Admit, Dismiss, Keep, Unkeep};
ghost use Rattle.test_scenes.specs.QuietMarks.{marks_after, start_waits};
ghost use Rattle.test_scenes.specs.Scene.{line};

/// A section is kept, and not given; the admission of the start gives its section. A kept section that no start waits
/// for is freed, and so is that of a dismissed start. A given section is neither freed nor kept.
pub fn only_an_admission_gives()
    ensures keeps { marks_after (Keep 1 4) ≡ Some (Kept 1 ∷ Kept 1 ∷ Kept 1 ∷ Given 2 ∷ []) }
    ensures admits { marks_after (Admit 1 1) ≡ Some (Open ∷ Given 1 ∷ Kept 1 ∷ Given 2 ∷ []) }
    ensures dismisses { marks_after (Dismiss 1 1) ≡ Some (Open ∷ Open ∷ Kept 1 ∷ Given 2 ∷ []) }
    ensures unkeeps { marks_after (Unkeep 1 6) ≡ Some (Open ∷ Kept 1 ∷ Open ∷ Given 2 ∷ []) }
    ensures no_other_start { marks_after (Admit 2 1) ≡ None }
    ensures waited_for { marks_after (Unkeep 1 5) ≡ None }
    ensures given { marks_after (Unkeep 2 7) ≡ None }
    ensures given_to_another { marks_after (Keep 1 7) ≡ None }
    // `Keep` does not give section 4, and `Unkeep` does not free section 7, whatever is sent.
    ensures never_given { (said : Said) (new : LineState) → TakesQuiet line start_waits (Keep 1 4) said new
        → new.mark 4 ≡ Given 1 → ⊥ }
    ensures never_freed { (said : Said) (new : LineState) → TakesQuiet line start_waits (Unkeep 2 7) said new → ⊥ }
{}
