//! The sections that may leave the hand of a train that ends its mission at standstill.

ghost use Rattle.std.specs.Prelude.{◌≡◌, ◌≤◌, ℕ, false};
ghost use Rattle.rbc_spec.specs.World.{Answer, World};
ghost use Rattle.rbc_spec.specs.Promises.{is_given, KeepsPromises, MayFree};
ghost use Rattle.test_scenes.specs.Scene.{line, seen};
ghost use Rattle.test_scenes.specs.Pieces.{IsMetByRun};
ghost use Rattle.test_scenes.specs.Standstill.{in_section_2, six_given, ends_at};
ghost use Rattle.test_scenes.specs.Standstill.{end_at_the_start, end_at_the_start_shows, end_at_the_start_moves};
ghost use Rattle.test_scenes.specs.Standstill.{end_past_the_start, end_past_the_start_shows, end_past_the_start_moves};

/// The front is just at the start of section 2. Section 1 may leave the hand, since it is cleared. Sections 2 to 6 may
/// not, and no centre that takes section 2 out of the hand keeps the promises. One metre in advance section 3 may leave
/// the hand, and section 2, which has the front, may not.
pub fn standstill_at_the_start_of_a_section()
    ensures at_the_start { seen line end_at_the_start ≡ end_at_the_start_shows }
    ensures met_at_the_start { IsMetByRun line end_at_the_start end_at_the_start_moves }
    ensures cleared { MayFree line six_given 1 1 (ends_at (in_section_2 0)) }
    ensures ahead { (s : ℕ) → 2 ≤ s → s ≤ 6 → MayFree line six_given 1 s (ends_at (in_section_2 0)) → ⊥ }
    ensures freed { (answer : Answer) (new : World) → is_given line new 1 2 ≡ false
        → KeepsPromises line six_given (ends_at (in_section_2 0)) answer new → ⊥ }
    ensures past_the_start { seen line end_past_the_start ≡ end_past_the_start_shows }
    ensures met_past_the_start { IsMetByRun line end_past_the_start end_past_the_start_moves }
    ensures ahead_of_the_front { MayFree line six_given 1 3 (ends_at (in_section_2 1)) }
    ensures section_of_the_front { MayFree line six_given 1 2 (ends_at (in_section_2 1)) → ⊥ }
{}
