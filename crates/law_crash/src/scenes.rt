//! Programs that keep the premises, and programs that do not.

ghost use Rattle.std.specs.Prelude.{◌≡◌, ℕ, [], ◌∷◌, true};
ghost use Rattle.rbc_spec.specs.Centre.{Centre};
ghost use Rattle.law_outside.specs.Outside.{IsSafeOutside, may_run_over};
ghost use Rattle.law_logs.specs.Logs.{AreLogs, IsLegal};
ghost use Rattle.law_logs.specs.Beginnings.Beginnings.{cut};
ghost use Rattle.law_crash.specs.Crashes.{ArePeriods, Follows, KeepsSentOut, IsWrittenFirst, no_period};
ghost use Rattle.law_crash.specs.Scenes.{line, writes_first, goes_on, takes_later};
ghost use Rattle.law_crash.specs.Scenes.{answers_first, forgets, seen_in_all, takes_first};

/// A program that writes first keeps the premises. A crash cuts off an event that was not sent out, and another
/// follows. Centres may take frames of each other.
pub fn a_program_may_write_first()
    ensures crash { ArePeriods line no_period (writes_first ∷ goes_on ∷ []) }
    ensures frames { ArePeriods line no_period (takes_later ∷ []) }
{}

/// A program that answers first keeps all other premises. After a crash its log lacks a train that was accepted. Then
/// another train is accepted in the same section.
pub fn who_answers_first_forgets()
    ensures first { Follows line no_period answers_first }
    ensures second { Follows line answers_first forgets }
    ensures forgotten { KeepsSentOut answers_first forgets → ⊥ }
    ensures train_1 { may_run_over line seen_in_all 1 1 ≡ true }
    ensures train_3 { may_run_over line seen_in_all 3 1 ≡ true }
    ensures not_safe { IsSafeOutside line seen_in_all → ⊥ }
{}

/// A program writes each entry before it sends it out. But a centre takes a frame before it is sent out. After a crash
/// the journals are not those of a run: the sender's journal lacks the frame that was taken.
pub fn who_takes_first_has_no_run()
    ensures replays { (ends : ℕ → Centre) × AreLogs line takes_first.logs ends }
    ensures sent { IsLegal takes_first.logs }
    ensures written_first { IsWrittenFirst takes_first }
    ensures no_run { IsLegal (cut takes_first.kept takes_first.logs) → ⊥ }
{}
