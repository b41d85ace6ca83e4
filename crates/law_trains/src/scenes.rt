//! Scenes of a train that obeys.

ghost use Rattle.std.specs.Prelude.{◌≡◌, ℕ, false, None, pos, true};
ghost use Rattle.law_outside.specs.Scenes.{line};
ghost use Rattle.law_trains.specs.Scenes.{and_runs, both_accepted, each, gave_back, gives_up, goes, may_go, only_1};
ghost use Rattle.law_trains.specs.Scenes.{trains};
ghost use Rattle.law_trains.specs.Trains.{all_after, AllMay, at_first, IsNew, IsSafeLoop, may_run, stands_on};

/// The rules can be kept. A train starts, is accepted, follows its centre, gets an authority, and runs into the next
/// section. It may not run in advance of the end of the authority. After an end of mission at standstill it does not
/// take an authority from before.
pub fn a_train_that_obeys_runs()
    ensures new { (t : ℕ) → IsNew (trains t) }
    ensures obeys { AllMay line only_1 (at_first trains) goes }
    ensures runs { stands_on line ((all_after line goes (at_first trains)).train 1) 2 ≡ true }
    ensures no_farther { may_run 30001 (pos 28000) ((all_after line may_go (at_first trains)).train 1) ≡ false }
    ensures obeys_too { AllMay line only_1 (at_first trains) gives_up }
    ensures not_again { ((all_after line gives_up (at_first trains)).train 1).end ≡ None }
{}

/// A train meets another if it runs without an authority. So it does if it runs by an authority from before an end of
/// mission at standstill. Rule 5 and rule 4 forbid that, and all moments before obey.
pub fn a_train_that_breaks_a_rule_meets_another()
    ensures both_obey { AllMay line each (at_first trains) both_accepted }
    ensures not_without { may_run 25000 (pos 23000) ((all_after line both_accepted (at_first trains)).train 1) ≡ false }
    ensures meets_without { IsSafeLoop line each (all_after line (and_runs both_accepted) (at_first trains)) → ⊥ }
    ensures back_obeys { AllMay line each (at_first trains) gave_back }
    ensures not_after { may_run 25000 (pos 23000) ((all_after line gave_back (at_first trains)).train 1) ≡ false }
    ensures meets_after { IsSafeLoop line each (all_after line (and_runs gave_back) (at_first trains)) → ⊥ }
{}
