//! The view after right and after wrong answers.

ghost use Rattle.std.specs.Prelude.{◌≡◌, true, false};
ghost use Rattle.law_outside.specs.Outside.{IsSafeOutside, may_run_over};
ghost use Rattle.law_outside.specs.Scenes.{line, seen_of, side_by_side, train_1_runs, reported, granted, ended};
ghost use Rattle.law_outside.specs.Scenes.{longer_than_the_hand, over_a_waiting_start};
ghost use Rattle.law_outside.specs.Scenes.{unset_of_a_kept_section_is_done, out_of_nothing};
ghost use Rattle.law_outside.specs.Scenes.{shortened_by_an_authority, granted_before_it_was_told, a_late_report};
ghost use Rattle.law_outside.specs.Scenes.{accepted_in_advance, another_is_done, accepted_after_a_rejection};

/// Two trains side by side may each run over their own section, and not over the other's.
pub fn trains_side_by_side_are_seen()
    ensures first { may_run_over line (seen_of side_by_side) 1 1 ≡ true }
    ensures second { may_run_over line (seen_of side_by_side) 2 2 ≡ true }
    ensures not_the_first { may_run_over line (seen_of side_by_side) 2 1 ≡ false }
    ensures not_the_second { may_run_over line (seen_of side_by_side) 1 2 ≡ false }
{}

/// A train takes a part back by a report from further on, a granted request to shorten, or an end of mission at
/// standstill.
pub fn what_trains_take_back_is_seen()
    ensures runs { may_run_over line (seen_of train_1_runs) 1 3 ≡ true }
    ensures cleared { may_run_over line (seen_of reported) 1 1 ≡ false }
    ensures entered { may_run_over line (seen_of reported) 1 2 ≡ true }
    ensures granted { may_run_over line (seen_of granted) 1 3 ≡ false }
    ensures kept { may_run_over line (seen_of granted) 1 2 ≡ true }
    ensures taken_back { (seen_of granted).released 3 ≡ false }
    ensures not_taken_back { (seen_of granted).released 2 ≡ true }
    ensures ended { may_run_over line (seen_of ended) 1 2 ≡ false }
    ensures stays { may_run_over line (seen_of ended) 1 1 ≡ true }
{}

/// An answer that gives too much is noticed outside. An authority is longer than the train's hand. One goes over a
/// section in which another train's start waits. An unset is done while a train has the section. A train that was never
/// accepted gets an authority.
pub fn wrong_answers_are_seen()
    ensures longer_than_the_hand { IsSafeOutside line (seen_of longer_than_the_hand) → ⊥ }
    ensures over_a_waiting_start { IsSafeOutside line (seen_of over_a_waiting_start) → ⊥ }
    ensures unset_of_a_kept_section { IsSafeOutside line (seen_of unset_of_a_kept_section_is_done) → ⊥ }
    ensures out_of_nothing { IsSafeOutside line (seen_of out_of_nothing) → ⊥ }
{}

/// An answer that takes back too early, or gives without a reason, is noticed outside. A shorter authority has its rest
/// reported back, though the train gave nothing up. An authority is sent before a request to shorten is granted. A
/// report is from before a start. A start is accepted in advance of the authority. A set is answered for another
/// section. A start is accepted after it was rejected.
pub fn answers_that_forget_are_seen()
    ensures shortened_by_an_authority { IsSafeOutside line (seen_of shortened_by_an_authority) → ⊥ }
    ensures granted_before_it_was_told { IsSafeOutside line (seen_of granted_before_it_was_told) → ⊥ }
    ensures a_late_report { IsSafeOutside line (seen_of a_late_report) → ⊥ }
    ensures accepted_in_advance { IsSafeOutside line (seen_of accepted_in_advance) → ⊥ }
    ensures another_is_done { IsSafeOutside line (seen_of another_is_done) → ⊥ }
    ensures accepted_after_a_rejection { IsSafeOutside line (seen_of accepted_after_a_rejection) → ⊥ }
{}
