//! Messages that are lost, and trains that break a requirement.

ghost use Rattle.std.specs.Prelude.{◌≡◌, true, false};
ghost use Rattle.law_outside.specs.Outside.{may_run_over, nothing_seen, IsSafeOutside};
ghost use Rattle.law_outside.specs.Scenes.{line, events_of, spoken_after, seen_of, side_by_side, train_1_runs};
ghost use Rattle.law_outside.specs.Scenes.{the_authority_is_lost, granted};
ghost use Rattle.law_promises.specs.Arrival.Arrival.{Arrive, IsSafeByWhatCame};
ghost use Rattle.law_promises.specs.Arrival.Received.{AreReceived, nothing_known};
ghost use Rattle.law_promises.specs.Arrival.Meeting.{is_over, IsTruthful};
ghost use Rattle.law_promises.specs.Arrival.Scenes.{accepted_twice, the_acceptance_is_lost, accepted_at_last};
ghost use Rattle.law_promises.specs.Arrival.Scenes.{moved_on, the_second_acceptance_is_lost, the_request_is_lost};
ghost use Rattle.law_promises.specs.Arrival.Scenes.{in_1, in_2, two_trains};

/// If an authority is lost, the train runs by the rest of its messages: it stays in the section of its start.
pub fn a_lost_authority_is_seen()
    ensures part { Arrive line (events_of train_1_runs) (spoken_after train_1_runs)
        (spoken_after the_authority_is_lost) nothing_seen nothing_seen }
    ensures received { AreReceived nothing_known (events_of train_1_runs) (spoken_after train_1_runs)
        (spoken_after the_authority_is_lost) }
    ensures waits { may_run_over line (seen_of the_authority_is_lost) 1 3 ≡ false }
    ensures stays { may_run_over line (seen_of the_authority_is_lost) 1 1 ≡ true }
{}

/// An acceptance is lost, the train starts again, and the second acceptance arrives: then it gets an authority.
pub fn a_lost_acceptance_is_seen()
    ensures received { AreReceived nothing_known (events_of accepted_twice) (spoken_after accepted_twice)
        (spoken_after accepted_at_last) }
    ensures waits { may_run_over line (seen_of the_acceptance_is_lost) 1 1 ≡ false }
    ensures runs { may_run_over line (seen_of accepted_at_last) 1 2 ≡ true }
{}

/// Both requirements on trains are needed: all messages are safe here, and the part that arrives is not. If an
/// authority arrives at a train whose last acceptance was lost, two trains may run over one section. If a train grants
/// a request that did not arrive, it may run over a section that the interlocking has taken back.
pub fn wrong_trains_are_seen()
    ensures told { IsSafeOutside line (seen_of moved_on) }
    ensures authority { AreReceived nothing_known (events_of moved_on) (spoken_after moved_on)
        (spoken_after the_second_acceptance_is_lost) → ⊥ }
    ensures two_trains { IsSafeByWhatCame line (seen_of the_second_acceptance_is_lost) → ⊥ }
    ensures granted { IsSafeOutside line (seen_of granted) }
    ensures grant { AreReceived nothing_known (events_of granted) (spoken_after granted)
        (spoken_after the_request_is_lost) → ⊥ }
    ensures had_back { IsSafeByWhatCame line (seen_of the_request_is_lost) → ⊥ }
{}

/// Two trains side by side are each within the stretch by which they run, and on their own section. A train that has
/// passed the end of its authority is not within it.
pub fn trains_within_are_seen()
    ensures within { IsTruthful (seen_of side_by_side) (two_trains in_1 in_2) }
    ensures first { is_over line 1 in_1 ≡ true }
    ensures second { is_over line 2 in_2 ≡ true }
    ensures not_both { is_over line 2 in_1 ≡ false }
    ensures passed { IsTruthful (seen_of side_by_side) (two_trains in_2 in_2) → ⊥ }
{}
