//! Scenes of trains that leave out one part of the five rules, and of trains that keep all of them.

ghost use Rattle.std.specs.Prelude.{[], ◌≡◌, Bool, Some, true, ℕ, ℤ};
ghost use Rattle.rbc_spec.specs.Line.{Line};
ghost use Rattle.rbc_spec.specs.Message.{TrackMessage, TrainMessage};
ghost use Rattle.law_trains.specs.Trains.{IsSafeLoop, Loop, stands_on, Train};
ghost use Rattle.law_trains.specs.Trains as rules;
ghost use Rattle.test_scenes.specs.FollowScenes.{another_centre, before_the_acknowledgement};
ghost use Rattle.test_scenes.specs.FollowScenes.{centre_after_a_grant, centre_at_standstill};
ghost use Rattle.test_scenes.specs.FollowScenes.{data_before_a_grant, data_before_standstill};
ghost use Rattle.test_scenes.specs.FollowScenes.{end_after_a_grant, end_at_standstill, over_three_centres};
ghost use Rattle.test_scenes.specs.RuleParts.{five_rules, hears, is_on_shut, IsNeeded, may_run, may_say};
ghost use Rattle.test_scenes.specs.RuleParts.{meet_on, played, says};
ghost use Rattle.test_scenes.specs.RuleScenes.{clock_set_back, front_in_rear, past_the_end, rear_in_advance};
ghost use Rattle.test_scenes.specs.RuleScenes.{request_not_heard, without_an_authority};

/// Each part of the five rules is needed. Trains that leave out one part meet, or one runs into a section that is not
/// released. The rules forbid acts of that scene, and trains that keep them are safe after each of its other acts.
pub fn each_part_of_the_rules_is_needed()
    ensures one_clock { IsNeeded clock_set_back }
    ensures true_front { IsNeeded front_in_rear }
    ensures true_rear { IsNeeded rear_in_advance }
    ensures heard_request { IsNeeded request_not_heard }
    ensures end_after_grant { IsNeeded end_after_a_grant }
    ensures centre_after_grant { IsNeeded centre_after_a_grant }
    ensures data_after_grant { IsNeeded data_before_a_grant }
    ensures end_at_a_standstill { IsNeeded end_at_standstill }
    ensures centre_at_a_standstill { IsNeeded centre_at_standstill }
    ensures data_at_a_standstill { IsNeeded data_before_standstill }
    ensures followed_centre { IsNeeded another_centre }
    ensures since_acknowledged { IsNeeded before_the_acknowledgement }
    ensures to_the_end { IsNeeded past_the_end }
    ensures with_authority { IsNeeded without_an_authority }
{}

/// The rules by all parts are the five rules. By the law two accepted trains on one section are not safe. Nor is an
/// accepted train on a section that is not released.
pub fn all_parts_are_the_five_rules()
    ensures says { (line : Line) (c : ℕ) (m : TrainMessage) (x : Train)
        → may_say five_rules line c m x ≡ rules.may_say line c m x }
    ensures said { (c : ℕ) (m : TrainMessage) (x : Train) → says five_rules c m x ≡ rules.says c m x }
    ensures hears { (line : Line) (c : ℕ) (m : TrackMessage) (x : Train)
        → hears five_rules line c m m.body x ≡ rules.hears line c m m.body x }
    ensures runs { (front : ℕ) (rear : ℤ) (x : Train) → may_run five_rules front rear x ≡ rules.may_run front rear x }
    ensures meeting { (line : Line) (k : Loop) (t u s : ℕ) → meet_on t u s line k ≡ true → (t ≡ u → ⊥)
        → IsSafeLoop line (λ v. true) k → ⊥ }
    ensures not_released { (line : Line) (k : Loop) (t s : ℕ) → is_on_shut t s line k ≡ true
        → IsSafeLoop line (λ v. true) k → ⊥ }
{}

/// Two trains that keep the rules run over three centres. The rules forbid no act, and the trains are safe after each.
/// Train 1 follows C at the end, and has run by an authority of C.
pub fn trains_run_over_three_centres()
    ensures allowed { (played five_rules over_three_centres).forbidden ≡ [] }
    ensures safe { (played five_rules over_three_centres).is_safe ≡ true }
    ensures follows { ((played five_rules over_three_centres).loop.train 1).follows
        ≡ Some (record { centre = 2; stamp = 2 }) }
    ensures end { ((played five_rules over_three_centres).loop.train 1).end ≡ Some 600 }
    ensures first { stands_on over_three_centres.line ((played five_rules over_three_centres).loop.train 1) 5 ≡ true }
    ensures second { stands_on over_three_centres.line ((played five_rules over_three_centres).loop.train 2) 6 ≡ true }
{}
