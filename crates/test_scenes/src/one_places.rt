//! Scenes in which each section in use, each right and each mission stays in one place.

ghost use Rattle.std.specs.Prelude.{◌≡◌, true, false, [], ◌∷◌};
ghost use Rattle.std.specs.List.{list_all};
ghost use Rattle.test_scenes.specs.Scene.{line, line_of_three};
ghost use Rattle.test_scenes.specs.Starts.{right_comes, right_goes_back, right_serves_a_later_start};
ghost use Rattle.test_scenes.specs.Starts.{ask_delivered_twice, right_is_refused, hand_outlives_the_session};
ghost use Rattle.test_scenes.specs.Starts.{start_after_the_end_of_mission, unset_of_the_first_section};
ghost use Rattle.test_scenes.specs.Requests.{request_asks_over_the_border, asks_again_each_round, report_clears};
ghost use Rattle.test_scenes.specs.Requests.{no_integrity_frees_nothing, request_extends_over_the_border};
ghost use Rattle.test_scenes.specs.Requests.{early_frame, end_of_mission, end_at_standstill};
ghost use Rattle.test_scenes.specs.Requests.{end_at_standstill_with_a_wish};
ghost use Rattle.test_scenes.specs.Shortening.{unset_in_a_hand, shortening_and_a_late_route};
ghost use Rattle.test_scenes.specs.Shortening.{answer_to_another_proposal, granted_past_the_proposed_end};
ghost use Rattle.test_scenes.specs.Shortening.{another_answer_at_the_border, asking_again_tries_again};
ghost use Rattle.test_scenes.specs.Handover.{handover, return_after_handover, yield_carries_the_last_stamp_heard};
ghost use Rattle.test_scenes.specs.Handover.{cancelled_before_taking_over};
ghost use Rattle.test_scenes.specs.Races.{withdrawn_from_the_pool, first_of_the_pool_withdrawn};
ghost use Rattle.test_scenes.specs.Races.{last_of_the_pool_withdrawn, route_for_an_ended_mission};
ghost use Rattle.test_scenes.specs.Races.{end_of_mission_with_a_pool, awaited, route_after_the_yield};
ghost use Rattle.test_scenes.specs.Races.{wish_at_the_yield, cleared_elsewhere, cleared_with_a_pool};
ghost use Rattle.test_scenes.specs.Races.{cleared_over_the_border, whole_hand_is_cut};
ghost use Rattle.test_scenes.specs.Races.{session_opens_over_a_waiting_start};
ghost use Rattle.test_scenes.specs.Conditions.{yield_with_a_pool, cut_with_a_pool, cut_beyond_the_border};
ghost use Rattle.test_scenes.specs.Conditions.{request_again_over_the_border, request_while_asked};
ghost use Rattle.test_scenes.specs.Conditions.{proposal_ends_with_the_mission};
ghost use Rattle.test_scenes.specs.ThreeCentres.{border_of_the_first, second_takes_over, yield_with_a_third_home};
ghost use Rattle.test_scenes.specs.ThreeCentres.{wish_at_a_third_centre, each_home_gets_its_section_back};
ghost use Rattle.test_scenes.specs.ThreeCentres.{ended_mission_is_yielded, stands_still_before_the_third};
ghost use Rattle.test_scenes.specs.NotAllowed.{one_yield, two_yields};
ghost use Rattle.test_scenes.specs.OnePlaces.{has_one_place, keeps_one_place};

/// After each event of these scenes each thing is in one place. If a Yield is on the way twice, it is not.
pub fn each_thing_stays_in_one_place()
    ensures starts { list_all (keeps_one_place line)
        (right_comes ∷ right_goes_back ∷ right_serves_a_later_start ∷ ask_delivered_twice ∷ right_is_refused
        ∷ hand_outlives_the_session ∷ start_after_the_end_of_mission ∷ unset_of_the_first_section ∷ []) ≡ true }
    ensures requests { list_all (keeps_one_place line)
        (request_asks_over_the_border ∷ asks_again_each_round ∷ report_clears ∷ no_integrity_frees_nothing
        ∷ request_extends_over_the_border ∷ early_frame ∷ end_of_mission ∷ end_at_standstill
        ∷ end_at_standstill_with_a_wish ∷ []) ≡ true }
    ensures shortenings { list_all (keeps_one_place line)
        (unset_in_a_hand ∷ shortening_and_a_late_route ∷ answer_to_another_proposal ∷ granted_past_the_proposed_end
        ∷ another_answer_at_the_border ∷ asking_again_tries_again ∷ []) ≡ true }
    ensures handovers { list_all (keeps_one_place line)
        (handover ∷ return_after_handover ∷ yield_carries_the_last_stamp_heard ∷ cancelled_before_taking_over ∷ [])
        ≡ true }
    ensures late_frames { list_all (keeps_one_place line)
        (withdrawn_from_the_pool ∷ first_of_the_pool_withdrawn ∷ last_of_the_pool_withdrawn
        ∷ route_for_an_ended_mission ∷ end_of_mission_with_a_pool ∷ awaited ∷ route_after_the_yield ∷ wish_at_the_yield
        ∷ cleared_elsewhere ∷ cleared_with_a_pool ∷ cleared_over_the_border ∷ whole_hand_is_cut
        ∷ session_opens_over_a_waiting_start ∷ []) ≡ true }
    ensures conditions { list_all (keeps_one_place line)
        (yield_with_a_pool ∷ cut_with_a_pool ∷ cut_beyond_the_border ∷ request_again_over_the_border
        ∷ request_while_asked ∷ proposal_ends_with_the_mission ∷ []) ≡ true }
    ensures three_centres { list_all (keeps_one_place (line_of_three 0))
        (border_of_the_first ∷ second_takes_over ∷ yield_with_a_third_home ∷ wish_at_a_third_centre
        ∷ each_home_gets_its_section_back ∷ ended_mission_is_yielded ∷ stands_still_before_the_third ∷ []) ≡ true }
    ensures one_yield { has_one_place line one_yield ≡ true }
    ensures two_yields { has_one_place line two_yields ≡ false }
{}
