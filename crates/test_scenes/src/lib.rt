//! The definitions of the line and its centres, tried on scenes of small lines. The check computes the views of each
//! scene, and they have to be those that the written rules ask for. A scene is a list of events, with looks at the line
//! between them; the scenes are in `specs/`. Each scene is also met by a run of the one line centre (`IsMetByRun`). The
//! line centre has a piece for each event, and its state then is the one that is read off the centres. The functions
//! here do nothing.
//!
//! Expected values come from the standard or from the written rules, never from the program's own output.
#![tactic(auto)]

mod at_standstill;
mod late;
mod not_allowed;
mod one_places;
mod quiet_marks;
mod train_rules;

ghost use Rattle.std.specs.Prelude.{◌≡◌, [], ◌∷◌, None, Some, Ok, Err};
ghost use Rattle.rbc_spec.specs.Centre.{beginning};
ghost use Rattle.rbc_spec.specs.Frame.{RouteAsk, TakingOver};
ghost use Rattle.rbc_spec.specs.Step.{LinkFull};
ghost use Rattle.rbc_spec.specs.Step.Event.{Set};
ghost use Rattle.test_scenes.specs.Scene.{line, times, line_of_a_and_b, line_of_32_km, line_of_one, line_of_three};
ghost use Rattle.test_scenes.specs.Scene.{line_of_two_tracks, seen};
ghost use Rattle.test_scenes.specs.Starts.{nothing_happens, nothing_happens_shows, set_and_unset};
ghost use Rattle.test_scenes.specs.Starts.{set_and_unset_shows, session_opens, session_opens_shows};
ghost use Rattle.test_scenes.specs.Starts.{session_opens_again, session_opens_again_shows, trains_are_named};
ghost use Rattle.test_scenes.specs.Starts.{trains_are_named_show, session_opens_over_a_session};
ghost use Rattle.test_scenes.specs.Starts.{session_opens_over_a_session_shows, session_ends, session_ends_shows};
ghost use Rattle.test_scenes.specs.Starts.{messages_without_a_session, messages_without_a_session_show};
ghost use Rattle.test_scenes.specs.Starts.{messages_before_the_session_is_up, messages_before_the_session_is_up_show};
ghost use Rattle.test_scenes.specs.Starts.{messages_without_a_mission, messages_without_a_mission_show, first_reason};
ghost use Rattle.test_scenes.specs.Starts.{first_reason_shows, start_at_the_registrar, start_at_the_registrar_shows};
ghost use Rattle.test_scenes.specs.Starts.{start_at_a_shut_section, start_at_a_shut_section_shows};
ghost use Rattle.test_scenes.specs.Starts.{request_without_train_data, request_without_train_data_shows};
ghost use Rattle.test_scenes.specs.Starts.{hand_outlives_the_session, hand_outlives_the_session_shows};
ghost use Rattle.test_scenes.specs.Starts.{start_after_the_end_of_mission, start_after_the_end_of_mission_shows};
ghost use Rattle.test_scenes.specs.Starts.{unset_of_the_first_section, unset_of_the_first_section_shows, right_comes};
ghost use Rattle.test_scenes.specs.Starts.{right_comes_shows, right_goes_back, right_goes_back_shows};
ghost use Rattle.test_scenes.specs.Starts.{right_serves_a_later_start, right_serves_a_later_start_shows};
ghost use Rattle.test_scenes.specs.Starts.{ask_delivered_twice, ask_delivered_twice_shows, right_is_refused};
ghost use Rattle.test_scenes.specs.Starts.{right_is_refused_shows};
ghost use Rattle.test_scenes.specs.Requests.{request_asks_over_the_border, request_asks_over_the_border_shows};
ghost use Rattle.test_scenes.specs.Requests.{asks_again_each_round, asks_again_each_round_shows, end_of_the_track};
ghost use Rattle.test_scenes.specs.Requests.{end_of_the_track_shows, report_clears, report_clears_shows};
ghost use Rattle.test_scenes.specs.Requests.{no_integrity_frees_nothing, no_integrity_frees_nothing_shows};
ghost use Rattle.test_scenes.specs.Requests.{request_extends_over_the_border, request_extends_over_the_border_shows};
ghost use Rattle.test_scenes.specs.Requests.{early_frame, early_frame_shows, hand_of_32_sections};
ghost use Rattle.test_scenes.specs.Requests.{hand_of_32_sections_shows, end_within_reach_of_the_message};
ghost use Rattle.test_scenes.specs.Requests.{end_within_reach_of_the_message_shows, longest_authority};
ghost use Rattle.test_scenes.specs.Requests.{longest_authority_shows, one_metre_too_far, one_metre_too_far_shows};
ghost use Rattle.test_scenes.specs.Requests.{end_of_mission, end_of_mission_shows, end_at_standstill};
ghost use Rattle.test_scenes.specs.Requests.{end_at_standstill_shows, end_at_standstill_with_a_wish};
ghost use Rattle.test_scenes.specs.Requests.{end_at_standstill_with_a_wish_shows, end_before_the_hand};
ghost use Rattle.test_scenes.specs.Requests.{end_before_the_hand_shows, end_at_the_end_of_the_hand};
ghost use Rattle.test_scenes.specs.Requests.{end_at_the_end_of_the_hand_shows};
ghost use Rattle.test_scenes.specs.Shortening.{unset_in_a_hand, unset_in_a_hand_shows, start_drops_the_proposal};
ghost use Rattle.test_scenes.specs.Shortening.{start_drops_the_proposal_shows, shortening_in_one_centre};
ghost use Rattle.test_scenes.specs.Shortening.{shortening_in_one_centre_shows, shortening_and_a_late_route};
ghost use Rattle.test_scenes.specs.Shortening.{shortening_and_a_late_route_shows, answer_to_another_proposal};
ghost use Rattle.test_scenes.specs.Shortening.{answer_to_another_proposal_shows, granted_past_the_proposed_end};
ghost use Rattle.test_scenes.specs.Shortening.{granted_past_the_proposed_end_shows, another_answer_at_the_border};
ghost use Rattle.test_scenes.specs.Shortening.{another_answer_at_the_border_shows, asking_again_tries_again};
ghost use Rattle.test_scenes.specs.Shortening.{asking_again_tries_again_shows};
ghost use Rattle.test_scenes.specs.Handover.{handover, handover_shows, return_after_handover};
ghost use Rattle.test_scenes.specs.Handover.{return_after_handover_shows, yield_carries_the_last_stamp_heard};
ghost use Rattle.test_scenes.specs.Handover.{yield_carries_the_last_stamp_heard_shows, cancelled_before_taking_over};
ghost use Rattle.test_scenes.specs.Handover.{cancelled_before_taking_over_shows};
ghost use Rattle.test_scenes.specs.ThreeCentres.{border_of_the_first, border_of_the_first_shows, second_takes_over};
ghost use Rattle.test_scenes.specs.ThreeCentres.{second_takes_over_shows, yield_with_a_third_home};
ghost use Rattle.test_scenes.specs.ThreeCentres.{yield_with_a_third_home_shows, wish_at_a_third_centre};
ghost use Rattle.test_scenes.specs.ThreeCentres.{wish_at_a_third_centre_shows, any_two_are_linked};
ghost use Rattle.test_scenes.specs.ThreeCentres.{any_two_are_linked_shows, each_home_gets_its_section_back};
ghost use Rattle.test_scenes.specs.ThreeCentres.{each_home_gets_its_section_back_shows, ended_mission_is_yielded};
ghost use Rattle.test_scenes.specs.ThreeCentres.{ended_mission_is_yielded_shows, stands_still_before_the_third};
ghost use Rattle.test_scenes.specs.ThreeCentres.{stands_still_before_the_third_shows};
ghost use Rattle.test_scenes.specs.Pieces.{IsMetByRun, IsMetByForcedRun, IsLineRunOf};
ghost use Rattle.test_scenes.specs.SceneMoves.{another_answer_at_the_border_moves, answer_to_another_proposal_moves};
ghost use Rattle.test_scenes.specs.SceneMoves.{ask_delivered_twice_moves, asking_again_tries_again_moves};
ghost use Rattle.test_scenes.specs.SceneMoves.{asks_again_each_round_moves, cancelled_moves, early_frame_moves};
ghost use Rattle.test_scenes.specs.SceneMoves.{end_of_mission_moves, end_at_standstill_moves};
ghost use Rattle.test_scenes.specs.SceneMoves.{end_at_standstill_with_a_wish_moves, end_before_the_hand_moves};
ghost use Rattle.test_scenes.specs.SceneMoves.{end_at_the_end_of_the_hand_moves, end_of_the_track_moves};
ghost use Rattle.test_scenes.specs.SceneMoves.{end_within_reach_of_the_message_moves};
ghost use Rattle.test_scenes.specs.SceneMoves.{granted_past_the_proposed_end_moves, hand_of_32_sections_moves};
ghost use Rattle.test_scenes.specs.SceneMoves.{handed_over_moves, last_stamp_heard_moves, late_route_moves};
ghost use Rattle.test_scenes.specs.SceneMoves.{longest_authority_moves, no_integrity_moves, one_metre_too_far_moves};
ghost use Rattle.test_scenes.specs.SceneMoves.{over_the_border_moves, plain, report_clears_moves, return_moves};
ghost use Rattle.test_scenes.specs.SceneMoves.{right_comes_moves, right_is_refused_moves};
ghost use Rattle.test_scenes.specs.SceneMoves.{right_serves_a_later_start_moves, shortening_in_one_centre_moves};
ghost use Rattle.test_scenes.specs.SceneMoves.{start_drops_the_proposal_moves, start_moves, to_the_border_moves};
ghost use Rattle.test_scenes.specs.SceneMoves.{trains_are_named_moves, unset_in_a_hand_moves};
ghost use Rattle.test_scenes.specs.LateMoves.{from_the_first_moves, from_the_second_moves};
ghost use Rattle.test_scenes.specs.LateMoves.{ended_mission_is_yielded_moves, stands_still_before_the_third_moves};
ghost use Rattle.test_scenes.specs.LateMoves.{any_two_are_linked_moves, yield_with_a_third_home_moves};
ghost use Rattle.test_scenes.specs.LateMoves.{wish_at_a_third_centre_moves, each_home_gets_its_section_back_moves};
ghost use Rattle.test_scenes.specs.Conditions.{unset_without_a_session, unset_without_a_session_shows};
ghost use Rattle.test_scenes.specs.Conditions.{unset_after_the_end, unset_after_the_end_shows, unset_again};
ghost use Rattle.test_scenes.specs.Conditions.{unset_again_shows, front_before_the_hand, front_before_the_hand_shows};
ghost use Rattle.test_scenes.specs.Conditions.{front_in_the_section, front_in_the_section_shows};
ghost use Rattle.test_scenes.specs.Conditions.{section_out_of_reach, section_out_of_reach_shows, yield_with_a_pool};
ghost use Rattle.test_scenes.specs.Conditions.{yield_with_a_pool_shows, cut_with_a_pool, cut_with_a_pool_shows};
ghost use Rattle.test_scenes.specs.Conditions.{cut_beyond_the_border, cut_beyond_the_border_shows};
ghost use Rattle.test_scenes.specs.Conditions.{proposal_ends_with_the_session, proposal_ends_with_the_session_shows};
ghost use Rattle.test_scenes.specs.Conditions.{start_outside_the_hand, start_outside_the_hand_shows};
ghost use Rattle.test_scenes.specs.Conditions.{request_again_over_the_border, request_again_over_the_border_shows};
ghost use Rattle.test_scenes.specs.Conditions.{request_while_asked, request_while_asked_shows};
ghost use Rattle.test_scenes.specs.Conditions.{full_hand_at_the_border, full_hand_at_the_border_shows};
ghost use Rattle.test_scenes.specs.Conditions.{pool_out_of_reach, pool_out_of_reach_shows};
ghost use Rattle.test_scenes.specs.Conditions.{proposal_ends_with_the_mission, proposal_ends_with_the_mission_shows};
ghost use Rattle.test_scenes.specs.ConditionMoves.{unset_without_a_session_moves, unset_again_moves};
ghost use Rattle.test_scenes.specs.ConditionMoves.{front_before_the_hand_moves, front_in_the_section_moves};
ghost use Rattle.test_scenes.specs.ConditionMoves.{section_out_of_reach_moves, yield_with_a_pool_moves};
ghost use Rattle.test_scenes.specs.ConditionMoves.{cut_with_a_pool_moves, cut_beyond_the_border_moves};
ghost use Rattle.test_scenes.specs.ConditionMoves.{proposal_ends_with_the_session_moves};
ghost use Rattle.test_scenes.specs.ConditionMoves.{request_again_over_the_border_moves, request_while_asked_moves};
ghost use Rattle.test_scenes.specs.ConditionMoves.{full_hand_at_the_border_moves, pool_out_of_reach_moves};
ghost use Rattle.test_scenes.specs.ConditionMoves.{proposal_ends_with_the_mission_moves};
ghost use Rattle.test_scenes.specs.StrayFrames.{asking, announcing, expecting, taking_over, effects, deliveries};
ghost use Rattle.test_scenes.specs.StrayFrames.{strays_to_a, strays_from_c, strays_to_the_announcing};
ghost use Rattle.test_scenes.specs.StrayFrames.{strays_to_the_expecting, strays_to_the_taking};
ghost use Rattle.test_scenes.specs.StrayFrames.{fronts_before_the_track, taken_without_effect, calm_asking};
ghost use Rattle.test_scenes.specs.StrayFrames.{calm_announcing, calm_expecting, calm_taking, missions_taken};
ghost use Rattle.test_scenes.specs.StrayFrames.{mission_at};
ghost use Rattle.test_scenes.specs.Places.{reports_without_place, reports_without_place_shows};
ghost use Rattle.test_scenes.specs.Places.{requests_without_place, requests_without_place_show, hand_out_of_reach};
ghost use Rattle.test_scenes.specs.Places.{hand_out_of_reach_shows, starts_that_are_not_fit};
ghost use Rattle.test_scenes.specs.Places.{starts_that_are_not_fit_show, longest_train, longest_train_shows};
ghost use Rattle.test_scenes.specs.Places.{other_scale, other_scale_shows, own_stamp_after_a_yield};
ghost use Rattle.test_scenes.specs.Places.{own_stamp_after_a_yield_shows};
ghost use Rattle.test_scenes.specs.PlaceMoves.{requests_without_place_moves, hand_out_of_reach_moves};
ghost use Rattle.test_scenes.specs.PlaceMoves.{other_scale_moves, own_stamp_after_a_yield_moves};
ghost use Rattle.rbc_spec.specs.World.{new_world, world_run};
ghost use Rattle.test_scenes.specs.Limits.{asks_ahead, run_items, set_and_session, set_and_session_shows, stamps};
ghost use Rattle.test_scenes.specs.Limits.{having_sent, last_stamp_is_taken, last_stamp_is_taken_shows};
ghost use Rattle.test_scenes.specs.Limits.{stamp_past_the_last, stamp_past_the_last_shows, frame_without_a_link};
ghost use Rattle.test_scenes.specs.Limits.{frame_without_a_link_shows};

pub use at_standstill::standstill_at_the_start_of_a_section;
pub use late::{late_frames, races_met};
pub use not_allowed::{moves_not_allowed, two_yields_on_the_way};
pub use one_places::each_thing_stays_in_one_place;
pub use quiet_marks::only_an_admission_gives;
pub use train_rules::{
    all_parts_are_the_five_rules, each_part_of_the_rules_is_needed, trains_run_over_three_centres,
};

/// The replies to the interlocking, how sessions are opened and ended, and how missions start at the registrar and
/// elsewhere.
pub fn sessions_and_starts()
    ensures nothing_happens { seen line nothing_happens ≡ nothing_happens_shows }
    ensures set_and_unset { seen line set_and_unset ≡ set_and_unset_shows }
    ensures session_opens { seen line session_opens ≡ session_opens_shows }
    ensures session_opens_again { seen line session_opens_again ≡ session_opens_again_shows }
    ensures trains_are_named { seen line trains_are_named ≡ trains_are_named_show }
    ensures session_opens_over_a_session { seen line session_opens_over_a_session ≡ session_opens_over_a_session_shows }
    ensures session_ends { seen line session_ends ≡ session_ends_shows }
    ensures messages_without_a_session { seen line messages_without_a_session ≡ messages_without_a_session_show }
    ensures messages_before_the_session_is_up { seen line messages_before_the_session_is_up
        ≡ messages_before_the_session_is_up_show }
    ensures messages_without_a_mission { seen line messages_without_a_mission ≡ messages_without_a_mission_show }
    ensures first_reason { seen line first_reason ≡ first_reason_shows }
    ensures start_at_the_registrar { seen line start_at_the_registrar ≡ start_at_the_registrar_shows }
    ensures start_at_a_shut_section { seen line start_at_a_shut_section ≡ start_at_a_shut_section_shows }
    ensures request_without_train_data { seen line request_without_train_data ≡ request_without_train_data_shows }
    ensures hand_outlives_the_session { seen line hand_outlives_the_session ≡ hand_outlives_the_session_shows }
    ensures start_after_the_end_of_mission { seen line start_after_the_end_of_mission
        ≡ start_after_the_end_of_mission_shows }
    ensures unset_of_the_first_section { seen line unset_of_the_first_section ≡ unset_of_the_first_section_shows }
    ensures right_comes { seen line right_comes ≡ right_comes_shows }
    ensures right_goes_back { seen line right_goes_back ≡ right_goes_back_shows }
    ensures right_serves_a_later_start { seen line right_serves_a_later_start ≡ right_serves_a_later_start_shows }
    ensures ask_delivered_twice { seen line ask_delivered_twice ≡ ask_delivered_twice_shows }
    ensures right_is_refused { seen line right_is_refused ≡ right_is_refused_shows }
{}

/// How a hand is extended up to a border and over it, and cleared in rear of the train.
pub fn requests_and_reports()
    ensures request_asks_over_the_border { seen line request_asks_over_the_border ≡ request_asks_over_the_border_shows }
    ensures asks_again_each_round { seen line asks_again_each_round ≡ asks_again_each_round_shows }
    ensures end_of_the_track { seen line_of_two_tracks end_of_the_track ≡ end_of_the_track_shows }
    ensures report_clears { seen line report_clears ≡ report_clears_shows }
    ensures no_integrity_frees_nothing { seen line no_integrity_frees_nothing ≡ no_integrity_frees_nothing_shows }
    ensures request_extends_over_the_border { seen line request_extends_over_the_border
        ≡ request_extends_over_the_border_shows }
    ensures early_frame { seen line early_frame ≡ early_frame_shows }
    ensures hand_of_32_sections { seen (line_of_one 40 100) hand_of_32_sections ≡ hand_of_32_sections_shows }
    ensures end_within_reach_of_the_message { seen (line_of_one 20 2000) end_within_reach_of_the_message
        ≡ end_within_reach_of_the_message_shows }
    ensures longest_authority { seen (line_of_32_km 767) longest_authority ≡ longest_authority_shows }
    ensures one_metre_too_far { seen (line_of_32_km 768) one_metre_too_far ≡ one_metre_too_far_shows }
    ensures end_of_mission { seen line end_of_mission ≡ end_of_mission_shows }
    ensures end_at_standstill { seen line end_at_standstill ≡ end_at_standstill_shows }
    ensures end_at_standstill_with_a_wish { seen line end_at_standstill_with_a_wish
        ≡ end_at_standstill_with_a_wish_shows }
    ensures end_before_the_hand { seen line end_before_the_hand ≡ end_before_the_hand_shows }
    ensures end_at_the_end_of_the_hand { seen line end_at_the_end_of_the_hand ≡ end_at_the_end_of_the_hand_shows }
{}

/// How a section of a hand is wished back, and the train's answer.
pub fn authorities_shortened()
    ensures unset_in_a_hand { seen line unset_in_a_hand ≡ unset_in_a_hand_shows }
    ensures start_drops_the_proposal { seen (line_of_one 8 1000) start_drops_the_proposal
        ≡ start_drops_the_proposal_shows }
    ensures shortening_in_one_centre { seen (line_of_one 8 1000) shortening_in_one_centre
        ≡ shortening_in_one_centre_shows }
    ensures shortening_and_a_late_route { seen line shortening_and_a_late_route ≡ shortening_and_a_late_route_shows }
    ensures answer_to_another_proposal { seen line answer_to_another_proposal ≡ answer_to_another_proposal_shows }
    ensures granted_past_the_proposed_end { seen line granted_past_the_proposed_end
        ≡ granted_past_the_proposed_end_shows }
    ensures another_answer_at_the_border { seen line another_answer_at_the_border ≡ another_answer_at_the_border_shows }
    ensures asking_again_tries_again { seen line asking_again_tries_again ≡ asking_again_tries_again_shows }
{}

/// How a train is handed over, and how its handover is cancelled.
pub fn trains_handed_over()
    ensures handover { seen line handover ≡ handover_shows }
    ensures return_after_handover { seen line return_after_handover ≡ return_after_handover_shows }
    ensures yield_carries_the_last_stamp_heard { seen line yield_carries_the_last_stamp_heard
        ≡ yield_carries_the_last_stamp_heard_shows }
    ensures cancelled_before_taking_over { seen line cancelled_before_taking_over ≡ cancelled_before_taking_over_shows }
{}

/// How a train goes over three centres.
pub fn over_three_centres()
    ensures border_of_the_first { seen (line_of_three 0) border_of_the_first ≡ border_of_the_first_shows }
    ensures second_takes_over { seen (line_of_three 0) second_takes_over ≡ second_takes_over_shows }
    ensures yield_with_a_third_home { seen (line_of_three 0) yield_with_a_third_home ≡ yield_with_a_third_home_shows }
    ensures wish_at_a_third_centre { seen (line_of_three 0) wish_at_a_third_centre ≡ wish_at_a_third_centre_shows }
    ensures any_two_are_linked { seen (line_of_three 1) any_two_are_linked ≡ any_two_are_linked_shows }
    ensures each_home_gets_its_section_back { seen (line_of_three 0) each_home_gets_its_section_back
        ≡ each_home_gets_its_section_back_shows }
    ensures ended_mission_is_yielded { seen (line_of_three 0) ended_mission_is_yielded
        ≡ ended_mission_is_yielded_shows }
    ensures stands_still_before_the_third { seen (line_of_three 0) stands_still_before_the_third
        ≡ stands_still_before_the_third_shows }
{}

/// Refused steps, the answer to a frame of a centre without a link, and the answers of a run. No section in advance of
/// the 512th is asked for.
pub fn refused_steps()
    ensures last_stamp { stamps line last_stamp_is_taken (beginning line 0) ≡ last_stamp_is_taken_shows }
    ensures past_the_last { stamps line stamp_past_the_last (beginning line 0) ≡ stamp_past_the_last_shows }
    ensures no_link { stamps (line_of_three 1) frame_without_a_link (beginning (line_of_three 1) 0)
        ≡ frame_without_a_link_shows }
    ensures three_numbers_left { stamps line (Set 0 ∷ []) (having_sent 65533) ≡ Err LinkFull ∷ [] }
    ensures whole_run { run_items (world_run line (new_world line) set_and_session) ≡ set_and_session_shows }
    ensures full_hand { asks_ahead (record { first = 470; count = 5 }) ≡ RouteAsk 1 475 27 ∷ [] }
    ensures last_section { asks_ahead (record { first = 490; count = 5 }) ≡ RouteAsk 1 495 17 ∷ [] }
    ensures four_numbers_left { stamps line (Set 0 ∷ []) (having_sent 65532) ≡ Ok (1, None) ∷ [] }
{}

/// The one line centre meets the scenes of sessions and starts. For one start the whole state of the line centre is
/// shown to represent the centres.
pub fn starts_met()
    ensures nothing_happens { IsMetByRun line nothing_happens (plain nothing_happens) }
    ensures set_and_unset { IsMetByRun line set_and_unset (plain set_and_unset) }
    ensures session_opens { IsMetByRun line session_opens (plain session_opens) }
    ensures session_opens_again { IsMetByRun line session_opens_again (plain session_opens_again) }
    ensures trains_are_named { IsMetByRun line trains_are_named trains_are_named_moves }
    ensures session_opens_over_a_session { IsMetByRun line session_opens_over_a_session
        (plain session_opens_over_a_session) }
    ensures session_ends { IsMetByRun line session_ends (plain session_ends) }
    ensures messages_without_a_session { IsMetByRun line messages_without_a_session (plain messages_without_a_session) }
    ensures messages_before_the_session_is_up { IsMetByRun line messages_before_the_session_is_up
        (plain messages_before_the_session_is_up) }
    ensures messages_without_a_mission { IsMetByRun line messages_without_a_mission (plain messages_without_a_mission) }
    ensures first_reason { IsMetByRun line first_reason (plain first_reason) }
    ensures start_at_the_registrar { IsMetByRun line start_at_the_registrar start_moves }
    ensures start_at_a_shut_section { IsMetByRun line start_at_a_shut_section (plain start_at_a_shut_section) }
    ensures request_without_train_data { IsMetByRun line request_without_train_data (plain request_without_train_data) }
    ensures hand_outlives_the_session { IsMetByRun line hand_outlives_the_session (plain hand_outlives_the_session) }
    ensures start_after_the_end_of_mission { IsMetByRun line start_after_the_end_of_mission
        (plain start_after_the_end_of_mission) }
    ensures unset_of_the_first_section { IsMetByRun line unset_of_the_first_section (plain unset_of_the_first_section) }
    ensures right_comes { IsMetByRun line right_comes right_comes_moves }
    ensures right_goes_back { IsMetByRun line right_goes_back (plain right_goes_back) }
    ensures right_serves_a_later_start { IsMetByRun line right_serves_a_later_start right_serves_a_later_start_moves }
    ensures ask_delivered_twice { IsMetByRun line ask_delivered_twice ask_delivered_twice_moves }
    ensures right_is_refused { IsMetByRun line right_is_refused right_is_refused_moves }
    ensures whole { IsLineRunOf line start_at_the_registrar }
{}

/// The one line centre meets the scenes of requests and reports.
pub fn requests_met()
    ensures request_asks_over_the_border { IsMetByRun line request_asks_over_the_border to_the_border_moves }
    ensures asks_again_each_round { IsMetByRun line asks_again_each_round asks_again_each_round_moves }
    ensures end_of_the_track { IsMetByRun line_of_two_tracks end_of_the_track end_of_the_track_moves }
    ensures report_clears { IsMetByRun line report_clears report_clears_moves }
    ensures no_integrity_frees_nothing { IsMetByRun line no_integrity_frees_nothing no_integrity_moves }
    ensures request_extends_over_the_border { IsMetByRun line request_extends_over_the_border over_the_border_moves }
    ensures early_frame { IsMetByRun line early_frame early_frame_moves }
    ensures hand_of_32_sections { IsMetByRun (line_of_one 40 100) hand_of_32_sections hand_of_32_sections_moves }
    ensures end_within_reach_of_the_message { IsMetByRun
        (line_of_one 20 2000) end_within_reach_of_the_message end_within_reach_of_the_message_moves }
    ensures longest_authority { IsMetByRun (line_of_32_km 767) longest_authority longest_authority_moves }
    ensures one_metre_too_far { IsMetByRun (line_of_32_km 768) one_metre_too_far one_metre_too_far_moves }
    ensures end_of_mission { IsMetByRun line end_of_mission end_of_mission_moves }
    ensures end_at_standstill { IsMetByRun line end_at_standstill end_at_standstill_moves }
    ensures end_at_standstill_with_a_wish { IsMetByRun line end_at_standstill_with_a_wish
        end_at_standstill_with_a_wish_moves }
    ensures end_before_the_hand { IsMetByRun line end_before_the_hand end_before_the_hand_moves }
    ensures end_at_the_end_of_the_hand { IsMetByRun line end_at_the_end_of_the_hand end_at_the_end_of_the_hand_moves }
{}

/// The one line centre meets the scenes of requests to shorten.
pub fn shortenings_met()
    ensures unset_in_a_hand { IsMetByRun line unset_in_a_hand unset_in_a_hand_moves }
    ensures start_drops_the_proposal { IsMetByRun
        (line_of_one 8 1000) start_drops_the_proposal start_drops_the_proposal_moves }
    ensures shortening_in_one_centre { IsMetByRun
        (line_of_one 8 1000) shortening_in_one_centre shortening_in_one_centre_moves }
    ensures shortening_and_a_late_route { IsMetByRun line shortening_and_a_late_route late_route_moves }
    ensures answer_to_another_proposal { IsMetByRun line answer_to_another_proposal answer_to_another_proposal_moves }
    ensures granted_past_the_proposed_end { IsMetByRun line granted_past_the_proposed_end
        granted_past_the_proposed_end_moves }
    ensures another_answer_at_the_border { IsMetByRun line another_answer_at_the_border
        another_answer_at_the_border_moves }
    ensures asking_again_tries_again { IsMetByRun line asking_again_tries_again asking_again_tries_again_moves }
{}

/// The one line centre meets the scenes of handovers.
pub fn handovers_met()
    ensures handover { IsMetByRun line handover (handed_over_moves 7) }
    ensures return_after_handover { IsMetByRun line return_after_handover return_moves }
    ensures yield_carries_the_last_stamp_heard { IsMetByRun line yield_carries_the_last_stamp_heard
        last_stamp_heard_moves }
    ensures cancelled_before_taking_over { IsMetByRun line cancelled_before_taking_over cancelled_moves }
{}

/// The one line centre meets the scenes of three centres.
pub fn three_centres_met()
    ensures border_of_the_first { IsMetByRun (line_of_three 0) border_of_the_first from_the_first_moves }
    ensures second_takes_over { IsMetByRun (line_of_three 0) second_takes_over from_the_second_moves }
    ensures yield_with_a_third_home { IsMetByRun
        (line_of_three 0) yield_with_a_third_home yield_with_a_third_home_moves }
    ensures wish_at_a_third_centre { IsMetByRun (line_of_three 0) wish_at_a_third_centre wish_at_a_third_centre_moves }
    ensures any_two_are_linked { IsMetByRun (line_of_three 1) any_two_are_linked any_two_are_linked_moves }
    ensures each_home_gets_its_section_back { IsMetByRun
        (line_of_three 0) each_home_gets_its_section_back each_home_gets_its_section_back_moves }
    ensures ended_mission_is_yielded { IsMetByRun
        (line_of_three 0) ended_mission_is_yielded ended_mission_is_yielded_moves }
    ensures stands_still_before_the_third { IsMetByRun
        (line_of_three 0) stands_still_before_the_third stands_still_before_the_third_moves }
{}

/// Scenes in which a single condition decides.
pub fn single_conditions()
    ensures unset_without_a_session { seen line unset_without_a_session ≡ unset_without_a_session_shows }
    ensures unset_after_the_end { seen line unset_after_the_end ≡ unset_after_the_end_shows }
    ensures unset_again { seen line unset_again ≡ unset_again_shows }
    ensures front_before_the_hand { seen line front_before_the_hand ≡ front_before_the_hand_shows }
    ensures front_in_the_section { seen line front_in_the_section ≡ front_in_the_section_shows }
    ensures section_out_of_reach { seen (line_of_one 20 2000) section_out_of_reach ≡ section_out_of_reach_shows }
    ensures yield_with_a_pool { seen line yield_with_a_pool ≡ yield_with_a_pool_shows }
    ensures cut_with_a_pool { seen line cut_with_a_pool ≡ cut_with_a_pool_shows }
    ensures cut_beyond_the_border { seen line cut_beyond_the_border ≡ cut_beyond_the_border_shows }
    ensures proposal_ends_with_the_session { seen line proposal_ends_with_the_session
        ≡ proposal_ends_with_the_session_shows }
    ensures start_outside_the_hand { seen line start_outside_the_hand ≡ start_outside_the_hand_shows }
    ensures request_again_over_the_border { seen line request_again_over_the_border
        ≡ request_again_over_the_border_shows }
    ensures request_while_asked { seen line request_while_asked ≡ request_while_asked_shows }
    ensures full_hand_at_the_border { seen (line_of_a_and_b 32 4 100) full_hand_at_the_border
        ≡ full_hand_at_the_border_shows }
    ensures pool_out_of_reach { seen (line_of_a_and_b 10 10 2000) pool_out_of_reach ≡ pool_out_of_reach_shows }
    ensures proposal_ends_with_the_mission { seen line proposal_ends_with_the_mission
        ≡ proposal_ends_with_the_mission_shows }
{}

/// The one line centre meets the scenes of single conditions.
pub fn conditions_met()
    ensures unset_without_a_session { IsMetByRun line unset_without_a_session unset_without_a_session_moves }
    ensures unset_after_the_end { IsMetByRun line unset_after_the_end (plain unset_after_the_end) }
    ensures unset_again { IsMetByRun line unset_again unset_again_moves }
    ensures front_before_the_hand { IsMetByRun line front_before_the_hand front_before_the_hand_moves }
    ensures front_in_the_section { IsMetByRun line front_in_the_section front_in_the_section_moves }
    ensures section_out_of_reach { IsMetByRun (line_of_one 20 2000) section_out_of_reach section_out_of_reach_moves }
    ensures yield_with_a_pool { IsMetByRun line yield_with_a_pool yield_with_a_pool_moves }
    ensures cut_with_a_pool { IsMetByRun line cut_with_a_pool cut_with_a_pool_moves }
    ensures cut_beyond_the_border { IsMetByRun line cut_beyond_the_border cut_beyond_the_border_moves }
    ensures proposal_ends_with_the_session { IsMetByRun line proposal_ends_with_the_session
        proposal_ends_with_the_session_moves }
    ensures start_outside_the_hand { IsMetByRun line start_outside_the_hand (plain start_outside_the_hand) }
    ensures request_again_over_the_border { IsMetByRun line request_again_over_the_border
        request_again_over_the_border_moves }
    ensures request_while_asked { IsMetByRun line request_while_asked request_while_asked_moves }
    ensures full_hand_at_the_border { IsMetByRun
        (line_of_a_and_b 32 4 100) full_hand_at_the_border full_hand_at_the_border_moves }
    ensures pool_out_of_reach { IsMetByRun (line_of_a_and_b 10 10 2000) pool_out_of_reach pool_out_of_reach_moves }
    ensures proposal_ends_with_the_mission { IsMetByRun line proposal_ends_with_the_mission
        proposal_ends_with_the_mission_moves }
{}

/// If one centre has the whole line, the run leaves the line centre no choice.
pub fn one_centre_met()
    ensures start_drops_the_proposal { IsMetByForcedRun (line_of_one 8 1000) 0 start_drops_the_proposal }
    ensures shortening_in_one_centre { IsMetByForcedRun (line_of_one 8 1000) 0 shortening_in_one_centre }
    ensures hand_of_32_sections { IsMetByForcedRun (line_of_one 40 100) 0 hand_of_32_sections }
    ensures section_out_of_reach { IsMetByForcedRun (line_of_one 20 2000) 0 section_out_of_reach }
{}

/// Frames that no world sends have no effect but on the clock and the count of frames taken.
pub fn stray_frames()
    ensures to_a { effects line 0 1 asking strays_to_a ≡ times 24 calm_asking }
    ensures from_c { effects line 0 2 asking strays_from_c ≡ times 1 calm_asking }
    ensures to_the_announcing { effects line 0 1 announcing strays_to_the_announcing ≡ times 3 calm_announcing }
    ensures of_another_centre { effects line 0 2 announcing (TakingOver 1 1 ∷ []) ≡ times 1 calm_announcing }
    ensures to_the_expecting { effects line 1 0 expecting strays_to_the_expecting ≡ times 4 calm_expecting }
    ensures to_the_taking { effects line 1 0 taking_over strays_to_the_taking ≡ times 8 calm_taking }
    ensures before_the_track { deliveries line 1 0 4 taking_over fronts_before_the_track
        ≡ times 2 (taken_without_effect 4 calm_taking) }
    ensures yields_taken { missions_taken ≡ Some (mission_at 16200) ∷ Some (mission_at 10000) ∷ [] }
{}

/// The place of a train by its position packet. The effect of a packet that gives no place, or is not fit for a start.
pub fn placed()
    ensures reports_without_place { seen line reports_without_place ≡ reports_without_place_shows }
    ensures requests_without_place { seen line requests_without_place ≡ requests_without_place_show }
    ensures hand_out_of_reach { seen (line_of_one 20 2000) hand_out_of_reach ≡ hand_out_of_reach_shows }
    ensures starts_that_are_not_fit { seen (line_of_one 8 1000) starts_that_are_not_fit ≡ starts_that_are_not_fit_show }
    ensures longest_train { seen (line_of_one 40 100) longest_train ≡ longest_train_shows }
    ensures other_scale { seen line other_scale ≡ other_scale_shows }
    ensures own_stamp_after_a_yield { seen line own_stamp_after_a_yield ≡ own_stamp_after_a_yield_shows }
{}

/// The one line centre meets the scenes of places.
pub fn places_met()
    ensures reports_without_place { IsMetByRun line reports_without_place (plain reports_without_place) }
    ensures requests_without_place { IsMetByRun line requests_without_place requests_without_place_moves }
    ensures hand_out_of_reach { IsMetByRun (line_of_one 20 2000) hand_out_of_reach hand_out_of_reach_moves }
    ensures starts_that_are_not_fit { IsMetByRun (line_of_one 8 1000) starts_that_are_not_fit
        (plain starts_that_are_not_fit) }
    ensures longest_train { IsMetByRun (line_of_one 40 100) longest_train (plain longest_train) }
    ensures other_scale { IsMetByRun line other_scale other_scale_moves }
    ensures own_stamp_after_a_yield { IsMetByRun line own_stamp_after_a_yield own_stamp_after_a_yield_moves }
{}
