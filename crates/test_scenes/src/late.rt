//! Scenes of late frames, and of sections that are wished back, asked for or returned while frames are on the way.

ghost use Rattle.std.specs.Prelude.{◌≡◌};
ghost use Rattle.test_scenes.specs.Scene.{line, seen};
ghost use Rattle.test_scenes.specs.Races.{withdrawn_from_the_pool, withdrawn_from_the_pool_shows};
ghost use Rattle.test_scenes.specs.Races.{first_of_the_pool_withdrawn, first_of_the_pool_withdrawn_shows};
ghost use Rattle.test_scenes.specs.Races.{last_of_the_pool_withdrawn, last_of_the_pool_withdrawn_shows};
ghost use Rattle.test_scenes.specs.Races.{route_for_an_ended_mission, route_for_an_ended_mission_shows};
ghost use Rattle.test_scenes.specs.Races.{end_of_mission_with_a_pool, end_of_mission_with_a_pool_shows, awaited};
ghost use Rattle.test_scenes.specs.Races.{awaited_shows, route_after_the_yield, route_after_the_yield_shows};
ghost use Rattle.test_scenes.specs.Races.{wish_at_the_yield, wish_at_the_yield_shows, cleared_elsewhere};
ghost use Rattle.test_scenes.specs.Races.{cleared_elsewhere_shows, cleared_with_a_pool, cleared_with_a_pool_shows};
ghost use Rattle.test_scenes.specs.Races.{cleared_over_the_border, cleared_over_the_border_shows, whole_hand_is_cut};
ghost use Rattle.test_scenes.specs.Races.{whole_hand_is_cut_shows, session_opens_over_a_waiting_start};
ghost use Rattle.test_scenes.specs.Races.{session_opens_over_a_waiting_start_shows};
ghost use Rattle.test_scenes.specs.Pieces.{IsMetByRun};
ghost use Rattle.test_scenes.specs.SceneMoves.{plain};
ghost use Rattle.test_scenes.specs.LateMoves.{awaited_moves, cleared_elsewhere_moves, cleared_over_the_border_moves};
ghost use Rattle.test_scenes.specs.LateMoves.{cleared_with_a_pool_moves, end_of_mission_with_a_pool_moves};
ghost use Rattle.test_scenes.specs.LateMoves.{first_of_the_pool_withdrawn_moves, last_of_the_pool_withdrawn_moves};
ghost use Rattle.test_scenes.specs.LateMoves.{route_after_the_yield_moves, route_for_an_ended_mission_moves};
ghost use Rattle.test_scenes.specs.LateMoves.{whole_hand_is_cut_moves, wish_at_the_yield_moves};
ghost use Rattle.test_scenes.specs.LateMoves.{withdrawn_from_the_pool_moves};

/// The effects of late frames, with a wish, an end or a Yield meanwhile.
pub fn late_frames()
    ensures withdrawn_from_the_pool { seen line withdrawn_from_the_pool ≡ withdrawn_from_the_pool_shows }
    ensures first_of_the_pool_withdrawn { seen line first_of_the_pool_withdrawn ≡ first_of_the_pool_withdrawn_shows }
    ensures last_of_the_pool_withdrawn { seen line last_of_the_pool_withdrawn ≡ last_of_the_pool_withdrawn_shows }
    ensures route_for_an_ended_mission { seen line route_for_an_ended_mission ≡ route_for_an_ended_mission_shows }
    ensures end_of_mission_with_a_pool { seen line end_of_mission_with_a_pool ≡ end_of_mission_with_a_pool_shows }
    ensures awaited { seen line awaited ≡ awaited_shows }
    ensures route_after_the_yield { seen line route_after_the_yield ≡ route_after_the_yield_shows }
    ensures wish_at_the_yield { seen line wish_at_the_yield ≡ wish_at_the_yield_shows }
    ensures cleared_elsewhere { seen line cleared_elsewhere ≡ cleared_elsewhere_shows }
    ensures cleared_with_a_pool { seen line cleared_with_a_pool ≡ cleared_with_a_pool_shows }
    ensures cleared_over_the_border { seen line cleared_over_the_border ≡ cleared_over_the_border_shows }
    ensures whole_hand_is_cut { seen line whole_hand_is_cut ≡ whole_hand_is_cut_shows }
    ensures session_opens_over_a_waiting_start { seen line session_opens_over_a_waiting_start
        ≡ session_opens_over_a_waiting_start_shows }
{}

/// The one line centre meets the scenes of late frames.
pub fn races_met()
    ensures withdrawn_from_the_pool { IsMetByRun line withdrawn_from_the_pool withdrawn_from_the_pool_moves }
    ensures first_of_the_pool_withdrawn { IsMetByRun line first_of_the_pool_withdrawn
        first_of_the_pool_withdrawn_moves }
    ensures last_of_the_pool_withdrawn { IsMetByRun line last_of_the_pool_withdrawn last_of_the_pool_withdrawn_moves }
    ensures route_for_an_ended_mission { IsMetByRun line route_for_an_ended_mission route_for_an_ended_mission_moves }
    ensures end_of_mission_with_a_pool { IsMetByRun line end_of_mission_with_a_pool end_of_mission_with_a_pool_moves }
    ensures awaited { IsMetByRun line awaited awaited_moves }
    ensures route_after_the_yield { IsMetByRun line route_after_the_yield route_after_the_yield_moves }
    ensures wish_at_the_yield { IsMetByRun line wish_at_the_yield wish_at_the_yield_moves }
    ensures cleared_elsewhere { IsMetByRun line cleared_elsewhere cleared_elsewhere_moves }
    ensures cleared_with_a_pool { IsMetByRun line cleared_with_a_pool cleared_with_a_pool_moves }
    ensures cleared_over_the_border { IsMetByRun line cleared_over_the_border cleared_over_the_border_moves }
    ensures whole_hand_is_cut { IsMetByRun line whole_hand_is_cut whole_hand_is_cut_moves }
    ensures session_opens_over_a_waiting_start { IsMetByRun line session_opens_over_a_waiting_start
        (plain session_opens_over_a_waiting_start) }
{}
