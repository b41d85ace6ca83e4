//! Moves that the one line centre does not allow, and a world that no state of it represents.

ghost use Rattle.std.specs.Prelude.{◌≡◌, [], ◌∷◌, Some};
ghost use Rattle.rbc_spec.specs.LineCentre.{LineState};
ghost use Rattle.rbc_spec.specs.Outcome.{Outcome, Reason, Told};
ghost use Rattle.rbc_spec.specs.Quiet.{Keep};
ghost use Rattle.rbc_spec.specs.Run.{Piece};
ghost use Rattle.rbc_spec.specs.World.{Event, Set};
ghost use Rattle.rbc_spec.specs.ReadOff.{StandsFor};
ghost use Rattle.test_scenes.specs.Scene.{line};
ghost use Rattle.test_scenes.specs.NotAllowed.{shown_at, kept_at_home, kept_at_home_shows, kept_elsewhere};
ghost use Rattle.test_scenes.specs.NotAllowed.{kept_elsewhere_shows, silent_alone, silent_alone_shows};
ghost use Rattle.test_scenes.specs.NotAllowed.{kept_after_silence, kept_after_silence_shows, told_in_order};
ghost use Rattle.test_scenes.specs.NotAllowed.{told_in_order_shows, told_out_of_order, told_out_of_order_shows};
ghost use Rattle.test_scenes.specs.NotAllowed.{one_yield, two_yields, missions_in};

/// No quiet step of another centre is in an event's piece, and none follows a silent message. No `Told` for a section
/// precedes that for a lower one.
pub fn moves_not_allowed()
    ensures at_home { shown_at kept_at_home ≡ kept_at_home_shows }
    ensures elsewhere { shown_at kept_elsewhere ≡ kept_elsewhere_shows }
    ensures silent { shown_at silent_alone ≡ silent_alone_shows }
    ensures after_silence { shown_at kept_after_silence ≡ kept_after_silence_shows }
    ensures in_order { shown_at told_in_order ≡ told_in_order_shows }
    ensures out_of_order { shown_at told_out_of_order ≡ told_out_of_order_shows }
    // No piece has such steps, whatever the state.
    ensures none_elsewhere { (v new : LineState) (outcome : Outcome) (piece : Piece line v (Set 0 0) outcome new)
        → piece.quiets ≡ Keep 1 4 ∷ [] → ⊥ }
    ensures none_after_silence { (v new : LineState) (event : Event) (outcome : Outcome) (why : Reason)
        (piece : Piece line v event outcome new)
        → outcome.silence ≡ Some why → piece.quiets ≡ [] }
    ensures none_out_of_order { (v new : LineState) (event : Event) (outcome : Outcome) → Piece line v event outcome new
        → outcome.words ≡ Told 5 ∷ Told 4 ∷ [] → ⊥ }
{}

/// Two Yields of one train are on the way, and no state represents that.
pub fn two_yields_on_the_way()
    ensures one { missions_in one_yield ≡ 1 }
    ensures two { missions_in two_yields ≡ 2 }
    ensures no_state { (v : LineState) → StandsFor line two_yields v → ⊥ }
{}
