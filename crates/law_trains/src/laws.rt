//! Laws of trains that obey.

ghost use Rattle.std.specs.Prelude.{◌≡◌, ◌≤◌, ℕ, Bool, List, Some};
ghost use Rattle.rbc_spec.specs.Line.{Line, IsLine};
ghost use Rattle.rbc_spec.specs.LineCentre.{LineState, line_beginning};
ghost use Rattle.rbc_spec.specs.World.{Event, Answer};
ghost use Rattle.rbc_spec.specs.Run.{Goes, Run};
ghost use Rattle.law_trains.specs.Trains.{AllMay, all_after, answers_of, at_first, events_of, IsNew, IsSafeLoop};
ghost use Rattle.law_trains.specs.Trains.{Moment, Train, TrainsTheorem};

/// Trains that obey five rules never meet. No two of them that are accepted are ever on one section. None is on a
/// section that the interlocking has not released, or has taken back. So it is for every line and every list of
/// moments, whatever the radio, the frames between centres and other trains do.
pub fn trains_that_obey_never_meet()
    ensures { TrainsTheorem }
{}

/// The same of each run of the one line centre.
pub fn trains_that_obey_one_line_centre_never_meet()
    ensures { (line : Line) (obeys : ℕ → Bool) (train : ℕ → Train) (moments : List Moment) (last : LineState)
        → IsLine line → ((t : ℕ) → IsNew (train t)) → AllMay line obeys (at_first train) moments
        → Run line line_beginning (events_of moments) (answers_of moments) last
        → IsSafeLoop line obeys (all_after line moments (at_first train)) }
{}

/// The last T_TRAIN that a centre received from a train never falls, whatever happens.
pub fn a_received_stamp_never_falls()
    ensures { (line : Line) (v new : LineState) (event : Event) (answer : Answer) (t c n : ℕ)
        → Goes line v event answer new → v.heard t c ≡ Some n → (k : ℕ) × (new.heard t c ≡ Some k) × (n ≤ k) }
{}
