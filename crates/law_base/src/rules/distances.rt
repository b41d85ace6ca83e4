//! Laws of distances in metres: no rule subtracts more than there is.

ghost use Rattle.std.specs.Prelude.{◌≡◌, ℕ, ◌-◌, ◌≤◌, true, false, Some};
ghost use Rattle.rbc_spec.specs.SectionRuns.{next_after, is_empty};
ghost use Rattle.rbc_spec.specs.Line.{Line, IsLine, start, end};
ghost use Rattle.rbc_spec.specs.Sections.{is_on};
ghost use Rattle.rbc_spec.specs.Place.{Place, Position, extent, group_start};
ghost use Rattle.rbc_spec.specs.Message.{TrainMessage};
ghost use Rattle.rbc_spec.specs.Centre.{Centre, Mission};
ghost use Rattle.rbc_spec.specs.Acts.{may_propose, part_at};
ghost use Rattle.law_base.specs.Rules.Distances.{IsAhead, IsRequestHeard, extended};

/// The front of a report's place is not before the group that the report names.
pub fn a_place_is_ahead_of_its_group()
    ensures { (line : Line) (p : Position) (place : Place) → extent line p ≡ Some place → IsAhead line place }
{}

/// The distances in a centre's messages to a train are counted from the group of its place. The positions that they
/// name are not in rear of that group.
pub fn no_distance_is_cut()
    // An authority for an answered request, if the hand's last section is of the track.
    ensures authority { (line : Line) (c : ℕ) (k : Centre) (m : TrainMessage) (n : Mission) (place : Place)
        → IsRequestHeard line c k m n place → is_on line place.track (next_after n.hand - 1) ≡ true
        → group_start line place ≤ end line (next_after (extended line c k place n).hand - 1) }
    // A request to shorten, if the front is not before the group.
    ensures shortening { (line : Line) (t s : ℕ) (m : Mission) (k : Centre) → IsAhead line m.place
        → may_propose line t s m k ≡ true
        → group_start line m.place ≤ start line s }
    // An announced border that the request brought into the hand.
    ensures border { (line : Line) (c d : ℕ) (k : Centre) (m : TrainMessage) (n : Mission) (place : Place) → IsLine line
        → IsRequestHeard line c k m n place → is_on line place.track (next_after n.hand - 1) ≡ true
        → is_empty n.hand ≡ false
        → is_empty (part_at line d place.track n.hand) ≡ true
        → is_empty (part_at line d place.track (extended line c k place n).hand) ≡ false
        → group_start line place ≤ start line (part_at line d place.track (extended line c k place n).hand).first }
{}
