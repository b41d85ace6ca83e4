ghost use Rattle.std.specs.Prelude.{◌≡◌, ◌<◌, ◌+◌, ◌-◌, ℕ};
ghost use Rattle.rbc_spec.specs.SectionRuns.{SectionRun, part_before, part_from};
ghost use Rattle.rbc_spec.specs.Line.{Line};
ghost use Rattle.rbc_spec.specs.Place.{Place};
ghost use Rattle.rbc_spec.specs.Centre.{Mission};
ghost use Rattle.rbc_spec.specs.Rules.{cut_ahead};
ghost use Rattle.rbc_shorten.specs.Standstill.{ahead_of, standing_act};

/// A hand that is cut before a section loses the sections from that on. If it loses some, they follow those that are
/// kept.
pub fn what_is_cut_follows_what_is_kept()
    ensures count { (hand : SectionRun) (s : ℕ) → (part_from s hand).count ≡ hand.count - (part_before s hand).count }
    ensures run { (hand : SectionRun) (s : ℕ) → (part_before s hand).count < hand.count
        → part_from s hand ≡ record {
          first = hand.first + (part_before s hand).count;
          count = hand.count - (part_before s hand).count;
        } }
{}

/// At an end of mission at standstill, a centre's act on the hand of the mission is its cut.
pub fn what_lies_ahead_is_cut()
    ensures { (line : Line) (c t : ℕ) (m : Mission) (place : Place)
        → cut_ahead line c t m place ≡ standing_act line c t m (ahead_of line m.hand place.front) }
{}
