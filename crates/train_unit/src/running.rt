//! How far a train may run.

ghost use Rattle.std.specs.Prelude.{◌≡◌, ◌≤◌, ℕ, nat_le, true};
ghost use Rattle.std.specs.Option.{option_map_or};
ghost use Rattle.law_trains.specs.Trains as rules;
ghost use Rattle.train_unit.specs.Units.{train_of};
ghost use Rattle.train_unit.specs.declared.ends.Ends.{Ends};

use crate::unit::OnBoardUnit;

impl OnBoardUnit {
    /// The farthest place that the front end may reach, if it is now at this place. Both are in decimetres from the
    /// start of the track. `None` if no rule limits it: before the first start of mission others may move the train.
    pub fn may_reach(&self, front: u32) -> Option<u64>
        ensures exact { (ends : Ends) (place : ℕ) → ends.front ≡ front → rules.may_reach place (train_of self.now ends)
            ≡ option_map_or (λ limit. nat_le place limit) result true }
        // If the front end is in advance of this place, it may reach the limit for this place too.
        ensures past { (ends : Ends) (place : ℕ) → front ≤ ends.front
            → option_map_or (λ limit. nat_le place limit) result true ≡ true
            → rules.may_reach place (train_of self.now ends) ≡ true }
    {
        if !self.has_started {
            return None;
        }
        match self.end {
            Some(end) => Some(u64::from(front).max(10 * u64::from(end))),
            None => Some(u64::from(front)),
        }
    }
}
