//! The train with a name.

ghost use Rattle.std.specs.Prelude.{◌≡◌, IfNone, IfSome, slice_get, Some, ℕ};
ghost use Rattle.rbc_railway.specs.History.{name_of};
ghost use Rattle.rbc_railway.specs.declared.train.RunningTrain.{RunningTrain as Running};

use crate::train::RunningTrain;

/// The index of the train with this NID_ENGINE.
pub(crate) fn index_of(trains: &[RunningTrain], nid_engine: u32) -> Option<usize>
    ensures found { IfSome result (λ i. (x : Running) × (slice_get trains.now i ≡ Some x) × (name_of x ≡ nid_engine)) }
    ensures none { IfNone result ((i : ℕ) (x : Running)
        → slice_get trains.now i ≡ Some x → name_of x ≡ nid_engine → ⊥) }
{
    for i in 0..trains.len() {
        if trains[i].nid_engine() == nid_engine {
            return Some(i);
        }
    }
    None
}
