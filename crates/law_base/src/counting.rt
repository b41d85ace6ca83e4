//! Laws of counting, without a railway in them except runs of sections. The things that centres hold, and those in the
//! queues between them, are counted. If each act is fair, nothing is made, and a thing of which there is one is in one
//! place. Other laws are of changes of a run, and of a state that follows the frames of a queue. The definitions are in
//! `specs/`, and the laws in `proofs/` for the crates above. The functions here do nothing: each contract is an example
//! of the laws.
//!
//! No code. The statements of `laws.rt` have to stay; their proofs may change.

ghost use Rattle.std.specs.Prelude.{◌≡◌, ℕ, ◌+◌, ◌<◌, ◌&&◌, Bool, false, List, [], ◌∷◌, Some, All, if◌then◌else◌};
ghost use Rattle.std.specs.Prelude.{flat_map, filter};
ghost use Rattle.law_base.specs.Counting.Network.{numbered};
ghost use Rattle.rbc_spec.specs.SectionRuns.{SectionRun, within};
ghost use Rattle.law_base.specs.Counting.Sections.{sections};
ghost use Rattle.law_base.specs.Counting.Sweep.{sweep, at_section};
ghost use Rattle.law_base.specs.Counting.Coin.{Event, Letter, is_loss, run, start, IsInOnePlace, IsInOnePlaceAtMost};
ghost use Rattle.law_base.specs.Counting.Coin.{IsInTurn};
ghost use Rattle.law_base.specs.Counting.Coin.Event.{Writes, Comes};

/// One coin travels in letters between any number of centres. Letters may arrive again, late or early. The coin is in
/// at most one place, and in exactly one if nobody loses it.
pub fn one_place()
    ensures at_most { (n : ℕ) (events : List Event) → 0 < n → IsInOnePlaceAtMost n (run n events start) }
    ensures exactly { (n : ℕ) (events : List Event) → 0 < n → All (λ e. is_loss e ≡ false) events
        → IsInOnePlace n (run n events start) }
    // It does travel: the first letter brings it to centre 1, and does not bring it twice.
    ensures travels { ((run 2 (Writes 0 1 ∷ Comes 0 1 1 ∷ Comes 0 1 1 ∷ []) start).at 1).coins ≡ 1 }
{}

/// On each link, the letters on the way lead from the number opened to the number written.
pub fn in_turn()
    ensures chain { (n : ℕ) (events : List Event) → IsInTurn (run n events start) }
    // The next letter from a to b names the number of letters that b has opened from a.
    ensures next { (n : ℕ) (events : List Event) (a b : ℕ) (f : Letter)
        → numbered ((run n events start).sent a b) ((run n events start).taken a b + 1) ≡ Some f
        → f.page ≡ ((run n events start).at b).opened a }
{}

/// Changes of single sections in order are one change of the whole run. Their outputs are those of the sections, in
/// order. The same holds for those sections of the run that pass a test.
pub fn run_at_once()
    ensures state { (change : ℕ → ℕ → ℕ) (say : ℕ → ℕ → List ℕ) (r : SectionRun) (f : ℕ → ℕ) (s : ℕ)
        → (sweep (at_section change say) (sections r) f).state s
        ≡ (if within r s then change s (f s) else f s) }
    ensures words { (change : ℕ → ℕ → ℕ) (say : ℕ → ℕ → List ℕ) (r : SectionRun) (f : ℕ → ℕ)
        → (sweep (at_section change say) (sections r) f).words
        ≡ flat_map (λ s. say s (f s)) (sections r) }
    ensures tested { (change : ℕ → ℕ → ℕ) (say : ℕ → ℕ → List ℕ) (test : ℕ → Bool)
        (r : SectionRun) (f : ℕ → ℕ) (s : ℕ)
        → (sweep (at_section change say) (filter test (sections r)) f).state s
        ≡ (if within r s && test s then change s (f s) else f s) }
{}
