//! Laws of runs of sections: their members, the sections that two share, a run cut in two, and the longest run under a
//! test.

ghost use Rattle.std.specs.Prelude.{◌≡◌, ℕ, ◌+◌, ◌≤◌, ◌&&◌, ◌||◌, Bool, true, false, nat_lt, nat_le};
ghost use Rattle.rbc_spec.specs.SectionRuns.{SectionRun, within, next_after, is_empty, part_before, part_from};
ghost use Rattle.rbc_spec.specs.SectionRuns.{shared, joined, longest, passing};
ghost use Rattle.rbc_spec.specs.SectionRuns.{IsLongest};

/// A number cuts a run in two. The part before the number has the lower sections of the run, the part from it on has
/// the others.
pub fn a_run_is_cut_in_two()
    ensures before { (r : SectionRun) (cut s : ℕ) → within (part_before cut r) s ≡ (within r s && nat_lt s cut) }
    ensures from { (r : SectionRun) (cut s : ℕ) → within (part_from cut r) s ≡ (within r s && nat_le cut s) }
    ensures count { (r : SectionRun) (cut : ℕ) → (part_before cut r).count + (part_from cut r).count ≡ r.count }
{}

/// The sections that two runs share are a run.
pub fn what_runs_share()
    ensures { (a b : SectionRun) (s : ℕ) → within (shared a b) s ≡ (within a s && within b s) }
{}

/// A run and one that follows it at once are one run, of the sections of both. An empty one adds nothing.
pub fn runs_are_joined()
    ensures both { (a b : SectionRun) (s : ℕ) → b.first ≡ next_after a
        → within (joined a b) s ≡ (within a s || within b s) }
    ensures empty { (a b : SectionRun) (s : ℕ) → is_empty b ≡ true → within (joined a b) s ≡ within a s }
    ensures count { (a b : SectionRun) → (joined a b).count ≡ a.count + b.count }
{}

/// A run that is cut between its ends is the same run when its parts are joined.
pub fn a_cut_run_is_joined_again()
    ensures { (r : SectionRun) (cut : ℕ) → r.first ≤ cut → cut ≤ next_after r
        → joined (part_before cut r) (part_from cut r) ≡ r }
{}

/// Two runs that have the same sections, and one at least, are one run.
pub fn runs_of_the_same_sections()
    ensures { (r q : SectionRun) → is_empty r ≡ false → ((s : ℕ) → within r s ≡ within q s) → r ≡ q }
{}

/// The longest run under a test, up to a limit. Each of its sections passes, and the next one does not, or the limit is
/// reached. No other run has this property.
pub fn the_longest_run()
    ensures is { (test : ℕ → Bool) (first most : ℕ) → IsLongest test first most (longest test first most) }
    ensures only { (test : ℕ → Bool) (first most count : ℕ) → IsLongest test first most count
        → count ≡ longest test first most }
{}

/// The first sections of a run that pass a test are the longest run of it that does.
pub fn what_passes_first()
    ensures { (test : ℕ → Bool) (r : SectionRun) → IsLongest test r.first r.count (passing test r) }
{}
