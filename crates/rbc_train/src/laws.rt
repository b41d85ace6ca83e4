//! Laws of the effect of a set and of an unset.

ghost use Rattle.std.specs.Prelude.{◌≡◌, ℕ, true, false};
ghost use Rattle.rbc_spec.specs.Line.{Line, is_home};
ghost use Rattle.rbc_spec.specs.Centre.{Centre, Shut, Open, Taken, is_unused};
ghost use Rattle.rbc_spec.specs.Acts.{Reply, propose_if_so};
ghost use Rattle.rbc_spec.specs.Step.{set, unset};
ghost use Rattle.rbc_train.specs.Tellings.{told_elsewhere, told_done, told_kept, told_asked, wishing};

/// An unset shuts a home section at once if it is not in use. If the section is in use for a train here, that train
/// gets a request to shorten before it, if it may be sent. A section of another home is left as it is.
pub fn a_section_is_taken_back()
    ensures unused { (line : Line) (c s : ℕ) (k : Centre) → is_home line c s ≡ true → is_unused (k.book s) ≡ true
        → unset line c s k ≡ told_done s Shut k }
    ensures taken { (line : Line) (c s t : ℕ) (k : Centre) (reply : Reply) → is_home line c s ≡ true
        → k.book s ≡ Taken t
        → propose_if_so line t s (wishing s k) ≡ reply → unset line c s k ≡ told_asked s reply }
    ensures elsewhere { (line : Line) (c s : ℕ) (k : Centre) → is_home line c s ≡ false
        → unset line c s k ≡ told_elsewhere s k }
{}

/// A set releases a home section at once if it is not in use. A section in use stays in use, and is not wished back any
/// more. A section of another home is left as it is.
pub fn a_section_is_released()
    ensures unused { (line : Line) (c s : ℕ) (k : Centre) → is_home line c s ≡ true → is_unused (k.book s) ≡ true
        → set line c s k ≡ told_done s Open k }
    ensures used { (line : Line) (c s : ℕ) (k : Centre) → is_home line c s ≡ true → is_unused (k.book s) ≡ false
        → set line c s k ≡ told_kept s k }
    ensures elsewhere { (line : Line) (c s : ℕ) (k : Centre) → is_home line c s ≡ false
        → set line c s k ≡ told_elsewhere s k }
{}
