//! Laws of all spellings, independent of the code that reads or writes them.

ghost use Rattle.std.specs.Prelude.{◌≡◌, ℕ, List};
ghost use Rattle.rbc_spec.specs.Frame.{Frame};
ghost use Rattle.rbc_linkmsg.specs.Spelling.{Spells};

/// A frame has at most one spelling.
pub fn one_spelling()
    ensures { (a b : List ℕ) (f : Frame) → Spells a f → Spells b f → a ≡ b }
{}

/// Bytes spell at most one frame.
pub fn one_frame()
    ensures { (bytes : List ℕ) (f g : Frame) → Spells bytes f → Spells bytes g → f ≡ g }
{}
