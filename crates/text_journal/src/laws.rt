ghost use Rattle.std.specs.Prelude.{◌≡◌, ◌<◌, ℕ, true, map, take, List};
ghost use Rattle.std.specs.List.{AllByRecursion};
ghost use Rattle.rbc_spec.specs.Line.{Line, IsLine, is_centre};
ghost use Rattle.text_journal.specs.Journal.{journal, Version};
ghost use Rattle.text_journal.specs.Reading.{Begins, IsNote, noted_of};
ghost use Rattle.text_journal.specs.Whole.{AreWhole};
ghost use Rattle.text_journal.specs.declared.entry.Entry.{Entry};

/// A journal that is cut at any byte begins with its first whole entries.
pub fn a_cut_leaves_a_beginning()
    ensures { (v : Version) (line : Line) (c : ℕ) (file : List ℕ) (es : List Entry) (n : ℕ)
        → IsLine line → AllByRecursion (λ e. IsNote line c (noted_of e)) es
        → (k : ℕ) × Begins v line c file (take n (journal v line c file es)) (take k es) }
{}

/// A text is the rest of at most one journal: two journals that it begins, of any versions, have the same entries.
pub fn a_text_begins_one_journal()
    ensures { (v w : Version) (line : Line) (c : ℕ) (file text : List ℕ) (es fs : List Entry)
        → IsLine line → is_centre line c ≡ true
        → Begins v line c file text es → Begins w line c file text fs → map noted_of es ≡ map noted_of fs }
{}

/// A cut journal is cut again after its whole lines. It is then the journal of the entries that it begins with.
pub fn whole_lines_are_a_journal()
    ensures { (v : Version) (line : Line) (c : ℕ) (file text : List ℕ) (es : List Entry) (n : ℕ)
        → IsLine line → is_centre line c ≡ true → Begins v line c file text es → AreWhole text n → 0 < n
        → take n text ≡ journal v line c file es }
{}
