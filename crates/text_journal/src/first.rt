ghost use Rattle.std.specs.Prelude.{◌≡◌, ◌↔◌, ℕ, IfOk, IsTrue, take};
ghost use Rattle.text_journal.specs.Journal.{first_line, Version};

use crate::writing::{first_line, old_first_line};
use rbc_line::Line;
use std::alloc::{AllocError, Global};

/// Whether this is the first line of the centre's journal, of any version.
pub(crate) fn is_first_line(
    alloc: Global,
    line: &Line,
    centre: u8,
    file: &str,
    row: &str,
) -> Result<bool, AllocError>
    ensures { IfOk result (λ is. IsTrue is ↔ ((v : Version) × (row.now ≡ first_line v line.now centre file.now))) }
{
    let first = first_line(alloc, line, centre)?;
    if row == first.as_str() {
        return Ok(true);
    }
    let old = old_first_line(alloc, line, centre, file)?;
    Ok(row == old.as_str())
}

/// Whether the first line of the centre's journal, of any version, begins with the text.
pub(crate) fn begins_first_line(
    alloc: Global,
    line: &Line,
    centre: u8,
    file: &str,
    text: &str,
) -> Result<bool, AllocError>
    ensures { IfOk result (λ is. IsTrue is
        ↔ ((v : Version) × (n : ℕ) × (text.now ≡ take n (first_line v line.now centre file.now)))) }
{
    let first = first_line(alloc, line, centre)?;
    if first.as_str().starts_with(text) {
        return Ok(true);
    }
    let old = old_first_line(alloc, line, centre, file)?;
    Ok(old.as_str().starts_with(text))
}
