//! The known name that is most like a misspelt one.

ghost use Rattle.std.specs.Prelude.{◌↔◌, IfOk, IsTrue, map, option_map};
ghost use Rattle.cli_commands.specs.Nearest.{IsLike, IsNearest};

use rbc_line::Line;
use std::alloc::{AllocError, Global};
use std::fmt;
use strsim::osa_distance;

/// The longest name that is compared, in bytes.
const LONGEST: usize = 64;

/// The known name that is most like a word, if one is like it. Its print is a question, or nothing.
#[derive(Clone, Copy, Debug)]
pub struct Nearest<'a>(Option<&'a str>);

impl fmt::Display for Nearest<'_> {
    fn fmt<W: fmt::Write>(&self, f: &mut fmt::Formatter<W>) -> fmt::Result {
        match self.0 {
            Some(name) => write!(f, ": is it `{name}`?"),
            None => Ok(()),
        }
    }
}

/// The first of these names that is like the word.
pub fn nearest_of(
    alloc: Global,
    word: &str,
    names: &[&'static str],
) -> Result<Nearest<'static>, AllocError>
    ensures { IfOk result (λ nearest. IsNearest word.now (map (λ name. name.now) names.now)
        (option_map (λ name. name.now) nearest.0)) }
{
    for name in names {
        if is_like(alloc, word, name)? {
            return Ok(Nearest(Some(name)));
        }
    }
    Ok(Nearest(None))
}

/// The first centre of the line with a name like the word.
pub fn nearest_centre<'a>(
    alloc: Global,
    line: &'a Line,
    word: &str,
) -> Result<Nearest<'a>, AllocError>
    ensures { IfOk result (λ nearest. IsNearest word.now (map (λ p. p.name) line.now.centres)
        (option_map (λ name. name.now) nearest.0)) }
{
    for c in 0..line.centre_count() {
        if let Some(name) = line.centre_name(c)
            && is_like(alloc, word, name)?
        {
            return Ok(Nearest(Some(name)));
        }
    }
    Ok(Nearest(None))
}

// Whether two names differ in upper and lower case only, or in at most a third of the letters.
fn is_like(alloc: Global, word: &str, name: &str) -> Result<bool, AllocError>
    ensures { IfOk result (λ is_like. IsTrue is_like ↔ IsLike word.now name.now) }
{
    if word.eq_ignore_ascii_case(name) {
        return Ok(true);
    }
    if word.len() > LONGEST || name.len() > LONGEST {
        return Ok(false);
    }
    Ok(osa_distance(alloc, word, name)? <= name.len() / 3)
}
