//! The look-up tables of a line, each made once from its lists.
ghost use Rattle.std.specs.Prelude.{◌≡◌, ℕ, ◌+◌, ◌*◌, ◌<◌, ◌≤◌, ◌==◌, ◌&&◌, length, position, find, Some, IfOk, nat_eq};
ghost use Rattle.std.specs.List.{zip, All};
ghost use Rattle.std.specs.HashMap.{get};
ghost use Rattle.rbc_spec.specs.Line.{AreDistinct, next_centre};
ghost use Rattle.rbc_line.specs.Tables.{HasGuessesOf, HasNextCentres};
ghost use Rattle.rbc_line.specs.Views.{line_of_rows};

use crate::guesses::Guesses;
use crate::parts::{Rows, Section, Train};
use std::alloc::{AllocError, Global};
use std::collections::HashMap;

/// The NID_LRBG of a balise group: NID_C and NID_BG together (SUBSET-026 7.5).
#[inline(always)]
pub(crate) fn nid_lrbg_of(nid_c: u16, nid_bg: u16) -> u32
    ensures { result ≡ nid_c * 16384 + nid_bg }
{
    u32::from(nid_c) * 16384 + u32::from(nid_bg)
}

/// The section of each balise group, by NID_LRBG.
pub(crate) fn groups_of(
    alloc: Global,
    nid_c: u16,
    sections: &[Section],
) -> Result<HashMap<u32, u16>, AllocError>
    requires country { nid_c ≤ 1023 }
    requires few { length sections.now ≤ 512 }
    requires range { All (λ p. p.balise ≤ 16382) sections.now }
    requires apart { AreDistinct (λ p. p.balise) sections.now }
    ensures { IfOk result
        (λ m. (q : ℕ) → get nat_eq m q ≡ position (λ p. nid_c * 16384 + p.balise == q) sections.now) }
{
    let mut groups = HashMap::new(alloc);
    for (s, section) in sections.iter().enumerate() {
        groups.insert(nid_lrbg_of(nid_c, section.balise), s as u16)?;
    }
    Ok(groups)
}

/// A guess of the section of each balise group, by NID_BG. It is right if no other group has the same remainder.
pub(crate) fn group_guesses_of(alloc: Global, sections: &[Section]) -> Result<Guesses, AllocError>
    requires few { length sections.now ≤ 512 }
    ensures { IfOk result (λ g. HasGuessesOf (length sections.now) (λ p. p.balise) sections.now g) }
{
    let mut guesses = Guesses::new(alloc)?;
    for (s, section) in sections.iter().enumerate() {
        guesses.note(u32::from(section.balise), s as u16);
    }
    Ok(guesses)
}

/// A guess of the position of each train, by NID_ENGINE. It is right if no other train has the same remainder.
pub(crate) fn engine_guesses_of(alloc: Global, trains: &[Train]) -> Result<Guesses, AllocError>
    requires few { length trains.now ≤ 64 }
    ensures { IfOk result (λ g. HasGuessesOf (length trains.now) (λ p. p.nid_engine) trains.now g) }
{
    let mut guesses = Guesses::new(alloc)?;
    for (i, train) in trains.iter().enumerate() {
        guesses.note(train.nid_engine, i as u16);
    }
    Ok(guesses)
}

/// The centre that follows this one on a track.
fn next_centre(rows: &Rows, c: u8, track: u8) -> Option<u8>
    ensures { result ≡ next_centre (line_of_rows rows.now) c track }
{
    let sections = rows.sections.as_slice();
    let seam = sections.iter().zip(sections.iter().skip(1)).find(|(p, q)| {
        p.track == q.track && p.track == track && p.home == c && q.home != c
    });
    match seam {
        Some((_, next)) => Some(next.home),
        None => None,
    }
}

/// For each centre and track the centre that follows.
pub(crate) fn next_centres_of(rows: &Rows) -> [Option<u8>; 32]
    ensures { HasNextCentres (line_of_rows rows.now) result }
{
    let mut next_centres = [None; 32];
    for k in 0..32usize {
        next_centres[k] = next_centre(rows, (k / 4) as u8, (k % 4) as u8);
    }
    next_centres
}
