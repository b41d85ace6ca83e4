//! Sections in words.

ghost use Rattle.std.specs.Prelude.{◌+◌, ◌-◌, ◌^◌, ◌≡◌, IfOk, min, string_bytes};
ghost use Rattle.text_words.specs.Said.{centre_name, section_words, stretch_words, wish_words};

use crate::places::name_of_track;
use rbc_line::{Line, Section};
use std::alloc::{AllocError, Global};

/// The place of a section, its home, and its use.
pub fn section_in_words(
    alloc: Global,
    line: &Line,
    number: u16,
    mark: &str,
    train: Option<u32>,
    is_wished: bool,
) -> Result<String, AllocError>
    ensures { IfOk result (λ text. string_bytes text ≡ section_words line.now number mark.now train is_wished) }
{
    let place = stretch_in_words(alloc, line, number)?;
    let wish = wish_of(is_wished);
    match train {
        Some(nid_engine) => format!(in alloc; "{place}: {mark} train {nid_engine}{wish}"),
        None => format!(in alloc; "{place}: {mark}{wish}"),
    }
}

/// The start and the end of a section in metres of its track, and its home.
fn stretch_in_words(alloc: Global, line: &Line, number: u16) -> Result<String, AllocError>
    ensures { IfOk result (λ text. string_bytes text ≡ stretch_words line.now number) }
{
    let Some(section) = line.section(number) else {
        return Ok(String::new(alloc));
    };
    let start = section.start;
    let end = end_of(section);
    let track = name_of_track(line, section.track);
    let home = name_of_centre(line, section.home);
    format!(in alloc; "{start} to {end} m of {track}, home {home}")
}

fn wish_of(is_wished: bool) -> &'static str
    ensures { result.now ≡ wish_words is_wished }
{
    if is_wished { ", wanted back" } else { "" }
}

fn name_of_centre(line: &Line, centre: u8) -> &str
    ensures { result.now ≡ centre_name line.now centre }
{
    line.centre_name(centre).unwrap_or("?")
}

// The end of a section, in metres from the start of its track.
fn end_of(section: Section) -> u32
    ensures { result ≡ min (section.start + section.metres) (2 ^ 32 - 1) }
{
    section.start.saturating_add(u32::from(section.metres))
}
