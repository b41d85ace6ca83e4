//! The independent check over the true places. It shares no code with the centres.

ghost use Rattle.std.specs.Prelude.{◌≡◌, ◌&&◌, count_by};
ghost use Rattle.std.specs.List.{list_any};
ghost use Rattle.train_unit.specs.Standing.{stands_on};
ghost use Rattle.cli_demo.specs.Safe.{are_apart, are_on_released};

use rbc_line::Section;
use train_unit::Ends;
use train_unit::driving::covers;

/// Whether no two of all trains are on one section, and each section under an accepted one is released.
pub(crate) fn is_safe(
    sections: &[Section],
    released: &[bool],
    all: &[Ends],
    accepted: &[Ends],
) -> bool
    ensures { result ≡ (are_apart sections.now all.now && are_on_released sections.now released.now accepted.now) }
{
    are_apart(sections, all) && are_on_released(sections, released, accepted)
}

// Whether no two of these trains are on one section.
fn are_apart(sections: &[Section], trains: &[Ends]) -> bool
    ensures { result ≡ are_apart sections.now trains.now }
{
    sections
        .iter()
        .all(|section| count_on(section, trains) <= 1)
}

// How many of these trains are on the section.
fn count_on(section: &Section, trains: &[Ends]) -> usize
    ensures { result ≡ count_by (stands_on section.now) trains.now }
{
    trains.iter().filter(|ends| covers(section, **ends)).count()
}

// Whether each section under one of these trains is released.
fn are_on_released(sections: &[Section], released: &[bool], trains: &[Ends]) -> bool
    ensures { result ≡ are_on_released sections.now released.now trains.now }
{
    sections.len() <= released.len()
        && sections.iter().zip(released.iter()).all(|(section, is_released)| *is_released
            || !is_taken(section, trains))
}

// Whether one of these trains is on the section.
fn is_taken(section: &Section, trains: &[Ends]) -> bool
    ensures { result ≡ list_any (stands_on section.now) trains.now }
{
    trains.iter().any(|ends| covers(section, *ends))
}
