//! The check of the true places of trains. It shares no code with the centres.

ghost use Rattle.std.specs.Prelude.{◌≡◌, count_by};
ghost use Rattle.train_unit.specs.Standing.{stands_on};
ghost use Rattle.cli_drive.specs.Apart.{are_apart};

use rbc_line::Section;
use train_unit::Ends;
use train_unit::driving::covers;

/// Whether no two of these trains are on one section.
pub(crate) fn are_apart(sections: &[Section], trains: &[Ends]) -> bool
    ensures { result ≡ are_apart sections.now trains.now }
{
    sections
        .iter()
        .all(|section| count_on(section, trains) <= 1)
}

// How many of these trains are on the section.
fn count_on(section: &Section, trains: &[Ends]) -> usize
    ensures { result ≡ count_by (stands_on section.now) trains.now }
{
    trains.iter().filter(|ends| covers(section, **ends)).count()
}
