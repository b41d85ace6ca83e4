ghost use Rattle.std.specs.Prelude.{◌≡◌, ◌==◌};
ghost use Rattle.rbc_spec.specs.Maps.{has};
ghost use Rattle.rbc_spec.specs.Centre.{Centre};
ghost use Rattle.rbc_spec.specs.Line.{next_centre};
ghost use Rattle.rbc_spec.specs.Links as links;
ghost use Rattle.rbc_spec.specs.SectionRuns.{all_of};
ghost use Rattle.rbc_line.specs.SectionRuns.{run_of};
ghost use Rattle.rbc_border.specs.Lending.{HasBook};

use rbc_book::Book;
use rbc_line::{Line, SectionRun};

/// A train that another centre hands over to this one (3.15.1).
#[derive(Clone, Copy, Debug, PartialEq, Eq)]
pub struct Arrival {
    pub nid_engine: u32,
    /// Number of the train's track in the line file, from 0.
    pub track: u8,
}

/// Whether each section of a hand may arrive with a train that another centre hands over to this one (3.15.1). One of
/// this home has to be in use for the train elsewhere. Any other must not be of the next centre on the track.
pub fn may_arrive(line: &Line, centre: u8, book: &Book, train: Arrival, hand: SectionRun) -> bool
    ensures { (k : Centre) → HasBook line.now centre k book.now
        → result ≡ all_of (links.may_arrive line.now centre k train.nid_engine train.track) (run_of hand) }
{
    for k in 0..hand.count {
        let s = u32::from(hand.first) + u32::from(k);
        if !arrives(line, centre, book, train, s) {
            return false;
        }
    }
    true
}

// Whether the section may arrive so.
fn arrives(line: &Line, centre: u8, book: &Book, train: Arrival, s: u32) -> bool
    ensures { (k : Centre) → HasBook line.now centre k book.now
        → result ≡ links.may_arrive line.now centre k train.nid_engine train.track s }
{
    if s >= u32::from(line.section_count()) {
        return false;
    }
    match line.section(s as u16) {
        Some(section) => {
            if section.home == centre {
                book.page(s as u16).entry.is_out_for(train.nid_engine)
            } else {
                !is_next(line, centre, train.track, section.home)
            }
        }
        None => false,
    }
}

// Whether it is the next centre on the track.
fn is_next(line: &Line, centre: u8, track: u8, other: u8) -> bool
    ensures { result ≡ has (λ n. n == other) (next_centre line.now centre track) }
{
    match line.next_centre(centre, track) {
        Some(next) => next == other,
        None => false,
    }
}
