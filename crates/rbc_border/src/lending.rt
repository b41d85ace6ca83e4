ghost use Rattle.std.specs.Prelude.{ℕ, ◌≡◌, ◌+◌, ◌≤◌, None, option_map, IfSome};
ghost use Rattle.rbc_spec.specs.Centre.{Centre};
ghost use Rattle.rbc_spec.specs.Frame.{RouteInfo, HasRunRange};
ghost use Rattle.rbc_spec.specs.Links.{route_asked};
ghost use Rattle.rbc_hand.specs.Hands.{one};
ghost use Rattle.rbc_line.specs.SectionRuns.{run_of};
ghost use Rattle.rbc_border.specs.Lending.{HasBook, with_book, LendsRun, sending};

use crate::homes::stretch;
use rbc_book::Book;
use rbc_line::{Line, SectionRun};

// Lends a section, if it is open.
fn lend_one(book: &mut Book, nid_engine: u32, s: u16)
    ensures { LendsRun nid_engine (one s) book.old book.new }
{
    if let Some(claim) = book.take(s, nid_engine) {
        book.lend(claim);
    }
}

// Lends those of the sections that are open.
fn lend_run(book: &mut Book, nid_engine: u32, run: SectionRun)
    requires { run.first + run.count ≤ 65535 }
    ensures { LendsRun nid_engine (run_of run) book.old book.new }
{
    for k in 0..run.count {
        lend_one(book, nid_engine, run.first + k);
    }
}

/// Another centre asks for sections for a train there (profile). They are the longest run of free home sections from
/// the first on, on one track, up to the limit. They are in use for the train there from now on. `None` if and only if
/// the first is not a section of the line; then nothing changes and no answer is sent.
pub fn lend(
    line: &Line,
    centre: u8,
    book: &mut Book,
    nid_engine: u32,
    first: u16,
    most: u16,
) -> Option<SectionRun>
    ensures book { IfSome result (λ run. LendsRun nid_engine (run_of run) book.old book.new) }
    ensures none { result ≡ None → book.new ≡ book.old }
    ensures range { IfSome result (λ run. HasRunRange 0 most (run_of run)) }
    ensures exact { (to : ℕ) (k : Centre) → HasBook line.now centre k book.old
        → route_asked line.now centre to nid_engine first most k
        ≡ sending to (option_map (λ run. RouteInfo nid_engine (run_of run)) result) (with_book book.new k) }
{
    let section = line.section(first)?;
    let on_track = stretch(line, centre, section.track, first, most);
    let count = book.open_run(first, on_track);
    let run = SectionRun { first, count };
    lend_run(book, nid_engine, run);
    Some(run)
}
