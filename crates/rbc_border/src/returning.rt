ghost use Rattle.std.specs.Prelude.{◌≡◌, ◌+◌, ◌≤◌, ◌&&◌, ℕ};
ghost use Rattle.rbc_spec.specs.Line.{Line as LineData};
ghost use Rattle.rbc_spec.specs.Centre.{Centre, is_out_for};
ghost use Rattle.rbc_spec.specs.Acts.{freed};
ghost use Rattle.rbc_book.specs.Book.{entry_at, wish_at};
ghost use Rattle.rbc_hand.specs.Hands.{one};
ghost use Rattle.rbc_line.specs.SectionRuns.{run_of};
ghost use Rattle.rbc_border.specs.Lending.{HasBook, with_book, BringsBack, told_back, telling};

use rbc_allocation::Told;
use rbc_book::{Back, Book};
use rbc_line::SectionRun;

// Takes a section back, if it is out for the train. The result is whether the interlocking gets a report.
fn bring_one(book: &mut Book, nid_engine: u32, s: u16) -> bool
    ensures told { result ≡ (is_out_for nid_engine (entry_at book.old s) && wish_at book.old s) }
    ensures book { BringsBack nid_engine (one s) book.old book.new }
{
    match book.reclaim(s, nid_engine) {
        Some(claim) => matches!(book.give_back(claim), Back::Told),
        None => false,
    }
}

/// Sections are returned that were in use for the train at another centre (profile). Each of them that is out for the
/// train is given back. The result is those that were wished back, in rising order; they are reported to the
/// interlocking.
pub fn bring_back(book: &mut Book, nid_engine: u32, run: SectionRun) -> Told
    requires most { run.count ≤ 64 }
    requires numbers { run.first + run.count ≤ 65535 }
    ensures told { result ≡ told_back nid_engine (run_of run) book.old }
    ensures book { BringsBack nid_engine (run_of run) book.old book.new }
    ensures exact { (line : LineData) (c : ℕ) (k : Centre) → HasBook line c k book.old
        → freed line c (is_out_for nid_engine) (run_of run) k ≡ telling result (with_book book.new k) }
{
    let mut marks = 0;
    for k in 0..run.count {
        let mark = if bring_one(book, nid_engine, run.first + k) {
            1
        } else {
            0
        };
        marks = marks * 2 + mark;
    }
    Told::of(run.first, run.count, marks)
}
