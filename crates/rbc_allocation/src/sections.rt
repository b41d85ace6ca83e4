ghost use Rattle.std.specs.Prelude.{◌≡◌, ◌+◌, ◌-◌, ◌++◌, ◌≤◌, ◌<◌, ◌&&◌, ℕ, length, replicate, true, false};
ghost use Rattle.std.specs.Prelude.{if◌then◌else◌, ◌^◌};
ghost use Rattle.rbc_spec.specs.SectionRuns.{within, next_after, is_empty};
ghost use Rattle.rbc_spec.specs.Centre.{is_open, is_taken_for};
ghost use Rattle.rbc_book.specs.Book.{is_own, entry_at, wish_at};
ghost use Rattle.rbc_line.specs.SectionRuns.{run_of};
ghost use Rattle.rbc_hand.specs.Tokens.{Held, Own, token_of};
ghost use Rattle.rbc_hand.specs.Hands.{run, one};
ghost use Rattle.rbc_allocation.specs.Marks.{marked};
ghost use Rattle.rbc_allocation.specs.Sections.{TakesRun, FreesRun, front_of, rest_of, wished, hand_rest, hand_front};
ghost use Rattle.rbc_allocation.specs.Sections.{is_held_as, IsHeldBy};

use crate::told::Told;
use rbc_book::{Back, Book};
use rbc_hand::{Hand, Token};
use rbc_line::SectionRun;

// Ends a token: a claim returns to the book. The result is whether its section was wished back.
fn end_token(token: Token, book: &mut Book) -> bool
    ensures told { (s t : ℕ) (held : Held) → token ≡ token_of s held → is_held_as t (is_own book.old s) held ≡ true
        → result ≡ (is_taken_for t (entry_at book.old s) && wish_at book.old s) }
    ensures book { (s t : ℕ) (held : Held) → token ≡ token_of s held → is_held_as t (is_own book.old s) held ≡ true
        → FreesRun t (one s) book.old book.new }
{
    match token {
        Token::Own(claim) => matches!(book.give_back(claim), Back::Told),
        Token::Name(lent) => {
            lent.send();
            false
        }
    }
}

/// Takes sections into the hand, after its last.
pub fn take_run(hand: &mut Hand, sections: SectionRun, nid_engine: u32, book: &mut Book)
    requires room { length hand.old.holds + sections.count ≤ 32 }
    requires numbers { sections.first + sections.count ≤ 65535 }
    requires next { 0 < length hand.old.holds → hand.old.first + length hand.old.holds ≡ sections.first }
    requires open { (s : ℕ) → within (run_of sections) s ≡ true → is_open (entry_at book.old s) ≡ true }
    ensures count { length hand.new.holds ≡ length hand.old.holds + sections.count }
    ensures first { 0 < length hand.new.holds → hand.new.first + length hand.old.holds ≡ sections.first }
    ensures holds { hand.new.holds ≡ hand.old.holds ++ replicate sections.count (Own nid_engine) }
    ensures held { IsHeldBy nid_engine hand.old book.old → IsHeldBy nid_engine hand.new book.new }
    ensures book { TakesRun nid_engine (run_of sections) book.old book.new }
{
    let claims = book.take_run(sections.first, sections.count, nid_engine);
    hand.extend_own(claims);
}

// The first section leaves the hand. Whether it was wished back.
fn free_first(hand: &mut Hand, nid_engine: u32, book: &mut Book) -> bool
    requires held { IsHeldBy nid_engine hand.old book.old }
    requires some { is_empty (run hand.old) ≡ false }
    ensures told { result
        ≡ (is_taken_for nid_engine (entry_at book.old hand.old.first) && wish_at book.old hand.old.first) }
    ensures hand { hand.new ≡ hand_rest 1 hand.old }
    ensures book { FreesRun nid_engine (one hand.old.first) book.old book.new }
{
    match hand.cut_front() {
        Some(token) => end_token(token, book),
        None => false,
    }
}

// The last section leaves the hand.
fn free_last(hand: &mut Hand, nid_engine: u32, book: &mut Book)
    requires held { IsHeldBy nid_engine hand.old book.old }
    requires some { is_empty (run hand.old) ≡ false }
    ensures hand { hand.new ≡ hand_front (length hand.old.holds - 1) hand.old }
    ensures book { FreesRun nid_engine (one (hand.old.first + (length hand.old.holds - 1))) book.old book.new }
{
    if let Some(token) = hand.cut_back() {
        end_token(token, book);
    }
}

// The first `count` sections leave the hand. The result is the marks of those that were wished back.
fn free_front(hand: &mut Hand, count: u16, nid_engine: u32, book: &mut Book) -> u64
    requires held { IsHeldBy nid_engine hand.old book.old }
    requires some { count ≤ length hand.old.holds }
    requires most { count ≤ 32 }
    ensures told { marked hand.old.first count result
        ≡ wished nid_engine (record { first = hand.old.first; count = count }) book.old }
    ensures fits { result < 2 ^ count }
    ensures hand { hand.new ≡ hand_rest count hand.old }
    ensures book { FreesRun nid_engine (record { first = hand.old.first; count = count }) book.old book.new }
{
    let mut marks = 0;
    for _ in 0..count {
        let is_told = free_first(hand, nid_engine, book);
        let mark = if is_told { 1 } else { 0 };
        marks = marks * 2 + mark;
    }
    marks
}

// The last `count` sections leave the hand.
fn free_back(hand: &mut Hand, count: u16, nid_engine: u32, book: &mut Book)
    requires held { IsHeldBy nid_engine hand.old book.old }
    requires some { count ≤ length hand.old.holds }
    ensures hand { hand.new ≡ hand_front (length hand.old.holds - count) hand.old }
    ensures book { FreesRun nid_engine
        (record { first = hand.old.first + (length hand.old.holds - count); count = count }) book.old book.new }
{
    for _ in 0..count {
        free_last(hand, nid_engine, book);
    }
}

// Whether the section is in use for the train and wished back.
fn is_wished(s: u16, nid_engine: u32, book: &Book) -> bool
    ensures { result ≡ (is_taken_for nid_engine (entry_at book.now s) && wish_at book.now s) }
{
    let page = book.page(s);
    page.entry.is_taken_for(nid_engine) && page.is_wished
}

// Those of these sections that are in use for the train and wished back, in rising order.
fn wished(sections: SectionRun, nid_engine: u32, book: &Book) -> Told
    requires room { sections.count ≤ 32 }
    requires numbers { sections.first + sections.count ≤ 65535 }
    ensures { result ≡ wished nid_engine (run_of sections) book.now }
{
    let mut marks = 0;
    for k in 0..sections.count {
        let mark = if is_wished(sections.first + k, nid_engine, book) {
            1
        } else {
            0
        };
        marks = marks * 2 + mark;
    }
    Told::of(sections.first, sections.count, marks)
}

/// The first `count` sections leave the hand: those of the book's home are given back, and the names of the others end.
/// The result is those that were wished back, in rising order.
pub fn clear(hand: &mut Hand, count: u16, nid_engine: u32, book: &mut Book) -> Told
    requires held { IsHeldBy nid_engine hand.old book.old }
    requires some { count ≤ length hand.old.holds }
    requires most { length hand.old.holds ≤ 32 }
    requires numbers { hand.old.first + length hand.old.holds ≤ 65535 }
    ensures told { result ≡ wished nid_engine (record { first = hand.old.first; count = count }) book.old }
    ensures hand { hand.new ≡ hand_rest count hand.old }
    ensures run { run hand.new ≡ record { first = hand.old.first + count; count = length hand.old.holds - count } }
    ensures held { IsHeldBy nid_engine hand.new book.new }
    ensures book { FreesRun nid_engine (record { first = hand.old.first; count = count }) book.old book.new }
{
    let first = hand.run().first;
    let marks = free_front(hand, count, nid_engine, book);
    Told::of(first, count, marks)
}

/// All sections but the first `keep` leave the hand: those of the book's home are given back, and the names of the
/// others end. The result is those that were wished back, in rising order.
pub fn cut(hand: &mut Hand, keep: u16, nid_engine: u32, book: &mut Book) -> Told
    requires held { IsHeldBy nid_engine hand.old book.old }
    requires some { keep ≤ length hand.old.holds }
    requires most { length hand.old.holds ≤ 32 }
    requires numbers { hand.old.first + length hand.old.holds ≤ 65535 }
    ensures told { result
        ≡ wished nid_engine (record { first = hand.old.first + keep; count = length hand.old.holds - keep }) book.old }
    ensures hand { hand.new ≡ hand_front keep hand.old }
    ensures run { run hand.new ≡ record { first = hand.old.first; count = keep } }
    ensures held { IsHeldBy nid_engine hand.new book.new }
    ensures book { FreesRun nid_engine
        (record { first = hand.old.first + keep; count = length hand.old.holds - keep }) book.old book.new }
{
    let run = hand.run();
    let first = run.first + keep;
    let count = run.count - keep;
    let told = wished(SectionRun { first, count }, nid_engine, book);
    free_back(hand, count, nid_engine, book);
    told
}

// Appends the marks of the sections from `from` up to `upto` to those of the sections before.
fn marks_on(first: u16, from: u16, upto: u16, old: u64, nid_engine: u32, book: &Book) -> u64
    requires order { from ≤ upto }
    requires room { upto ≤ 32 }
    requires numbers { first + upto ≤ 65535 }
    requires fits { old < 2 ^ from }
    ensures value { marked first upto result
        ≡ marked first from old ++ wished nid_engine (record { first = first + from; count = upto - from }) book.now }
    ensures fits { result < 2 ^ upto }
{
    let mut marks = old;
    for k in from..upto {
        let mark = if is_wished(first + k, nid_engine, book) {
            1
        } else {
            0
        };
        marks = marks * 2 + mark;
    }
    marks
}

// Appends no marks for the sections from `from` up to `upto` to those of the sections before.
fn no_marks_on(first: u16, from: u16, upto: u16, old: u64) -> u64
    requires order { from ≤ upto }
    requires room { upto ≤ 32 }
    requires fits { old < 2 ^ from }
    ensures value { marked first upto result ≡ marked first from old }
    ensures fits { result < 2 ^ upto }
{
    let mut marks = old;
    for k in from..upto {
        marks *= 2;
    }
    marks
}

/// Those sections that are in use for the train and wished back, in rising order. They are among the first `cleared`,
/// or after the first `keep`.
pub fn wished_around(
    sections: SectionRun,
    cleared: u16,
    keep: u16,
    nid_engine: u32,
    book: &Book,
) -> Told
    requires room { sections.count ≤ 32 }
    requires numbers { sections.first + sections.count ≤ 65535 }
    requires some { cleared ≤ keep }
    requires keep { keep ≤ sections.count }
    ensures { result ≡ wished nid_engine (front_of cleared (run_of sections)) book.now
        ++ wished nid_engine (rest_of keep (run_of sections)) book.now }
{
    let (first, count) = (sections.first, sections.count);
    let front = marks_on(first, 0, cleared, 0, nid_engine, book);
    let kept = no_marks_on(first, cleared, keep, front);
    let marks = marks_on(first, keep, count, kept, nid_engine, book);
    Told::of(first, count, marks)
}

/// Gives all sections of the hand back, and ends it.
pub fn end_hand(mut hand: Hand, book: &mut Book) {
    while let Some(token) = hand.cut_front() {
        end_token(token, book);
    }
    hand.end();
}

/// This many sections that follow these.
pub fn run_after(sections: SectionRun, count: u16) -> SectionRun
    requires { sections.first + sections.count ≤ 65535 }
    ensures { run_of result ≡ record { first = next_after (run_of sections); count = count } }
{
    SectionRun {
        first: sections.first + sections.count,
        count,
    }
}
