//! Sections that pass to another centre with a train, and arrive with one.

ghost use Rattle.std.specs.Prelude.{◌≡◌, ◌+◌, ◌≤◌, ◌<◌, ℕ, length, true, false, if◌then◌else◌};
ghost use Rattle.rbc_spec.specs.Centre.{Taken, Out, is_taken_for, is_out_for};
ghost use Rattle.rbc_spec.specs.SectionRuns.{within, is_empty, joined};
ghost use Rattle.rbc_book.specs.Book.{is_own, entry_at};
ghost use Rattle.rbc_hand.specs.Tokens.{Held, section_of, held_of, token_of};
ghost use Rattle.rbc_hand.specs.Hands.{run, one, takes, extended};
ghost use Rattle.rbc_line.specs.SectionRuns.{run_of};
ghost use Rattle.rbc_allocation.specs.Sections.{hand_rest, is_held_as, IsHeldBy};
ghost use Rattle.rbc_mission.specs.Passing.{IsBooked};

use rbc_book::Book;
use rbc_hand::{Hand, Lent, Token};
use rbc_line::{Line, SectionRun};

// A token passes to another centre: a section of the book's home is out from now on, and a name ends.
fn pass_token(token: Token, book: &mut Book)
    ensures { (s t : ℕ) (held : Held) → token ≡ token_of s held → is_held_as t (is_own book.old s) held ≡ true
        → IsBooked (is_taken_for t) (Out t) (one s) book.old book.new }
{
    match token {
        Token::Own(claim) => book.lend(claim),
        Token::Name(lent) => {
            lent.send();
        }
    }
}

// The first section of the hand passes.
fn pass_first(hand: &mut Hand, nid_engine: u32, book: &mut Book)
    requires held { IsHeldBy nid_engine hand.old book.old }
    requires some { is_empty (run hand.old) ≡ false }
    ensures hand { hand.new ≡ hand_rest 1 hand.old }
    ensures book { IsBooked (is_taken_for nid_engine) (Out nid_engine) (one hand.old.first) book.old book.new }
{
    if let Some(token) = hand.cut_front() {
        pass_token(token, book);
    }
}

/// Passes all sections of a hand to another centre. Those of the book's home are out for the train, and the names of
/// the others end.
pub(crate) fn pass_all(hand: &mut Hand, nid_engine: u32, book: &mut Book)
    requires held { IsHeldBy nid_engine hand.old book.old }
    ensures hand { hand.new ≡ hand_rest (length hand.old.holds) hand.old }
    ensures book { IsBooked (is_taken_for nid_engine) (Out nid_engine) (run hand.old) book.old book.new }
{
    for _ in 0..hand.len() {
        pass_first(hand, nid_engine, book);
    }
}

// The home of a section of the line.
fn home_of(line: &Line, s: u16) -> u8
    requires { s < length line.now.sections }
{
    match line.section(s) {
        Some(section) => section.home,
        None => unreachable!(),
    }
}

// The token of a section that arrives with a train from another centre. It is a claim if the section is of the book's
// home and was out for the train, and else a name.
fn token_from(line: &Line, s: u16, nid_engine: u32, book: &mut Book) -> Token
    requires line { s < length line.now.sections }
    requires own { is_own book.old s ≡ true → is_out_for nid_engine (entry_at book.old s) ≡ true }
    ensures section { section_of result ≡ s }
    ensures held { is_held_as nid_engine (is_own book.old s) (held_of result) ≡ true }
    ensures book { IsBooked (is_out_for nid_engine) (Taken nid_engine) (one s) book.old book.new }
{
    match book.reclaim(s, nid_engine) {
        Some(claim) => Token::Own(claim),
        None => Token::Name(Lent::arrive(s, nid_engine, home_of(line, s))),
    }
}

// Adds a section after the last of the hand.
fn add(hand: &mut Hand, token: Token, book: &mut Book)
    requires { takes (run hand.old) (section_of token) ≡ true }
    ensures hand { hand.new ≡ extended hand.old (section_of token) (held_of token) }
    ensures run { run hand.new ≡ joined (run hand.old) (one (section_of token)) }
    ensures book { book.new ≡ book.old }
{
    if let Err(token) = hand.extend(token) {
        end_token(token, book);
    }
}

// Ends a token.
fn end_token(token: Token, book: &mut Book) {
    match token {
        Token::Own(claim) => {
            book.give_back(claim);
        }
        Token::Name(lent) => {
            lent.send();
        }
    }
}

/// Puts sections that arrive with a train from another centre into an empty hand. Those of the book's home, which were
/// out for the train, are in it by their claims, and the others by their names.
pub(crate) fn come_all(
    hand: &mut Hand,
    line: &Line,
    sections: SectionRun,
    nid_engine: u32,
    book: &mut Book,
)
    requires empty { is_empty (run hand.old) ≡ true }
    requires some { 1 ≤ sections.count }
    requires most { sections.count ≤ 32 }
    requires numbers { sections.first + sections.count ≤ 65535 }
    requires line { sections.first + sections.count ≤ length line.now.sections }
    requires own { (s : ℕ) → within (run_of sections) s ≡ true → is_own book.old s ≡ true
        → is_out_for nid_engine (entry_at book.old s) ≡ true }
    ensures run { run hand.new ≡ run_of sections }
    ensures held { IsHeldBy nid_engine hand.new book.new }
    ensures book { IsBooked (is_out_for nid_engine) (Taken nid_engine) (run_of sections) book.old book.new }
{
    for k in 0..sections.count {
        let token = token_from(line, sections.first + k, nid_engine, book);
        add(hand, token, book);
    }
}
