ghost use Rattle.std.specs.Prelude.{◌≡◌, ◌+◌, ◌-◌, ◌≤◌, ◌<◌, length, take, replicate, true};
ghost use Rattle.rbc_spec.specs.SectionRuns.{next_after, is_empty};
ghost use Rattle.rbc_hand.specs.Tokens.{Name, held_of};
ghost use Rattle.rbc_hand.specs.Hands.{run, takes, extended, without_back};
ghost use Rattle.rbc_border.specs.Names.{IsName, IsAllNames, PassesOn};

use rbc_hand::{Hand, Lent, Token};
use rbc_line::SectionRun;

// Ends the name of a section.
fn spend(token: Token)
    requires { IsName (held_of token) }
{
    match token {
        Token::Name(lent) => {
            lent.send();
        }
        Token::Own(_claim) => unreachable!(),
    }
}

// Adds the name of a section to a hand, after its last.
fn add(names: &mut Hand, s: u16, nid_engine: u32, home: u8)
    requires { takes (run names.old) s ≡ true }
    ensures { names.new ≡ extended names.old s (Name nid_engine home) }
{
    let lent = Lent::arrive(s, nid_engine, home);
    if let Err(token) = names.extend(Token::Name(lent)) {
        spend(token);
    }
}

/// Puts the names of these sections, which their home has lent to the train, into an empty hand.
pub(crate) fn fill(names: &mut Hand, sections: SectionRun, nid_engine: u32, home: u8)
    requires empty { is_empty (run names.old) ≡ true }
    requires room { sections.count ≤ 32 }
    requires numbers { sections.first + sections.count ≤ 65535 }
    ensures first { 0 < sections.count → names.new.first ≡ sections.first }
    ensures holds { names.new.holds ≡ replicate sections.count (Name nid_engine home) }
{
    for k in 0..sections.count {
        add(names, sections.first + k, nid_engine, home);
    }
}

// The last name ends.
fn spend_last(names: &mut Hand)
    requires { IsAllNames names.old }
    ensures { names.new ≡ without_back names.old }
{
    if let Some(token) = names.cut_back() {
        spend(token);
    }
}

/// The last `count` names end.
pub(crate) fn spend_back(names: &mut Hand, count: u16)
    requires names { IsAllNames names.old }
    requires some { count ≤ length names.old.holds }
    ensures { names.new ≡ record names.old { holds = take (length names.old.holds - count) names.old.holds } }
{
    for _ in 0..count {
        spend_last(names);
    }
}

// Moves the first name to the end of a hand.
fn pass_first(names: &mut Hand, hand: &mut Hand)
    requires some { 0 < length names.old.holds }
    requires hand { 0 < length hand.old.holds }
    requires room { length hand.old.holds < 32 }
    requires number { names.old.first < 65535 }
    requires next { next_after (run hand.old) ≡ names.old.first }
    ensures { PassesOn 1 names.old hand.old names.new hand.new }
{
    if let Some(token) = names.cut_front() {
        if let Err(token) = hand.extend(token) {
            spend(token);
        }
    }
}

/// Moves the first `count` names to the end of a hand.
pub(crate) fn pass(names: &mut Hand, count: u16, hand: &mut Hand)
    requires some { count ≤ length names.old.holds }
    requires hand { 0 < length hand.old.holds }
    requires room { length hand.old.holds + count ≤ 32 }
    requires numbers { 0 < count → names.old.first + count ≤ 65535 }
    requires next { 0 < count → next_after (run hand.old) ≡ names.old.first }
    ensures { PassesOn count names.old hand.old names.new hand.new }
{
    for _ in 0..count {
        pass_first(names, hand);
    }
}

/// All names end, and the hand.
pub(crate) fn end(mut names: Hand)
    requires { IsAllNames names }
{
    while let Some(token) = names.cut_front() {
        spend(token);
    }
    names.end();
}
