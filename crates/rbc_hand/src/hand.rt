ghost use Rattle.std.specs.Prelude.{◌≡◌, ◌==◌, ◌<◌, ℕ, ◌+◌, ◌-◌, ◌≤◌, ◌++◌, length, replicate, true, not, is_some};
ghost use Rattle.std.specs.Prelude.{if◌then◌else◌, Ok, Err, IsOk, IsSome, IfOk, IfSome};
ghost use Rattle.std.specs.VecDeque.{deque_capacity};
ghost use Rattle.rbc_spec.specs.SectionRuns.{next_after};
ghost use Rattle.rbc_book.specs.Claim.{claimed, claims_train};
ghost use Rattle.rbc_hand.specs.Hands.{own_tokens};

use crate::token::Token;
use rbc_book::Claims;
use rbc_line::SectionRun;
use std::alloc::{AllocError, Global};
use std::collections::VecDeque;
use std::marker::Model;

/// The consecutive sections that a train has in its movement authority, or that wait for it, at most 32. For each it
/// has the token that the centre holds. Room for all is made at the beginning, and no call takes memory after that. A
/// hand can't be copied or dropped: its tokens are cut off, and then it ends.
#[must_use]
#[derive(Debug)]
pub struct Hand {
    // The section of the first token. In an empty hand, the section at which it became empty.
    first: u16,
    tokens: VecDeque<Token>,
}

impl Model for Hand {
    ghost use Rattle.std.specs.VecDeque.{deque_capacity};
    ghost use Rattle.rbc_hand.specs.Hands.{Holding, holding, IsHand};

    ghost Value = { Holding };

    ghost view = { λ h. holding h.first h.tokens.items };

    ghost invariant = { λ h. IsHand h.first h.tokens.items (deque_capacity h.tokens) };
}

// Puts the tokens of claims after these, which have the room.
fn push_claims(tokens: &mut VecDeque<Token>, mut claims: Claims)
    requires room { length tokens.old.items + (claimed claims).count ≤ deque_capacity tokens.old }
    requires numbers { next_after (claimed claims) ≤ 65535 }
    ensures items { tokens.new.items ≡ tokens.old.items
        ++ own_tokens (claimed claims).first (claimed claims).count (claims_train claims) }
    ensures capacity { deque_capacity tokens.new ≡ deque_capacity tokens.old }
{
    for _ in 0..claims.len() {
        tokens.push_back_reserved(Token::Own(claims.cut_front()));
    }
    claims.end();
}

impl Hand {
    ghost use Rattle.rbc_hand.specs.Tokens.{section_of, held_of, Own, token_of};
    ghost use Rattle.rbc_line.specs.SectionRuns.{run_of};
    ghost use Rattle.rbc_hand.specs.Hands.{run, nothing, front, back, without_front, without_back, run_without_front};
    ghost use Rattle.rbc_hand.specs.Hands.{run_without_back, shorter_in_front, takes, extended, one, longer};
    ghost use Rattle.rbc_hand.specs.Hands.{IsAllOwn};
    ghost use Rattle.rbc_spec.specs.SectionRuns.{no_run, is_empty, joined};

    /// The most sections that a hand has.
    pub const ROOM: u16 = 32;

    /// An empty hand.
    pub fn new(alloc: Global) -> Result<Hand, AllocError>
        ensures { IfOk result (λ hand. hand ≡ nothing) }
    {
        let tokens = VecDeque::with_capacity(alloc, Hand::ROOM as usize)?;
        Ok(Hand { first: 0, tokens })
    }

    /// Ends an empty hand.
    pub fn end(self)
        requires { is_empty (run self) ≡ true }
    {
        let Hand { first: _, tokens } = self;
        tokens.destroy_empty();
    }

    /// Its sections. The first of an empty hand is the section at which it became empty.
    pub fn run(&self) -> SectionRun
        ensures { run_of result ≡ run self.now }
    {
        SectionRun {
            first: self.first,
            count: self.tokens.len() as u16,
        }
    }

    /// How many sections it has.
    pub fn len(&self) -> u16
        ensures { result ≡ length self.now.holds }
    {
        self.run().count
    }

    /// Whether it has no section.
    pub fn is_empty(&self) -> bool
        ensures { result ≡ is_empty (run self.now) }
    {
        self.run().is_empty()
    }

    /// Whether a section may be added after the last: there is room, and it is the next in number, or the hand is
    /// empty. A section 65 535, which no line has, may not.
    #[tactic(auto, unfolding(crate::specs::Hands::takes))]
    pub fn takes(&self, section: u16) -> bool
        ensures { result ≡ takes (run self.now) section }
    {
        let run = self.run();
        run.count < Hand::ROOM
            && section < u16::MAX
            && (run.is_empty() || u32::from(section) == run.next_after())
    }

    // The first section with one more after the last.
    fn first_with(&self, section: u16) -> u16
        ensures { result ≡ (if length self.now.holds == 0 then section else self.now.first) }
    {
        if self.is_empty() { section } else { self.first }
    }

    /// Adds a section after the last, or begins an empty hand with it. A token that may not be added is handed back.
    pub fn extend(&mut self, token: Token) -> Result<(), Token>
        ensures answer { result ≡ (if takes (run self.old) (section_of token) then Ok tt else Err token) }
        ensures hand { self.new ≡ (if takes (run self.old) (section_of token)
            then extended self.old (section_of token) (held_of token) else self.old) }
        ensures run { run self.new ≡ (if takes (run self.old) (section_of token)
            then joined (run self.old) (one (section_of token)) else run self.old) }
        // A section that follows the last at once is accepted if there is room. An empty hand accepts any section.
        ensures follows { (run self.old).count < 32 → section_of token < 65535
            → section_of token ≡ next_after (run self.old)
            → IsOk result × (run self.new ≡ longer (run self.old)) }
        ensures begins { (run self.old).count ≡ 0 → section_of token < 65535
            → IsOk result × (run self.new ≡ one (section_of token)) }
        ensures own { (t : ℕ) → IsAllOwn t self.old → held_of token ≡ Own t → IsAllOwn t self.new }
    {
        let section = token.section();
        if !self.takes(section) {
            return Err(token);
        }
        self.first = self.first_with(section);
        self.tokens.push_back_reserved(token);
        Ok(())
    }

    /// Adds the sections of claims after the last, or begins an empty hand with them.
    pub fn extend_own(&mut self, claims: Claims)
        requires room { length self.old.holds + (claimed claims).count ≤ 32 }
        requires numbers { next_after (claimed claims) ≤ 65535 }
        requires next { 0 < length self.old.holds → next_after (run self.old) ≡ (claimed claims).first }
        ensures { self.new ≡ record {
          first = if length self.old.holds == 0 then (claimed claims).first else self.old.first;
          holds = self.old.holds ++ replicate (claimed claims).count (Own (claims_train claims));
        } }
    {
        self.first = self.first_with(claims.first());
        push_claims(&mut self.tokens, claims);
    }

    /// Cuts off the first section and returns its token. `None` if and only if there is none; then nothing changes.
    pub fn cut_front(&mut self) -> Option<Token>
        ensures token { result ≡ front self.old }
        ensures some { is_some result ≡ not (is_empty (run self.old)) }
        ensures hand { self.new ≡ without_front self.old }
        ensures run { run self.new ≡ run_without_front (run self.old) }
        ensures cuts { 0 < (run self.old).count → IsSome result × (run self.new ≡ shorter_in_front (run self.old)) }
        ensures own { (t : ℕ) → IsAllOwn t self.old
            → IfSome result (λ token. token ≡ token_of self.old.first (Own t)) }
        ensures rest_own { (t : ℕ) → IsAllOwn t self.old → IsAllOwn t self.new }
    {
        let token = self.tokens.pop_front();
        if token.is_some() {
            self.first += 1;
        }
        token
    }

    /// Cuts off the last section and returns its token. `None` if and only if there is none; then nothing changes.
    pub fn cut_back(&mut self) -> Option<Token>
        ensures token { result ≡ back self.old }
        ensures some { is_some result ≡ not (is_empty (run self.old)) }
        ensures hand { self.new ≡ without_back self.old }
        ensures run { run self.new ≡ run_without_back (run self.old) }
        ensures cuts { 0 < (run self.old).count → IsSome result }
        ensures own { (t : ℕ) → IsAllOwn t self.old
            → IfSome result (λ token. token ≡ token_of (self.old.first + (length self.old.holds - 1)) (Own t)) }
        ensures rest_own { (t : ℕ) → IsAllOwn t self.old → IsAllOwn t self.new }
    {
        self.tokens.pop_back()
    }

    /// Forgets the section at which an empty hand became empty. A hand that has a section stays as it is.
    pub fn forget_end(&mut self)
        ensures hand { self.new ≡ (if is_empty (run self.old) then nothing else self.old) }
        ensures run { run self.new ≡ (if is_empty (run self.old) then no_run else run self.old) }
    {
        if self.tokens.is_empty() {
            self.first = 0;
        }
    }
}
