ghost use Rattle.std.specs.Prelude.{◌≡◌, ℕ, ◌+◌, ◌≤◌, ◌==◌, ◌&&◌, not, true, false, if◌then◌else◌, IfOk, OnErr};
ghost use Rattle.std.specs.Prelude.{MatchResult, IfSome, None, is_some};
ghost use Rattle.rbc_spec.specs.Centre as spec;
ghost use Rattle.rbc_spec.specs.Line.{is_home};
ghost use Rattle.rbc_spec.specs.SectionRuns.{longest, within};
ghost use Rattle.rbc_spec.specs.Maps.{put};

use crate::answer::{Back, NotHome, Unset};
use crate::change::Change;
use crate::claim::{Claim, Claims};
use crate::page::Page;
use crate::runs::Runs;
use rbc_line::Line;
use std::alloc::{AllocError, Global};
use std::marker::Model;

/// The home sections of one centre: of each a page. Sections are numbered over the whole line.
#[derive(Debug, Drop)]
pub struct Book {
    /// The page of each section of the line whose home the centre is.
    runs: Runs,
}

impl Model for Book {
    ghost use Rattle.rbc_book.specs.Book.{Pages};
    ghost use Rattle.rbc_book.specs.Sheet.{pages_on};

    ghost Value = { Pages };

    ghost view = { λ b. pages_on b.runs };
}

impl Book {
    ghost use Rattle.rbc_spec.specs.Centre.{is_open, is_unused, is_out_for, is_used_for};
    ghost use Rattle.rbc_book.specs.Entries.{entry_of};
    ghost use Rattle.rbc_book.specs.Book.{is_own, entry_at, wish_at};
    ghost use Rattle.rbc_book.specs.Claim.{section_of, train_of, claim_if, claims_on, is_taken_by};
    ghost use Rattle.rbc_book.specs.Answers.{unset_answer, back_answer};
    ghost use Rattle.rbc_book.specs.Changes.{IsPageOf, IsTaken, entry_after, wish_after};

    /// The initial book of a centre of the line: every section is shut, and none is wished back.
    pub fn new(alloc: Global, line: &Line, centre: u8) -> Result<Book, AllocError>
        ensures homes { IfOk result (λ b. (k : ℕ) → is_own b k ≡ is_home line.now centre k) }
        ensures entry { IfOk result (λ b. (k : ℕ) → entry_at b k ≡ spec.Shut) }
        ensures wish { IfOk result (λ b. (k : ℕ) → wish_at b k ≡ false) }
    {
        let runs = Runs::new(alloc, line, centre, Page::SHUT)?;
        Ok(Book { runs })
    }

    /// Whether the section is of this book's home.
    #[tactic(auto, unfolding(crate::specs::Book::is_own))]
    pub fn has(&self, s: u16) -> bool
        ensures { result ≡ is_own self.now s }
    {
        self.runs.page(s).is_some()
    }

    /// The page of a section; one of another home, or not of the line, is shut.
    pub fn page(&self, s: u16) -> Page
        ensures entry { entry_of result.entry ≡ entry_at self.now s }
        ensures wish { result.is_wished ≡ wish_at self.now s }
        ensures foreign { is_own self.now s ≡ false → result ≡ Page.SHUT }
    {
        self.runs.page(s).unwrap_or(Page::SHUT)
    }

    /// The length of the longest run of open sections from the first on, up to the limit.
    pub fn open_run(&self, first: u16, most: u16) -> u16
        ensures { result ≡ longest (λ s. is_open (entry_at self.now s)) first most }
    {
        self.runs.open_run(first, most)
    }

    /// A section that is in use for the train, here or at another centre; `None` if and only if there is none.
    pub fn section_in_use(&self, nid_engine: u32) -> Option<u16>
        ensures some { IfSome result (λ s. is_used_for nid_engine (entry_at self.now s) ≡ true) }
        ensures none { result ≡ None → (s : ℕ) → is_used_for nid_engine (entry_at self.now s) ≡ false }
    {
        self.runs.section_in_use(nid_engine)
    }

    // Changes the page of a section, and returns the page before, if it is of this book's home.
    #[inline]
    fn change(&mut self, s: u16, change: Change) -> Option<Page>
        ensures own { is_some result ≡ is_own self.old s }
        ensures page { IfSome result (λ page. IsPageOf self.old s page) }
        ensures homes { (k : ℕ) → is_own self.new k ≡ is_own self.old k }
        ensures entry { is_own self.old s ≡ true → (k : ℕ) → entry_at self.new k
            ≡ put (entry_at self.old) s (entry_after change (entry_at self.old s) (wish_at self.old s)) k }
        ensures wish { is_own self.old s ≡ true → (k : ℕ) → wish_at self.new k
            ≡ put (wish_at self.old) s (wish_after change (entry_at self.old s) (wish_at self.old s)) k }
        ensures foreign { result ≡ None → self.new ≡ self.old }
        ensures shut { result ≡ None → entry_at self.old s ≡ spec.Shut }
    {
        self.runs.change(s, change)
    }

    /// The interlocking releases a section: one that is in no use becomes open, and a wish to have it back ends.
    pub fn set(&mut self, s: u16) -> Result<(), NotHome>
        ensures own { MatchResult result (λ _. is_own self.old s ≡ true) (λ _. is_own self.old s ≡ false) }
        ensures homes { (k : ℕ) → is_own self.new k ≡ is_own self.old k }
        ensures entry { (k : ℕ) → entry_at self.new k
            ≡ (if (is_own self.old s && is_unused (entry_at self.old s)) && (k == s)
            then spec.Open else entry_at self.old k) }
        ensures wish { (k : ℕ) → wish_at self.new k
            ≡ (if is_own self.old s && (k == s) then false else wish_at self.old k) }
        ensures err { OnErr result (self.new ≡ self.old) }
    {
        match self.change(s, Change::Set) {
            Some(_) => Ok(()),
            None => Err(NotHome),
        }
    }

    /// The interlocking takes a section back: one that is in no use becomes shut; of one that is in use the wish is
    /// noted.
    pub fn unset(&mut self, s: u16) -> Result<Unset, NotHome>
        ensures own { MatchResult result (λ _. is_own self.old s ≡ true) (λ _. is_own self.old s ≡ false) }
        ensures answer { IfOk result (λ answer. answer ≡ unset_answer (entry_at self.old s)) }
        ensures homes { (k : ℕ) → is_own self.new k ≡ is_own self.old k }
        ensures entry { (k : ℕ) → entry_at self.new k
            ≡ (if (is_own self.old s && is_unused (entry_at self.old s)) && (k == s)
            then spec.Shut else entry_at self.old k) }
        ensures wish { (k : ℕ) → wish_at self.new k
            ≡ (if is_own self.old s && (k == s) then not (is_unused (entry_at self.old s)) else wish_at self.old k) }
        ensures err { OnErr result (self.new ≡ self.old) }
    {
        let Some(page) = self.change(s, Change::Unset) else {
            return Err(NotHome);
        };
        if page.entry.is_unused() {
            Ok(Unset::Done)
        } else {
            Ok(Unset::Asked)
        }
    }

    /// Takes a section into use for a train; `None` if and only if it is not open.
    pub fn take(&mut self, s: u16, nid_engine: u32) -> Option<Claim>
        ensures claim { result ≡ claim_if (is_open (entry_at self.old s)) s nid_engine }
        ensures homes { (k : ℕ) → is_own self.new k ≡ is_own self.old k }
        ensures entry { (k : ℕ) → entry_at self.new k
            ≡ (if is_open (entry_at self.old s) && (k == s) then spec.Taken nid_engine else entry_at self.old k) }
        ensures wish { (k : ℕ) → wish_at self.new k ≡ wish_at self.old k }
    {
        let page = self.change(s, Change::Take { nid_engine })?;
        if !page.entry.is_open() {
            return None;
        }
        Some(Claim {
            section: s,
            nid_engine,
        })
    }

    // Takes an open section into use for a train, with those after it in its run, up to the limit; returns their
    // number.
    #[inline]
    fn take_part(&mut self, s: u16, most: u16, nid_engine: u32) -> u16
        requires some { 1 ≤ most }
        requires open { is_open (entry_at self.old s) ≡ true }
        ensures some { 1 ≤ result }
        ensures most { result ≤ most }
        ensures taken { IsTaken (record { first = s; count = result }) nid_engine self.old self.new }
    {
        let Some((_, size)) = self.runs.change_part(s, most, Change::Take { nid_engine }) else {
            return 0;
        };
        size
    }

    /// Takes consecutive open sections into use for a train: the claims on them.
    pub fn take_run(&mut self, first: u16, count: u16, nid_engine: u32) -> Claims
        requires numbers { first + count ≤ 65535 }
        requires open { (s : ℕ) → within (record { first = first; count = count }) s ≡ true
            → is_open (entry_at self.old s) ≡ true }
        ensures claims { result ≡ claims_on (record { first = first; count = count }) nid_engine }
        ensures homes { (k : ℕ) → is_own self.new k ≡ is_own self.old k }
        ensures entry { (k : ℕ) → entry_at self.new k ≡ (if within (record { first = first; count = count }) k
            then spec.Taken nid_engine else entry_at self.old k) }
        ensures wish { (k : ℕ) → wish_at self.new k ≡ wish_at self.old k }
    {
        let mut taken = 0;
        while taken < count {
            taken += self.take_part(first + taken, count - taken, nid_engine);
        }
        Claims {
            first,
            count,
            nid_engine,
        }
    }

    /// Gives a section back. It becomes open, or shut if it is wished back, and then the wish ends. If this book does
    /// not have the claim's section as taken for its train, nothing changes, and the answer is `Open`.
    pub fn give_back(&mut self, claim: Claim) -> Back
        ensures answer { result ≡ back_answer (is_taken_by self.old claim && wish_at self.old (section_of claim)) }
        ensures homes { (k : ℕ) → is_own self.new k ≡ is_own self.old k }
        ensures entry { (k : ℕ) → entry_at self.new k
            ≡ (if is_taken_by self.old claim && (k == section_of claim)
            then (if wish_at self.old (section_of claim) then spec.Shut else spec.Open) else entry_at self.old k) }
        ensures wish { (k : ℕ) → wish_at self.new k
            ≡ (if is_taken_by self.old claim && (k == section_of claim) then false else wish_at self.old k) }
    {
        let Claim {
            section,
            nid_engine,
        } = claim;
        let Some(page) = self.change(section, Change::GiveBack { nid_engine }) else {
            return Back::Open;
        };
        if page.is_wished && page.entry.is_taken_for(nid_engine) {
            Back::Told
        } else {
            Back::Open
        }
    }

    /// Lends a section to another centre, at which its train runs on. If this book does not have the claim's section as
    /// taken for its train, nothing changes.
    pub fn lend(&mut self, claim: Claim)
        ensures homes { (k : ℕ) → is_own self.new k ≡ is_own self.old k }
        ensures entry { (k : ℕ) → entry_at self.new k
            ≡ (if is_taken_by self.old claim && (k == section_of claim)
            then spec.Out (train_of claim) else entry_at self.old k) }
        ensures wish { (k : ℕ) → wish_at self.new k ≡ wish_at self.old k }
    {
        let Claim {
            section,
            nid_engine,
        } = claim;
        self.change(section, Change::Lend { nid_engine });
    }

    /// Takes a section of a train back from another centre; `None` if and only if it is not out for the train.
    pub fn reclaim(&mut self, s: u16, nid_engine: u32) -> Option<Claim>
        ensures claim { result ≡ claim_if (is_out_for nid_engine (entry_at self.old s)) s nid_engine }
        ensures homes { (k : ℕ) → is_own self.new k ≡ is_own self.old k }
        ensures entry { (k : ℕ) → entry_at self.new k
            ≡ (if is_out_for nid_engine (entry_at self.old s) && (k == s)
            then spec.Taken nid_engine else entry_at self.old k) }
        ensures wish { (k : ℕ) → wish_at self.new k ≡ wish_at self.old k }
    {
        let page = self.change(s, Change::Reclaim { nid_engine })?;
        if !page.entry.is_out_for(nid_engine) {
            return None;
        }
        Some(Claim {
            section: s,
            nid_engine,
        })
    }
}
