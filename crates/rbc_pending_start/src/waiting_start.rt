ghost use Rattle.std.specs.Prelude.{◌≡◌, ℕ, ◌+◌, ◌≤◌, length, true, false, not, Some, None, option_map};
ghost use Rattle.std.specs.Prelude.{if◌then◌else◌, IfOk, IfSome};
ghost use Rattle.rbc_spec.specs.Line as track;
ghost use Rattle.rbc_spec.specs.Place as spec;
ghost use Rattle.rbc_spec.specs.Place.{covered};
ghost use Rattle.rbc_spec.specs.SectionRuns.{is_empty};
ghost use Rattle.rbc_spec.specs.Centre.{Centre};
ghost use Rattle.rbc_spec.specs.Rules as rules;
ghost use Rattle.rbc_spec.specs.Links as links;
ghost use Rattle.rbc_book.specs.Book.{Pages, is_own};
ghost use Rattle.rbc_hand.specs.Hands.{run, IsAllOwn};
ghost use Rattle.rbc_line.specs.SectionRuns.{run_of};
ghost use Rattle.rbc_place.specs.Places.{place_of};

use rbc_allocation::Told;
use rbc_book::Book;
use rbc_hand::Hand;
use rbc_line::{Line, SectionRun};
use rbc_place::{Place, covered};
use std::alloc::{AllocError, Global};
use std::marker::Model;
use std::mem;

/// One train's start of mission that waits for the right to supervise (profile), if there is one. It has its place, and
/// the claims on the sections that it covers. `has_asked`: the registrar was asked and has not answered. It can't be
/// copied or dropped: its claims return to the book or move into a mission.
#[must_use]
#[derive(Debug)]
pub struct WaitingStart {
    nid_engine: u32,
    place: Option<Place>,
    claims: Hand,
    has_asked: bool,
}

impl Model for WaitingStart {
    ghost use Rattle.rbc_pending_start.specs.Waits.{WaitState, wait_state, IsWaitingStart};

    ghost Value = { WaitState };

    ghost view = { λ w. wait_state w.nid_engine w.place w.claims w.has_asked };

    ghost invariant = { λ w. IsWaitingStart w.nid_engine w.place w.claims };
}

impl WaitingStart {
    ghost use Rattle.rbc_pending_start.specs.Waits.{nothing_waits, waits_at, HasWait, with_wait, telling, asking};
    ghost use Rattle.rbc_pending_start.specs.Waits.{rejecting};
    ghost use Rattle.rbc_allocation.specs.Sections.{TakesRun, FreesRun, IsAllOpen, IsAllTaken, wished};

    /// Of the train with this NID_ENGINE: none waits, and nobody is asked.
    pub fn new(alloc: Global, nid_engine: u32) -> Result<WaitingStart, AllocError>
        ensures { IfOk result (λ w. w ≡ nothing_waits nid_engine false) }
    {
        let claims = Hand::new(alloc)?;
        Ok(WaitingStart {
            nid_engine,
            place: None,
            claims,
            has_asked: false,
        })
    }

    /// The train's NID_ENGINE.
    pub fn nid_engine(&self) -> u32
        ensures { result ≡ self.now.engine }
    {
        self.nid_engine
    }

    /// The place of the waiting start; `None` if and only if none waits.
    pub fn place(&self) -> Option<Place>
        ensures { option_map place_of result ≡ self.now.wait }
    {
        self.place
    }

    /// The sections that are claimed for it; empty if none waits.
    pub fn claims(&self) -> SectionRun
        ensures { run_of result ≡ self.now.sections }
    {
        self.claims.run()
    }

    /// Whether the registrar was asked for the right and has not answered.
    pub fn has_asked(&self) -> bool
        ensures { result ≡ self.now.has_asked }
    {
        self.has_asked
    }

    /// Asks for the right. The result is whether the registrar has to be asked: not if a question is pending.
    pub fn ask(&mut self) -> bool
        ensures answer { result ≡ not self.old.has_asked }
        ensures state { self.new ≡ record self.old { has_asked = true } }
    {
        let is_new = !self.has_asked;
        self.has_asked = true;
        is_new
    }

    /// The registrar has answered.
    pub fn note_answer(&mut self)
        ensures { self.new ≡ record self.old { has_asked = false } }
    {
        self.has_asked = false;
    }

    /// A start waits at this place: the sections that it covers are taken into use for the train.
    pub fn begin(&mut self, line: &Line, place: Place, book: &mut Book)
        requires none { self.old.wait ≡ None }
        requires fit { spec.is_fit line.now (place_of place) ≡ true }
        requires some { 1 ≤ (covered line.now (place_of place)).count }
        requires open { IsAllOpen (covered line.now (place_of place)) book.old }
        ensures waits { self.new ≡ waits_at line.now (place_of place) self.old }
        ensures book { TakesRun self.old.engine (covered line.now (place_of place)) book.old book.new }
        ensures claims { IsAllTaken self.old.engine self.new.sections book.new }
    {
        let run = covered(line, &place);
        rbc_allocation::take_run(&mut self.claims, run, self.nid_engine, book);
        self.place = Some(place);
    }

    /// A start at another centre than the train's registrar waits, and asks for the right. The result is whether a
    /// frame has to ask the registrar: not if a question is pending.
    pub fn start(&mut self, line: &Line, place: Place, book: &mut Book) -> bool
        requires none { self.old.wait ≡ None }
        requires fit { spec.is_fit line.now (place_of place) ≡ true }
        requires some { 1 ≤ (covered line.now (place_of place)).count }
        requires open { IsAllOpen (covered line.now (place_of place)) book.old }
        ensures answer { result ≡ not self.old.has_asked }
        ensures waits { self.new ≡ record (waits_at line.now (place_of place) self.old) { has_asked = true } }
        ensures homes { (s : ℕ) → is_own book.new s ≡ is_own book.old s }
        ensures claims { IsAllTaken self.old.engine self.new.sections book.new }
        ensures exact { (c : ℕ) (k : Centre) → HasWait line.now c k self.old book.old
            → rules.start_waiting line.now self.old.engine (place_of place) k
            ≡ asking line.now self.old.engine result (with_wait self.new book.new k) }
    {
        self.begin(line, place, book);
        self.ask()
    }

    /// Drops a waiting start and gives its sections back. The result is those that were wished back, in rising order;
    /// they are reported to the interlocking. Nothing changes if none waits. A pending question goes on.
    pub fn drop_start(&mut self, book: &mut Book) -> Told
        ensures waits { self.new ≡ nothing_waits self.old.engine self.old.has_asked }
        ensures book { FreesRun self.old.engine self.old.sections book.old book.new }
        ensures told { result ≡ wished self.old.engine self.old.sections book.old }
        ensures exact { (line : track.Line) (c : ℕ) (k : Centre) → HasWait line c k self.old book.old
            → rules.drop_wait line c self.old.engine k ≡ telling (with_wait self.new book.new k) result }
    {
        let run = self.claims();
        let told = rbc_allocation::clear(&mut self.claims, run.count, self.nid_engine, book);
        self.claims.forget_end();
        self.place = None;
        told
    }

    /// The registrar refuses the right: a waiting start is dropped, and its train has to be rejected. The result is the
    /// sections to report to the interlocking, in rising order. `None` if and only if no question is pending or no
    /// start waits.
    pub fn give_up(&mut self, book: &mut Book) -> Option<Told>
        ensures waits { self.new ≡ (if self.old.has_asked then nothing_waits self.old.engine false else self.old) }
        ensures homes { (s : ℕ) → is_own book.new s ≡ is_own book.old s }
        ensures exact { (line : track.Line) (c : ℕ) (k : Centre) → HasWait line c k self.old book.old
            → links.right_refused line c self.old.engine k
            ≡ rejecting self.old.engine result (with_wait self.new book.new k) }
    {
        if !self.has_asked {
            return None;
        }
        self.has_asked = false;
        if self.place.is_none() {
            return None;
        }
        Some(self.drop_start(book))
    }

    /// The registrar gives the right. The result is the place of the waiting start, whose claims move into the hand,
    /// which was empty. `None` if and only if none waits; then the hand stays as it is.
    pub fn admit(&mut self, hand: &mut Hand) -> Option<Place>
        requires empty { is_empty (run hand.old) ≡ true }
        ensures place { option_map place_of result ≡ self.old.wait }
        ensures waits { self.new ≡ nothing_waits self.old.engine false }
        ensures sections { IfSome result (λ place. run hand.new ≡ self.old.sections) }
        ensures own { IfSome result (λ place. IsAllOwn self.old.engine hand.new) }
        ensures some { IfSome result (λ place. 1 ≤ length hand.new.holds) }
        ensures most { IfSome result (λ place. length hand.new.holds ≤ 32) }
        ensures numbers { IfSome result (λ place. hand.new.first + length hand.new.holds ≤ 65535) }
        ensures none { result ≡ None → hand.new ≡ hand.old }
        ensures exact { (line : track.Line) (c : ℕ) (k : Centre) (book : Pages) → HasWait line c k self.old book
            → self.old.has_asked ≡ true → k.mission self.old.engine ≡ None → IfSome result (λ place.
            links.right_given line c self.old.engine k
            ≡ rules.begin line self.old.engine (place_of place) (with_wait self.new book k)) }
    {
        self.has_asked = false;
        let Some(place) = self.place else {
            return None;
        };
        self.place = None;
        hand.forget_end();
        mem::swap(&mut self.claims, hand);
        Some(place)
    }

    /// Ends it when its centre ends: its sections return to the book.
    pub fn end(self, book: &mut Book) {
        let WaitingStart {
            nid_engine: _,
            place: _,
            claims,
            has_asked: _,
        } = self;
        rbc_allocation::end_hand(claims, book);
    }
}
