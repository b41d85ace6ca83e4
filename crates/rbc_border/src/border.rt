ghost use Rattle.std.specs.Prelude.{◌≡◌, ◌+◌, ◌-◌, ◌++◌, ◌<◌, ◌≤◌, ◌&&◌, ◌==◌, ℕ, min, true, false, Some, None};
ghost use Rattle.std.specs.Prelude.{option_map, if◌then◌else◌, replicate, IfOk, IfSome};
ghost use Rattle.std.specs.Option.{option_map_or};
ghost use Rattle.rbc_spec.specs.Maps.{has};
ghost use Rattle.rbc_spec.specs.Line as track;
ghost use Rattle.rbc_spec.specs.SectionRuns.{no_run, within, next_after, is_empty, joined, part_before, part_from};
ghost use Rattle.rbc_spec.specs.Frame.{HasRunRange, RouteAsk, RouteReturn};
ghost use Rattle.rbc_spec.specs.Centre.{Centre, Mission};
ghost use Rattle.rbc_spec.specs.Acts as acts;
ghost use Rattle.rbc_spec.specs.Rules as rules;
ghost use Rattle.rbc_spec.specs.Links as links;
ghost use Rattle.rbc_hand.specs.Tokens.{Name};
ghost use Rattle.rbc_hand.specs.Hands.{run};
ghost use Rattle.rbc_line.specs.SectionRuns.{run_of};
ghost use Rattle.rbc_allocation.specs.Sections.{next_of, rest_of};
ghost use Rattle.rbc_border.specs.Homes.{is_of};
ghost use Rattle.rbc_border.specs.Lending.{sending};

use crate::homes::{is_of, is_of_one_home};
use crate::names;
use crate::question::Question;
use crate::way::Way;
use rbc_hand::Hand;
use rbc_line::{Line, SectionRun};
use std::alloc::{AllocError, Global};
use std::marker::Model;

/// The state of one train at the border to the next centre (profile). It has the train's pool, which are lent sections
/// that follow its hand at once, and the pending question for further sections. It can't be copied or dropped: the
/// names in its pool end when their sections are returned, or move into the train's hand.
#[must_use]
#[derive(Debug)]
pub struct Border {
    nid_engine: u32,
    // The centre that lent the pool.
    lender: u8,
    // The first section of the pool. In an empty pool, the section at which it became empty.
    first: u16,
    names: Hand,
    asked: Option<u16>,
}

impl Model for Border {
    ghost use Rattle.rbc_border.specs.Border.{BorderState, border_state, IsBorder};

    ghost Value = { BorderState };

    ghost view = { λ b. border_state b.nid_engine b.lender b.first b.names b.asked };

    ghost invariant = { λ b. IsBorder b.nid_engine b.lender b.first b.names };
}

impl Border {
    ghost use Rattle.rbc_border.specs.Border.{nothing_lent, HasBorder, with_border, IsWayOf, GoesOn, is_due, answers};
    ghost use Rattle.rbc_border.specs.Border.{wants};

    /// Of the train with this NID_ENGINE: nothing is lent to it, and nothing is asked for.
    pub fn new(alloc: Global, nid_engine: u32) -> Result<Border, AllocError>
        ensures { IfOk result (λ b. b ≡ nothing_lent nid_engine) }
    {
        let names = Hand::new(alloc)?;
        Ok(Border {
            nid_engine,
            lender: 0,
            first: 0,
            names,
            asked: None,
        })
    }

    /// The train's NID_ENGINE.
    pub fn nid_engine(&self) -> u32
        ensures { result ≡ self.now.engine }
    {
        self.nid_engine
    }

    /// The pool: lent sections that follow the train's hand. The first of an empty pool is the section at which it
    /// became empty.
    pub fn pool(&self) -> SectionRun
        ensures value { run_of result ≡ self.now.pool }
        ensures most { result.count ≤ 31 }
        ensures last { 0 < result.count → result.first + result.count ≤ 512 }
    {
        SectionRun {
            first: self.first,
            count: self.names.len(),
        }
    }

    /// Asks for the sections in advance of the hand of the train's mission, if that is due. It is if the first of them
    /// is of the next centre's home and on the track, and the hand has fewer than 32. Besides, the pool is empty, and
    /// no question is pending. `None` if and only if it is not due; then nothing changes.
    pub fn ask(&mut self, line: &Line, next: u8, way: Way) -> Option<Question>
        ensures question { result ≡ (if is_due line.now next way self.old
            then Some (record {
              first = next_after (run_of way.hand);
              most = min (32 - way.hand.count) (512 - next_after (run_of way.hand));
            }) else None) }
        ensures state { self.new
            ≡ (if is_due line.now next way self.old then record self.old {
              asked = Some (next_after (run_of way.hand));
            } else self.old) }
        ensures range { 1 ≤ way.hand.count
            → IfSome result (λ q. HasRunRange 1 31 (record { first = q.first; count = q.most })) }
        ensures exact { (k : Centre) (m : Mission) → HasBorder k self.old → k.mission self.old.engine ≡ Some m
            → IsWayOf way m
            → rules.ask_route_if_due line.now self.old.engine next k
            ≡ sending next (option_map (λ q. RouteAsk self.old.engine q.first q.most) result) (with_border self.new k) }
    {
        let next_after = way.hand.next_after();
        if !self.is_due(line, next, way) {
            return None;
        }
        let first = next_after as u16;
        self.asked = Some(first);
        Some(Question {
            first,
            most: (Hand::ROOM - way.hand.count).min(512 - first),
        })
    }

    // Whether more sections have to be asked for.
    fn is_due(&self, line: &Line, next: u8, way: Way) -> bool
        ensures value { result ≡ is_due line.now next way self.now }
        ensures first { result ≡ true → next_after (run_of way.hand) < 512 }
    {
        is_of(line, next, way.track, way.hand.next_after())
            && way.hand.count < Hand::ROOM
            && self.names.is_empty()
            && self.asked.is_none()
    }

    /// RouteInfo from another centre names the sections that it lends; `way` is that of the train's mission here, if it
    /// is not ended. It has an effect only if they answer the pending question from their first on. They must be of the
    /// line, on one track, and of that centre's home. Then the question ends. They become the pool if they follow the
    /// hand of the mission on its track and the pool is empty. Else the result is the sections, which have to be
    /// returned to that centre.
    pub fn info(
        &mut self,
        line: &Line,
        from: u8,
        sections: SectionRun,
        way: Option<Way>,
    ) -> Option<SectionRun>
        requires { sections.count ≤ 31 }
        ensures unasked { answers line.now from (run_of sections) self.old ≡ false
            → (result ≡ None) × (self.new ≡ self.old) }
        ensures wanted { answers line.now from (run_of sections) self.old ≡ true
            → wants line.now (run_of sections) way self.old ≡ true
            → (result ≡ None) × (self.new ≡ record self.old { lender = from; pool = run_of sections; asked = None }) }
        ensures unwanted { answers line.now from (run_of sections) self.old ≡ true
            → wants line.now (run_of sections) way self.old ≡ false
            → (result ≡ (if sections.count == 0 then None else Some sections))
            × (self.new ≡ record self.old { asked = None }) }
        ensures range { IfSome result (λ run. HasRunRange 1 31 (run_of run)) }
        ensures exact { (c : ℕ) (k : Centre) → HasBorder k self.old → GoesOn way (k.mission self.old.engine)
            → links.route_told line.now c from self.old.engine (run_of sections) k
            ≡ sending from (option_map (λ run. RouteReturn self.old.engine (run_of run)) result)
            (with_border self.new k) }
    {
        if !self.is_asked(sections.first) || !is_of_one_home(line, from, sections) {
            return None;
        }
        let is_wanted = self.wants(line, from, sections, way);
        self.asked = None;
        if is_wanted {
            names::fill(&mut self.names, sections, self.nid_engine, from);
            self.lender = from;
            self.first = sections.first;
            None
        } else if sections.is_empty() {
            None
        } else {
            Some(sections)
        }
    }

    // Whether a question is pending that begins with this section.
    fn is_asked(&self, first: u16) -> bool
        ensures { result ≡ has (λ asked. asked == first) self.now.asked }
    {
        match self.asked {
            Some(asked) => asked == first,
            None => false,
        }
    }

    // Whether these sections of a centre follow the hand on its track, and the pool is empty.
    fn wants(&self, line: &Line, from: u8, sections: SectionRun, way: Option<Way>) -> bool
        ensures { track.is_home line.now from sections.first ≡ true
            → result ≡ wants line.now (run_of sections) way self.now }
    {
        match way {
            Some(way) => {
                u32::from(sections.first) == way.hand.next_after()
                    && is_of(line, from, way.track, way.hand.next_after())
                    && self.names.is_empty()
            }
            None => false,
        }
    }

    /// A section is wished back by the interlocking of its home. If it is in the pool, it leaves the pool with all
    /// sections after it, and these have to be returned. `None` if and only if it is not in the pool; then nothing
    /// changes. For a section of the hand a request to shorten may be sent.
    pub fn withdraw(&mut self, s: u16) -> Option<SectionRun>
        ensures run { option_map run_of result
            ≡ (if within self.old.pool s then Some (part_from s self.old.pool) else None) }
        ensures state { self.new
            ≡ (if within self.old.pool s then record self.old { pool = part_before s self.old.pool } else self.old) }
        ensures exact { (line : track.Line) (c : ℕ) (k : Centre) (m : Mission) → HasBorder k self.old
            → k.mission self.old.engine ≡ Some m
            → links.route_withdrawn line c self.old.engine s k
            ≡ option_map_or (λ run. acts.returned line c self.old.engine m.place.track (run_of run)) result
            (acts.propose_if_so line self.old.engine s) (with_border self.new k) }
    {
        let pool = self.pool();
        if !pool.contains(s) {
            return None;
        }
        let count = pool.count - (s - pool.first);
        names::spend_back(&mut self.names, count);
        Some(SectionRun { first: s, count })
    }

    /// All sections leave the pool. They have to be returned.
    pub fn return_all(&mut self) -> SectionRun
        ensures run { run_of result ≡ self.old.pool }
        ensures state { self.new ≡ record self.old { pool = no_run } }
        ensures exact { (line : track.Line) (c : ℕ) (k : Centre) (m : Mission) → HasBorder k self.old
            → k.mission self.old.engine ≡ Some m
            → acts.return_pool line c self.old.engine m k
            ≡ acts.returned line c self.old.engine m.place.track (run_of result) (with_border self.new k) }
    {
        let pool = self.pool();
        names::spend_back(&mut self.names, pool.count);
        self.first = 0;
        pool
    }

    /// Extends the train's hand by those of its next `count` sections that are in the pool, and returns their number.
    /// The rest of the pool follows the longer hand.
    pub fn feed(&mut self, count: u16, hand: &mut Hand) -> u16
        requires hand { 1 ≤ (run hand.old).count }
        requires room { (run hand.old).count + count ≤ 32 }
        requires next { 0 < self.old.pool.count → next_after (run hand.old) ≡ self.old.pool.first }
        ensures fed { result ≡ min count self.old.pool.count }
        ensures pool { self.new
            ≡ (if is_empty self.old.pool then self.old else record self.old { pool = rest_of count self.old.pool }) }
        ensures hand { hand.new
            ≡ record hand.old { holds = hand.old.holds ++ replicate result (Name self.old.engine self.old.lender) } }
        ensures exact { (m : Mission) → m.hand ≡ run hand.old → m.pool ≡ self.old.pool
            → rules.extended_by (next_of count m.hand) m
            ≡ record m {
              hand = joined (run hand.new) (next_of (count - result) (run hand.new));
              pool = self.new.pool;
            } }
    {
        if self.names.is_empty() {
            return 0;
        }
        let fed = count.min(self.names.len());
        names::pass(&mut self.names, fed, hand);
        self.first += count;
        fed
    }

    /// Ends it when its centre ends: the names in the pool end.
    pub fn end(self) {
        let Border {
            nid_engine: _,
            lender: _,
            first: _,
            names,
            asked: _,
        } = self;
        names::end(names);
    }
}
