ghost use Rattle.std.specs.Prelude.{◌≡◌, ◌≤◌, ◌+◌, ℕ, Bool, Some, None, option_map, option_and_then, is_some, true};
ghost use Rattle.std.specs.Prelude.{false};
ghost use Rattle.rbc_spec.specs.Centre as spec;
ghost use Rattle.rbc_right.specs.Rights.{right_of};
ghost use Rattle.rbc_pending_start.specs.Waits.{nothing_waits};
ghost use Rattle.rbc_line.specs.SectionRuns.{run_of};
ghost use Rattle.rbc_place.specs.Places.{place_of};
ghost use Rattle.rbc_shorten.specs.Facts.{proposal_of};

use crate::cancelling::{cancel_unless, keeps_border};
use crate::facts::{MissionFacts, close_unless};
use crate::held;
use crate::released::{Released, leaving};
use crate::supervision::Supervision;
use rbc_book::Book;
use rbc_line::{Line, SectionRun};
use rbc_pending_start::WaitingStart;
use rbc_place::Place;
use rbc_right::Right;
use rbc_shorten::Proposal;

impl Supervision {
    ghost use Rattle.rbc_mission.specs.Supervisions.{hand_of, mission_at, claims_on, with_next, next_sections};
    ghost use Rattle.rbc_mission.specs.Supervisions.{without_front, with_front, cleared_run, cut_run, right_left};
    ghost use Rattle.rbc_mission.specs.Supervisions.{handover_left, MayGrow};
    ghost use Rattle.rbc_allocation.specs.Sections.{TakesRun, FreesRun, wished, front_of, rest_of, hand_rest};
    ghost use Rattle.rbc_allocation.specs.Sections.{hand_front, IsAllOpen, IsHeldAt, IsHeldBy};

    /// A mission begins at this place, with these sections, which are open, and with the right to supervise the train.
    pub fn begin(&mut self, place: Place, sections: SectionRun, book: &mut Book, right: Right)
        requires none { self.old.mission ≡ None }
        requires some { 1 ≤ sections.count }
        requires most { sections.count ≤ 32 }
        requires numbers { sections.first + sections.count ≤ 65535 }
        requires open { IsAllOpen (run_of sections) book.old }
        requires right { right ≡ right_of self.old.number }
        ensures supervision { self.new
            ≡ record self.old {
              mission = Some (mission_at (place_of place) (run_of sections));
              hand = claims_on self.old.engine (run_of sections);
            } }
        ensures held { (is_home : ℕ → Bool) → IsHeldAt self.old.engine is_home self.new.hand }
        ensures book { TakesRun self.old.engine (run_of sections) book.old book.new }
    {
        rbc_allocation::take_run(&mut self.hand, sections, self.nid_engine, book);
        held::hold(&mut self.right, right);
        self.mission = Some(MissionFacts::at(place));
    }

    /// The start of mission that waits becomes a mission, with its place, its claims and the right to supervise the
    /// train.
    pub fn admit(&mut self, waiting: &mut WaitingStart, right: Right)
        requires none { self.old.mission ≡ None }
        requires waits { is_some waiting.old.wait ≡ true }
        requires engine { waiting.old.engine ≡ self.old.engine }
        requires right { right ≡ right_of self.old.number }
        ensures supervision { self.new
            ≡ record self.old {
              mission = option_map (λ place. mission_at place waiting.old.sections) waiting.old.wait;
              hand = claims_on self.old.engine
                  waiting.old.sections;
            } }
        ensures held { (is_home : ℕ → Bool) → IsHeldAt self.old.engine is_home self.new.hand }
        ensures waits { waiting.new ≡ nothing_waits waiting.old.engine false }
    {
        held::hold(&mut self.right, right);
        if let Some(place) = waiting.admit(&mut self.hand) {
            self.mission = Some(MissionFacts::at(place));
        }
    }

    /// The mission goes on from this place as a new one. Its train data are not known, it is not ended, and no request
    /// is pending.
    pub fn begin_again(&mut self, place: Place)
        ensures { self.new ≡ record self.old {
          mission = option_map (λ (m : spec.Mission). record m {
            place = place_of place;
            has_data = false;
            is_ended = false;
            proposal = None;
          }) self.old.mission;
        } }
    {
        if self.mission.is_some() {
            self.mission = Some(MissionFacts::at(place));
        }
    }

    /// The train data are known.
    pub fn note_data(&mut self)
        ensures { self.new ≡ record self.old {
          mission = option_map (λ (m : spec.Mission). record m { has_data = true }) self.old.mission;
        } }
    {
        if let Some(mission) = self.mission {
            self.mission = Some(MissionFacts {
                has_data: true,
                ..mission
            });
        }
    }

    /// Sets the pending request to shorten (3.8.6).
    pub fn propose(&mut self, proposal: Proposal)
        ensures { self.new ≡ record self.old {
          mission = option_map
              (λ (m : spec.Mission). record m { proposal = Some (proposal_of proposal) }) self.old.mission;
        } }
    {
        if let Some(mission) = self.mission {
            self.mission = Some(MissionFacts {
                proposal: Some(proposal),
                ..mission
            });
        }
    }

    /// Drops the pending request to shorten (3.8.6).
    pub fn forget_proposal(&mut self)
        ensures { self.new ≡ record self.old {
          mission = option_map (λ (m : spec.Mission). record m { proposal = None }) self.old.mission;
        } }
    {
        if let Some(facts) = self.mission {
            self.mission = Some(MissionFacts {
                proposal: None,
                ..facts
            });
        }
    }

    /// The train has ended the mission. It keeps its sections, and a pending request to shorten is dropped.
    pub fn end_mission(&mut self)
        ensures { self.new ≡ record self.old {
          mission = option_map (λ (m : spec.Mission). record m { is_ended = true; proposal = None }) self.old.mission;
        } }
    {
        if let Some(mission) = self.mission {
            self.mission = Some(MissionFacts {
                is_ended: true,
                proposal: None,
                ..mission
            });
        }
    }

    /// The train is at this place, and its hand is extended by `count` sections: first those of its pool, and then open
    /// ones.
    #[inline(always)]
    pub fn lengthen(&mut self, place: Place, count: u16, book: &mut Book)
        requires { (m : spec.Mission) → self.old.mission ≡ Some m → MayGrow m count book.old }
        ensures supervision { self.new
            ≡ record self.old {
              mission = option_map (with_next (place_of place) count) self.old.mission;
              hand = self.new.hand;
            } }
        ensures held { IsHeldBy self.old.engine self.old.hand book.old
            → IsHeldBy self.old.engine self.new.hand book.new }
        ensures book { TakesRun self.old.engine (next_sections count self.old) book.old book.new }
    {
        if let Some(mission) = self.mission {
            let fed = self.border.feed(count, &mut self.hand);
            let next = rbc_allocation::run_after(self.hand.run(), count - fed);
            rbc_allocation::take_run(&mut self.hand, next, self.nid_engine, book);
            self.mission = Some(MissionFacts { place, ..mission });
        }
    }

    /// The train is at this place, and its first `count` sections leave. If no section is left the mission is closed,
    /// its pool leaves too, and its handover is cancelled.
    #[inline(always)]
    pub fn clear_front(&mut self, place: Place, count: u16, book: &mut Book) -> Released
        requires some { count ≤ (hand_of self.old).count }
        requires held { IsHeldBy self.old.engine self.old.hand book.old }
        ensures supervision { self.new
            ≡ record self.old {
              mission = option_and_then (without_front (place_of place) count) self.old.mission;
              hand = hand_rest count self.old.hand;
            } }
        ensures held { IsHeldBy self.old.engine self.new.hand book.new }
        ensures book { FreesRun self.old.engine (front_of count (hand_of self.old)) book.old book.new }
        ensures told { result.told ≡ wished self.old.engine (front_of count (hand_of self.old)) book.old }
        ensures right { result.right ≡ right_left self.old self.new }
        ensures returned { run_of result.returned ≡ cleared_run count self.old }
        ensures cancelled { result.cancelled ≡ handover_left self.old self.new }
    {
        let Some(mission) = &mut self.mission else {
            return Released::nothing();
        };
        mission.place = place;
        let first = self.hand.run().first;
        let told = rbc_allocation::clear(&mut self.hand, count, self.nid_engine, book);
        let is_left = !self.hand.is_empty();
        close_unless(&mut self.mission, is_left);
        let right = held::let_go(&mut self.right, is_left);
        let returned = leaving(SectionRun { first, count }, &mut self.border, is_left);
        let cancelled = cancel_unless(&mut self.handover, is_left);
        Released {
            told,
            right,
            returned,
            cancelled,
        }
    }

    /// All sections but the first `keep` leave (3.8.6), and so does the pool; a pending request to shorten is dropped.
    /// If no section is left the mission is closed. Its handover is cancelled if no section of the accepting centre is
    /// left.
    pub fn shorten(&mut self, line: &Line, keep: u16, book: &mut Book) -> Released
        requires some { keep ≤ (hand_of self.old).count }
        requires held { IsHeldBy self.old.engine self.old.hand book.old }
        ensures supervision { self.new
            ≡ record self.old {
              mission = option_and_then (with_front line.now keep) self.old.mission;
              hand = hand_front keep self.old.hand;
            } }
        ensures held { IsHeldBy self.old.engine self.new.hand book.new }
        ensures book { FreesRun self.old.engine (rest_of keep (hand_of self.old)) book.old book.new }
        ensures told { result.told ≡ wished self.old.engine (rest_of keep (hand_of self.old)) book.old }
        ensures right { result.right ≡ right_left self.old self.new }
        ensures returned { run_of result.returned ≡ cut_run keep self.old }
        ensures cancelled { result.cancelled ≡ handover_left self.old self.new }
    {
        let Some(mission) = self.mission else {
            return Released::nothing();
        };
        let run = self.hand.run();
        let tail = SectionRun {
            first: run.first + keep,
            count: run.count - keep,
        };
        let told = rbc_allocation::cut(&mut self.hand, keep, self.nid_engine, book);
        let facts = MissionFacts {
            proposal: None,
            ..mission
        };
        let is_left = !self.hand.is_empty();
        self.mission = facts.stay(is_left);
        let right = held::let_go(&mut self.right, is_left);
        let returned = leaving(tail, &mut self.border, false);
        let track = mission.place.track;
        let is_handed = is_left && keeps_border(line, &self.handover, track, self.hand.run());
        let cancelled = cancel_unless(&mut self.handover, is_handed);
        Released {
            told,
            right,
            returned,
            cancelled,
        }
    }
}
