//! A mission at the border to the next centre: the pool of lent sections that follow its hand, and the question for
//! more.

ghost use Rattle.std.specs.Prelude.{◌≡◌, ◌≤◌, ℕ, Some, None, IfSome, option_map, if◌then◌else◌};
ghost use Rattle.std.specs.Option.{option_map_or};
ghost use Rattle.rbc_spec.specs.Line as track;
ghost use Rattle.rbc_spec.specs.SectionRuns.{no_run, within, part_from};
ghost use Rattle.rbc_spec.specs.Frame.{HasRunRange, RouteAsk, RouteReturn};
ghost use Rattle.rbc_spec.specs.Centre.{Centre, Mission};
ghost use Rattle.rbc_spec.specs.Acts as acts;
ghost use Rattle.rbc_spec.specs.Rules as rules;
ghost use Rattle.rbc_spec.specs.Links as links;
ghost use Rattle.rbc_line.specs.SectionRuns.{run_of};
ghost use Rattle.rbc_border.specs.Border.{GoesOn};
ghost use Rattle.rbc_border.specs.Lending.{sending};

use crate::supervision::Supervision;
use rbc_border::{Question, Way};
use rbc_line::{Line, SectionRun};

impl Supervision {
    ghost use Rattle.rbc_mission.specs.Supervisions.{pool_of, with_pool, without_section, HasSupervision};
    ghost use Rattle.rbc_mission.specs.Supervisions.{with_supervision};

    /// Asks the next centre for the sections in advance of the hand of the mission, if that is due. It is if the first
    /// of them is of its home and on the track, and the hand has fewer than 32. Besides, the pool is empty, and no
    /// question is pending. `None` if and only if it is not due, or without a mission; then nothing changes.
    pub fn ask(&mut self, line: &Line, next: u8) -> Option<Question>
        ensures state { self.new ≡ option_map_or (λ q. record self.old { asked = Some q.first }) result self.old }
        ensures range { IfSome result (λ q. HasRunRange 1 31 (record { first = q.first; count = q.most })) }
        ensures exact { (k : Centre) → HasSupervision k self.old
            → rules.ask_route_if_due line.now self.old.engine next k
            ≡ sending next (option_map (λ q. RouteAsk self.old.engine q.first q.most) result)
            (with_supervision self.new k) }
    {
        let Some(mission) = self.mission else {
            return None;
        };
        let way = Way {
            track: mission.place.track,
            hand: self.hand.run(),
        };
        self.border.ask(line, next, way)
    }

    /// RouteInfo from another centre names the sections that it lends. It has an effect only if they answer the pending
    /// question from their first on. They must be of the line, on one track, and of that centre's home. Then the
    /// question ends. They become the pool if they follow the hand of a mission that is not ended, on its track, and
    /// its pool is empty. Else the result is the sections, which have to be returned to that centre.
    pub fn info(&mut self, line: &Line, from: u8, sections: SectionRun) -> Option<SectionRun>
        requires { sections.count ≤ 31 }
        ensures state { self.new ≡ record self.old { mission = self.new.mission; asked = self.new.asked } }
        ensures range { IfSome result (λ run. HasRunRange 1 31 (run_of run)) }
        ensures exact { (c : ℕ) (k : Centre) → HasSupervision k self.old
            → links.route_told line.now c from self.old.engine (run_of sections) k
            ≡ sending from (option_map (λ run. RouteReturn self.old.engine (run_of run)) result)
            (with_supervision self.new k) }
    {
        let way = self.way();
        self.border.info(line, from, sections, way)
    }

    // The track and the next section of the mission, if it is not ended.
    fn way(&self) -> Option<Way>
        ensures { GoesOn result self.now.mission }
    {
        let Some(mission) = self.mission else {
            return None;
        };
        if mission.is_ended {
            return None;
        }
        Some(Way {
            track: mission.place.track,
            hand: self.hand.run(),
        })
    }

    /// A section is wished back by the interlocking of its home. If it is in the pool, it leaves the pool with all
    /// sections after it, and these have to be returned. `None` if and only if it is not in the pool; then nothing
    /// changes. For a section of the hand a request to shorten may be sent.
    pub fn withdraw(&mut self, s: u16) -> Option<SectionRun>
        ensures run { option_map run_of result
            ≡ (if within (pool_of self.old) s then Some (part_from s (pool_of self.old)) else None) }
        ensures state { self.new ≡ without_section s self.old }
        ensures exact { (line : track.Line) (c : ℕ) (k : Centre) (m : Mission) → HasSupervision k self.old
            → self.old.mission ≡ Some m
            → links.route_withdrawn line c self.old.engine s k
            ≡ option_map_or (λ run. acts.returned line c self.old.engine m.place.track (run_of run)) result
            (acts.propose_if_so line self.old.engine s) (with_supervision self.new k) }
    {
        self.border.withdraw(s)
    }

    /// All sections leave the pool. They have to be returned.
    pub fn return_pool(&mut self) -> SectionRun
        ensures run { run_of result ≡ pool_of self.old }
        ensures state { self.new ≡ with_pool no_run self.old }
        ensures exact { (line : track.Line) (c : ℕ) (k : Centre) (m : Mission) → HasSupervision k self.old
            → self.old.mission ≡ Some m
            → acts.return_pool line c self.old.engine m k
            ≡ acts.returned line c self.old.engine m.place.track (run_of result) (with_supervision self.new k) }
    {
        self.border.return_all()
    }
}
