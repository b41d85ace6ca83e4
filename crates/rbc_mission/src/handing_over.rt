//! A mission is handed over from its centre to the next (3.15.1).

ghost use Rattle.std.specs.Prelude.{◌≡◌, ◌≤◌, ◌<◌, ◌+◌, ℕ, true, false, length, Some, None, option_map, IfSome};
ghost use Rattle.std.specs.Option.{option_map_or};
ghost use Rattle.rbc_spec.specs.SectionRuns.{no_run, within};
ghost use Rattle.rbc_spec.specs.Centre as spec;
ghost use Rattle.rbc_spec.specs.Centre.{Taken, is_out_for};
ghost use Rattle.rbc_spec.specs.Acts as acts;
ghost use Rattle.rbc_spec.specs.Rules as rules;
ghost use Rattle.rbc_spec.specs.Links as links;
ghost use Rattle.rbc_spec.specs.Frame.{last_stamp};
ghost use Rattle.rbc_book.specs.Book.{is_own, entry_at};
ghost use Rattle.rbc_line.specs.SectionRuns.{run_of};
ghost use Rattle.rbc_right.specs.Rights.{right_of};
ghost use Rattle.rbc_border.specs.Lending.{HasBook, with_book};
ghost use Rattle.rbc_allocation.specs.Sections.{IsHeldBy};
ghost use Rattle.rbc_handover.specs.Giving.{begun, announcing, with_count};

use crate::facts::MissionFacts;
use crate::held;
use crate::passing::{come_all, pass_all};
use crate::supervision::Supervision;
use rbc_book::Book;
use rbc_border::part_at;
use rbc_handover::{HandoverCount, HandoverName};
use rbc_line::{Line, SectionRun};
use rbc_right::Right;

/// A handover that is announced now.
#[derive(Clone, Copy, Debug, PartialEq, Eq)]
pub struct Announcement {
    /// Its number at this centre.
    pub number: u32,
    /// The first section of the hand that is of the accepting centre's home.
    pub border: u16,
}

/// A mission that is yielded to the accepting centre.
#[derive(Clone, Copy, Debug, PartialEq, Eq)]
pub struct Yielded {
    /// The name of its handover.
    pub handover: HandoverName,
    pub mission: MissionFacts,
    /// The sections of its movement authority.
    pub hand: SectionRun,
    /// The lent sections that followed them, which have to be returned.
    pub pool: SectionRun,
    /// No section of the hand is of this centre's home: the train will not return to this centre.
    pub is_gone: bool,
}

impl Supervision {
    ghost use Rattle.rbc_mission.specs.Supervisions.{mission_of, with_handing, HasSupervision, with_supervision};
    ghost use Rattle.rbc_mission.specs.Passing.{IsBooked};
    ghost use Rattle.rbc_mission.specs.Handovers.{sends_off, WasHandedOver};

    /// Announces a handover to this centre, if the hand of the mission has a section of its home and no handover is
    /// pending. `None` if and only if that is not so, or without a mission; then nothing changes.
    pub fn announce(
        &mut self,
        line: &Line,
        count: &mut HandoverCount,
        to: u8,
    ) -> Option<Announcement>
        requires { count.old < last_stamp }
        ensures state { self.new
            ≡ option_map_or (λ a. with_handing (Some (begun to a.number)) self.old) result self.old }
        ensures count { count.new ≡ option_map_or (λ a. count.old + 1) result count.old }
        ensures number { IfSome result (λ a. a.number ≡ count.old + 1) }
        ensures border { (m : spec.Mission) → self.old.mission ≡ Some m
            → IfSome result (λ a. (a.border ≡ (acts.part_at line.now to m.place.track m.hand).first)
            × (within m.hand a.border ≡ true)) }
        ensures exact { (m : spec.Mission) (k : spec.Centre) → HasSupervision k self.old → self.old.mission ≡ Some m
            → k.announced ≡ count.old
            → rules.announce_if_due line.now self.old.engine to k
            ≡ announcing line.now self.old.engine to m (option_map (λ a. a.number) result)
            (with_supervision self.new (with_count count.new k)) }
    {
        let mission = self.mission?;
        let part = part_at(line, to, mission.place.track, self.hand.run())?;
        let number = self.handover.announce(count, to)?;
        Some(Announcement {
            number,
            border: part.first,
        })
    }

    /// The accepting centre takes over under this number. The mission is yielded if its handover to that centre is
    /// pending under this number. Then the mission leaves this centre. Sections of this home are out for the train. The
    /// names of the others and the right go there, and the pool has to be returned. `None` if and only if no such
    /// handover is pending; then nothing changes.
    pub fn yield_to(
        &mut self,
        line: &Line,
        centre: u8,
        book: &mut Book,
        from: u8,
        number: u32,
    ) -> Option<Yielded>
        requires held { IsHeldBy self.old.engine self.old.hand book.old }
        ensures none { result ≡ None → (self.new ≡ self.old) × (book.new ≡ book.old) }
        ensures gone { IfSome result (λ y. self.new ≡ record self.old { mission = None; hand = self.new.hand }) }
        ensures was { IfSome result (WasHandedOver self.old) }
        ensures held { IsHeldBy self.old.engine self.new.hand book.new }
        ensures homes { (s : ℕ) → is_own book.new s ≡ is_own book.old s }
        ensures exact { (k : spec.Centre) → HasSupervision k self.old → HasBook line.now centre k book.old
            → links.taking_over line.now centre from number self.old.engine k
            ≡ option_map_or (sends_off line.now centre self.old.engine) result acts.rest
            (with_supervision self.new (with_book book.new k)) }
    {
        let mission = self.mission?;
        let hand = self.hand.run();
        let handing = self.handover.claim(from, number)?;
        let handover = handing.yield_to();
        let pool = self.border.return_all();
        pass_all(&mut self.hand, self.nid_engine, book);
        self.mission = None;
        held::let_go(&mut self.right, false).end();
        Some(Yielded {
            handover,
            mission,
            hand,
            pool,
            is_gone: part_at(line, centre, mission.place.track, hand).is_none(),
        })
    }

    /// A mission that another centre has yielded goes on here, with these sections and with the right to supervise the
    /// train. Sections of this home, which were out for the train, are in use for it here again.
    pub fn take_up(
        &mut self,
        line: &Line,
        mission: MissionFacts,
        sections: SectionRun,
        book: &mut Book,
        right: Right,
    )
        requires none { self.old.mission ≡ None }
        requires some { 1 ≤ sections.count }
        requires most { sections.count ≤ 32 }
        requires numbers { sections.first + sections.count ≤ 65535 }
        requires line { sections.first + sections.count ≤ length line.now.sections }
        requires own { (s : ℕ) → within (run_of sections) s ≡ true → is_own book.old s ≡ true
            → is_out_for self.old.engine (entry_at book.old s) ≡ true }
        requires right { right ≡ right_of self.old.number }
        ensures supervision { self.new
            ≡ record self.old {
              mission = Some (mission_of (run_of sections) no_run None mission);
              hand = self.new.hand;
            } }
        ensures held { IsHeldBy self.old.engine self.new.hand book.new }
        ensures book { IsBooked (is_out_for self.old.engine) (Taken self.old.engine)
            (run_of sections) book.old book.new }
    {
        come_all(&mut self.hand, line, sections, self.nid_engine, book);
        held::hold(&mut self.right, right);
        self.mission = Some(mission);
    }
}
