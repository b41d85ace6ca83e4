//! A train position report (3.6.5) and the end of mission (5.5): the sections that the train has cleared leave its
//! hand.

ghost use Rattle.std.specs.Prelude.{◌≡◌, ◌≤◌, ◌+◌, ◌-◌, Some, None, IfSome};
ghost use Rattle.rbc_spec.specs.SectionRuns.{no_run};
ghost use Rattle.rbc_spec.specs.Place as spec_place;
ghost use Rattle.rbc_spec.specs.Centre as spec;
ghost use Rattle.rbc_spec.specs.Message.{Report, EndOfMission};
ghost use Rattle.rbc_msgs.specs.StepMessage.{position_of};
ghost use Rattle.rbc_train.specs.Desk.{IsAtDesk, IsKeptAt, nothing, unsaid, Does, DoesMessage, KeepsAtDesk};
ghost use Rattle.rbc_spec.specs.Rules as rules;
ghost use Rattle.rbc_train.specs.Letters.{mail_home};
ghost use Rattle.rbc_place.specs.Places.{place_of};
ghost use Rattle.rbc_allocation.specs.Sections.{wished, rest_of};
ghost use Rattle.rbc_shorten.specs.declared.answer.Cut.TheVariants.{Nothing};
ghost use Rattle.rbc_mission.specs.Supervisions.{hand_of, pool_of};
ghost use Rattle.rbc_train.specs.Standstill.{IsAhead, LeavesFront, SendsHome, left_ahead};
ghost use Rattle.rbc_train.specs.Written.{written};

use crate::heard::Heard;
use crate::reason::Reason;
use crate::train::TrainState;
use rbc_allocation::wished_around;
use rbc_book::Book;
use rbc_line::{Line, SectionRun};
use rbc_mission::Told;
use rbc_packets::Position;
use rbc_place::{Place, cleared, place_on};
use rbc_right::Registrar;
use rbc_shorten::{Cut, cut_at_standstill};

// The cut ahead of a train at standstill. `keep` of the first remaining sections of its hand are kept. `told` are those
// sections of all that leave the hand which were wished back, in rising order.
struct Ahead {
    keep: u16,
    told: Told,
}

impl TrainState {
    /// Message 136: the sections of the hand that the train has cleared are given back. A mission without a section is
    /// closed. If another centre hands the train over to this one, its announcers get a TakingOver instead.
    #[inline(never)]
    pub(crate) fn report(
        &mut self,
        line: &Line,
        centre: u8,
        book: &mut Book,
        registrar: &mut Registrar,
        t_train: u32,
        position: &Position,
        out: &mut Heard,
    ) -> Result<(), Reason>
        requires at { IsAtDesk line.now centre self.old book.old registrar.old out.old }
        ensures exact { DoesMessage line.now centre t_train (Report (position_of position.now))
            self.old book.old registrar.old self.new book.new registrar.new (written result out.new) }
        ensures left { self.new ≡ record self.old {
          heard = self.new.heard;
          supervision = self.new.supervision;
          expectations = self.new.expectations;
        } }
        ensures keeps { KeepsAtDesk line.now centre self.old self.new book.old book.new registrar.old registrar.new }
    {
        self.up()?;
        let Some(mission) = self.supervision.mission() else {
            return self.report_elsewhere(line, centre, t_train, position, out);
        };
        let Some(place) = place_on(line, mission.place.track, position) else {
            return Err(Reason::NoPlace);
        };
        self.heard = Some(t_train);
        self.clear(line, centre, book, registrar, place, out);
        Ok(())
    }

    /// Message 150: if the report has a place, cleared sections are given back, and at standstill also those ahead of
    /// the train. Then the mission is ended, and its pool is returned.
    #[inline(never)]
    pub(crate) fn end_of_mission(
        &mut self,
        line: &Line,
        centre: u8,
        book: &mut Book,
        registrar: &mut Registrar,
        t_train: u32,
        position: &Position,
        out: &mut Heard,
    ) -> Result<(), Reason>
        requires at { IsAtDesk line.now centre self.old book.old registrar.old out.old }
        ensures exact { DoesMessage line.now centre t_train (EndOfMission (position_of position.now))
            self.old book.old registrar.old self.new book.new registrar.new (written result out.new) }
        ensures left { self.new ≡ record self.old { heard = self.new.heard; supervision = self.new.supervision } }
        ensures keeps { KeepsAtDesk line.now centre self.old self.new book.old book.new registrar.old registrar.new }
    {
        self.up()?;
        let mission = self.supervised()?;
        if mission.is_ended {
            return Err(Reason::MissionEnded);
        }
        self.heard = Some(t_train);
        let track = mission.place.track;
        let ahead = self.ahead(line, book, track, position);
        self.report_here(line, centre, book, registrar, track, position, out);
        match ahead {
            Some(Ahead { keep, told }) => {
                let mut left = Heard::nothing();
                self.leave_ahead(line, centre, book, registrar, track, keep, &mut left);
                self.supervision.end_mission();
                out.mail.second = left.mail.first;
                out.mail.notice = left.mail.notice;
                out.told = told;
                Ok(())
            }
            None => {
                let pool = self.supervision.return_pool();
                self.supervision.end_mission();
                out.mail.second = pool;
                Ok(())
            }
        }
    }

    // The cut ahead of a train at standstill at a place of this track, after the cleared sections have left its hand.
    fn ahead(&self, line: &Line, book: &Book, track: u8, position: &Position) -> Option<Ahead>
        ensures none { result ≡ None
            → left_ahead line.now track (position_of position.now) (hand_of self.now.supervision) ≡ Nothing }
        ensures some { IfSome result
            (λ a. IsAhead line.now self.now.supervision.engine track (position_of position.now)
            (hand_of self.now.supervision) book.now a.keep a.told) }
    {
        if position.v_train.value() != 0 {
            return None;
        }
        let place = place_on(line, track, position)?;
        let hand = self.hand();
        let cleared = cleared(line, hand, &place);
        let left = SectionRun {
            first: hand.first + cleared,
            count: hand.count - cleared,
        };
        match cut_at_standstill(line, left, place.front) {
            Cut::Nothing => None,
            Cut::Keep(keep) => {
                let told = wished_around(hand, cleared, cleared + keep, self.nid_engine(), book);
                Some(Ahead { keep, told })
            }
        }
    }

    // All sections but the first `keep` leave the hand, and the pool is returned with them.
    fn leave_ahead(
        &mut self,
        line: &Line,
        centre: u8,
        book: &mut Book,
        registrar: &mut Registrar,
        track: u8,
        keep: u16,
        out: &mut Heard,
    )
        requires at { IsAtDesk line.now centre self.old book.old registrar.old out.old }
        requires some { 1 ≤ keep }
        requires keep { keep ≤ (hand_of self.old.supervision).count }
        ensures exact { (m : spec.Mission) → self.old.supervision.mission ≡ Some m → m.place.track ≡ track
            → Does line.now centre
            (rules.cut line.now centre self.old.supervision.engine
            (m.hand.first + keep - 1) m) self.old book.old registrar.old self.new book.new registrar.new out.new }
        ensures stays { IsKeptAt line.now centre self.old → IsKeptAt line.now centre self.new }
        ensures heard { out.new ≡ unsaid (mail_home track out.new.mail.first out.new.mail.notice None)
            (wished self.old.supervision.engine (rest_of keep (hand_of self.old.supervision)) book.old) }
        ensures pool { pool_of self.new.supervision ≡ no_run }
        ensures left { self.new ≡ record self.old { supervision = self.new.supervision } }
        ensures keeps { KeepsAtDesk line.now centre self.old self.new book.old book.new registrar.old registrar.new }
    {
        let released = self.supervision.shorten(line, keep, book);
        self.released(line, centre, registrar, track, released, out);
    }

    // The cleared sections leave the hand, if the report has a place on this track.
    #[inline(never)]
    fn report_here(
        &mut self,
        line: &Line,
        centre: u8,
        book: &mut Book,
        registrar: &mut Registrar,
        track: u8,
        position: &Position,
        out: &mut Heard,
    )
        requires at { IsAtDesk line.now centre self.old book.old registrar.old out.old }
        ensures exact { (m : spec.Mission) → self.old.supervision.mission ≡ Some m → m.place.track ≡ track
            → Does line.now centre
            (rules.report_here line.now centre self.old.supervision.engine
            (position_of position.now) m) self.old book.old registrar.old self.new book.new registrar.new out.new }
        ensures stays { IsKeptAt line.now centre self.old → IsKeptAt line.now centre self.new }
        ensures sends { SendsHome track self.new.supervision out.new }
        ensures track { (m n : spec.Mission) → self.old.supervision.mission ≡ Some m → m.place.track ≡ track
            → self.new.supervision.mission ≡ Some n → n.place.track ≡ track }
        ensures front { (p : spec_place.Place) → spec_place.place_on line.now track (position_of position.now) ≡ Some p
            → LeavesFront line.now p self.old.supervision self.new.supervision out.new.told book.old book.new }
        ensures left { self.new ≡ record self.old { supervision = self.new.supervision } }
        ensures keeps { KeepsAtDesk line.now centre self.old self.new book.old book.new registrar.old registrar.new }
    {
        match place_on(line, track, position) {
            Some(place) => self.clear(line, centre, book, registrar, place, out),
            None => out.mail.track = track,
        }
    }

    /// The train is at this place of its track. The cleared sections are given back, and a mission without a section is
    /// closed.
    #[inline(always)]
    pub(crate) fn clear(
        &mut self,
        line: &Line,
        centre: u8,
        book: &mut Book,
        registrar: &mut Registrar,
        place: Place,
        out: &mut Heard,
    )
        requires at { IsAtDesk line.now centre self.old book.old registrar.old out.old }
        ensures exact { (m : spec.Mission) → self.old.supervision.mission ≡ Some m → m.place.track ≡ place.track
            → Does line.now centre
            (rules.clear line.now centre self.old.supervision.engine m
            (place_of place)) self.old book.old registrar.old self.new book.new registrar.new out.new }
        ensures stays { IsKeptAt line.now centre self.old → IsKeptAt line.now centre self.new }
        ensures sends { SendsHome place.track self.new.supervision out.new }
        ensures track { (m : spec.Mission) → self.new.supervision.mission ≡ Some m → m.place.track ≡ place.track }
        ensures front { LeavesFront line.now
            (place_of place) self.old.supervision self.new.supervision out.new.told book.old book.new }
        ensures left { self.new ≡ record self.old { supervision = self.new.supervision } }
        ensures keeps { KeepsAtDesk line.now centre self.old self.new book.old book.new registrar.old registrar.new }
    {
        let count = cleared(line, self.hand(), &place);
        let released = self.supervision.clear_front(place, count, book);
        self.released(line, centre, registrar, place.track, released, out);
    }
}
