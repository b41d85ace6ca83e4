//! Start of mission (5.4).

ghost use Rattle.std.specs.Prelude.{◌≡◌, ◌<◌, ◌≤◌, ◌+◌, ℕ, true, None};
ghost use Rattle.rbc_spec.specs.Centre as spec;
ghost use Rattle.rbc_spec.specs.Line as track;
ghost use Rattle.rbc_spec.specs.Message.{StartOfMission};
ghost use Rattle.rbc_spec.specs.Place.{covered, is_fit};
ghost use Rattle.rbc_spec.specs.Rules as rules;
ghost use Rattle.rbc_msgs.specs.StepMessage.{position_of, is_valid};
ghost use Rattle.rbc_book.specs.Book.{is_own};
ghost use Rattle.rbc_line.specs.SectionRuns.{run_of};
ghost use Rattle.rbc_right.specs.Rights.{Rights};
ghost use Rattle.rbc_place.specs.Places.{place_of};
ghost use Rattle.rbc_pending_start.specs.Waits.{IsCovered};
ghost use Rattle.rbc_allocation.specs.Sections.{IsAllOpen};
ghost use Rattle.rbc_train.specs.Desk.{HasParts, IsAtBook, KeepsTrain, KeepsDesk, with_parts, DoesMessage, IsReady};
ghost use Rattle.rbc_train.specs.Desk.{KeepsAtDesk, KeepsItself};
ghost use Rattle.rbc_train.specs.Starts.{started};
ghost use Rattle.rbc_train.specs.Written.{written};

use crate::heard::Heard;
use crate::letter::{Letter, to_registrar};
use crate::reason::Reason;
use crate::starting::{are_free, has_all, place_of_start};
use crate::train::TrainState;
use rbc_book::Book;
use rbc_line::{Line, SectionRun};
use rbc_linkmsg::Body;
use rbc_msgs::TrackBody;
use rbc_packets::Position;
use rbc_place::{Place, covered};
use rbc_right::{Asked, Registrar};
use rbc_vars::QStatus;

impl TrainState {
    /// Message 157, at this centre: the train is accepted or rejected, or its start waits for the right.
    #[inline(never)]
    pub(crate) fn start_of_mission(
        &mut self,
        line: &Line,
        centre: u8,
        book: &mut Book,
        registrar: &mut Registrar,
        t_train: u32,
        q_status: QStatus,
        position: &Position,
        out: &mut Heard,
    ) -> Result<(), Reason>
        requires ready { IsReady self.old out.old }
        requires at { IsAtBook line.now centre self.old book.old }
        ensures exact { DoesMessage line.now centre t_train
            (StartOfMission (is_valid q_status) (position_of position.now)) self.old book.old registrar.old
            self.new book.new registrar.new (written result out.new) }
        ensures left { self.new ≡ record self.old {
          heard = self.new.heard;
          said = self.new.said;
          supervision = self.new.supervision;
          waiting = self.new.waiting;
        } }
        ensures keeps { KeepsAtDesk line.now centre self.old self.new book.old book.new registrar.old registrar.new }
    {
        self.up()?;
        if self.waiting.place().is_some() {
            return Err(Reason::WrongPhase);
        }
        self.heard = Some(t_train);
        match self.start(line, centre, book, registrar, q_status, position) {
            Start::Accepted => out.saying = Some(self.answered(TrackBody::TrainAccepted)),
            Start::Rejected => out.saying = Some(self.answered(TrackBody::TrainRejected)),
            Start::Waiting(letter) => out.mail.letter = letter,
        }
        Ok(())
    }

    // A train that is supervised here goes on within its hand. Another mission begins if its sections are free and the
    // train's right is here. If the right is registered elsewhere, the start waits for it.
    fn start(
        &mut self,
        line: &Line,
        centre: u8,
        book: &mut Book,
        registrar: &mut Registrar,
        q_status: QStatus,
        position: &Position,
    ) -> Start
        requires at { IsAtBook line.now centre self.old book.old }
        requires none { self.old.waiting.wait ≡ None }
        ensures exact { (k : spec.Centre) → HasParts line.now centre k self.old book.old registrar.old
            → rules.start_mission line.now centre self.old.supervision.engine (is_valid q_status)
            (position_of position.now) k
            ≡ started self.old.supervision.engine result (with_parts self.new book.new registrar.new k) }
        ensures same { self.new ≡ record self.old { supervision = self.new.supervision; waiting = self.new.waiting } }
        ensures keeps { KeepsAtDesk line.now centre self.old self.new book.old book.new registrar.old registrar.new }
    {
        let Some(place) = place_of_start(line, q_status, position) else {
            return Start::Rejected;
        };
        let run = covered(line, &place);
        if self.supervision.mission().is_some() {
            if !has_all(self.hand(), run) {
                return Start::Rejected;
            }
            self.supervision.begin_again(place);
            return Start::Accepted;
        }
        if !are_free(line, centre, book, run) {
            return Start::Rejected;
        }
        if line.registrar(self.nid_engine()) == Some(centre) {
            self.start_here(place, run, book, registrar)
        } else {
            self.start_waiting(line, place, book)
        }
    }

    // A start at the registrar: the mission takes the right, if that is here.
    fn start_here(
        &mut self,
        place: Place,
        run: SectionRun,
        book: &mut Book,
        registrar: &mut Registrar,
    ) -> Start
        requires none { self.old.supervision.mission ≡ None }
        requires some { 1 ≤ run.count }
        requires most { run.count ≤ 32 }
        requires numbers { run.first + run.count ≤ 65535 }
        requires open { IsAllOpen (run_of run) book.old }
        ensures exact { (line : track.Line) (c : ℕ) (k : spec.Centre)
            → HasParts line c k self.old book.old registrar.old → run_of run ≡ covered line (place_of place)
            → rules.start_here line self.old.supervision.engine (place_of place) k
            ≡ started self.old.supervision.engine result (with_parts self.new book.new registrar.new k) }
        ensures same { self.new ≡ record self.old { supervision = self.new.supervision } }
        ensures keeps { KeepsItself self.old self.new }
        ensures desk { KeepsDesk self.old.supervision.number book.old book.new registrar.old registrar.new }
    {
        match registrar.ask(self.supervision.number()) {
            Asked::Given(right) => {
                self.supervision.begin(place, run, book, right);
                Start::Accepted
            }
            Asked::NotHere => Start::Rejected,
        }
    }

    // A start elsewhere: it waits, and the registrar is asked for the right, unless it is asked already.
    fn start_waiting(&mut self, line: &Line, place: Place, book: &mut Book) -> Start
        requires none { self.old.waiting.wait ≡ None }
        requires fit { is_fit line.now (place_of place) ≡ true }
        requires some { 1 ≤ (covered line.now (place_of place)).count }
        requires open { IsAllOpen (covered line.now (place_of place)) book.old }
        ensures exact { (c : ℕ) (rights : Rights) (k : spec.Centre) → HasParts line.now c k self.old book.old rights
            → rules.start_waiting line.now self.old.supervision.engine (place_of place) k
            ≡ started self.old.supervision.engine result (with_parts self.new book.new rights k) }
        ensures same { self.new ≡ record self.old { waiting = self.new.waiting } }
        ensures kept { KeepsTrain self.old self.new }
        ensures covers { IsCovered line.now self.old.waiting → IsCovered line.now self.new.waiting }
        ensures homes { (s : ℕ) → is_own book.new s ≡ is_own book.old s }
    {
        if !self.waiting.start(line, place, book) {
            return Start::Waiting(None);
        }
        let engine = self.nid_engine();
        Start::Waiting(to_registrar(line, engine, Body::AskRight { engine }))
    }
}

/// The effect of a start of mission.
#[derive(Clone, Copy, Debug)]
pub(crate) enum Start {
    Accepted,
    Rejected,
    /// It waits for the right, for which this letter asks, if any does.
    Waiting(Option<Letter>),
}
