//! The right to supervise a train moves between its registrar and the centres at which it starts (profile).

ghost use Rattle.std.specs.Prelude.{◌≡◌, ◌<◌, ℕ, None, length};
ghost use Rattle.rbc_spec.specs.Centre as spec;
ghost use Rattle.rbc_spec.specs.Line as track;
ghost use Rattle.rbc_spec.specs.Links as links;
ghost use Rattle.rbc_book.specs.Book.{Pages, is_own};
ghost use Rattle.rbc_right.specs.Rights.{Rights};
ghost use Rattle.rbc_train.specs.Desk.{KeepsRights, nothing, unsaid, IsReady, KeepsItself, Does, HasParts, last_said};
ghost use Rattle.rbc_train.specs.Desk.{with_parts, reply_left};
ghost use Rattle.rbc_train.specs.Homes.{GoesHome};
ghost use Rattle.rbc_train.specs.Letters.{cancel_of, mail_home};

use crate::heard::Heard;
use crate::letter::{Letter, go_home};
use crate::mail::NO_SECTIONS;
use crate::train::TrainState;
use rbc_book::Book;
use rbc_line::Line;
use rbc_linkmsg::Body;
use rbc_mission::{HeldRight, Released, Told};
use rbc_msgs::TrackBody;
use rbc_right::{Asked, Registrar, Right};

impl TrainState {
    /// AskRight from a centre: the registrar gives the right if it has it, and else refuses it.
    pub(crate) fn right_asked(
        &mut self,
        line: &Line,
        centre: u8,
        registrar: &mut Registrar,
        from: u8,
        out: &mut Heard,
    )
        requires out { out.old ≡ nothing }
        ensures exact { (book : Pages) → Does line.now centre
            (links.right_asked line.now centre from self.old.supervision.engine)
            self.old book registrar.old self.new book registrar.new out.new }
        ensures same { self.new ≡ self.old }
        ensures rights { KeepsRights self.old.supervision.number registrar.old registrar.new }
    {
        let engine = self.nid_engine();
        if line.registrar(engine) != Some(centre) {
            return;
        }
        let body = match registrar.ask(self.supervision.number()) {
            Asked::Given(right) => {
                right.send();
                Body::GiveRight { engine }
            }
            Asked::NotHere => Body::RefuseRight { engine },
        };
        out.mail.letter = Some(Letter { to: from, body });
    }

    /// GiveRight: a waiting start becomes a mission, and the train is accepted. A right for which nothing waits is
    /// returned.
    pub(crate) fn right_given(
        &mut self,
        line: &Line,
        centre: u8,
        registrar: &mut Registrar,
        out: &mut Heard,
    )
        requires ready { IsReady self.old out.old }
        requires train { self.old.waiting.engine ≡ self.old.supervision.engine }
        requires number { self.old.supervision.number < length registrar.old }
        ensures exact { (book : Pages) → Does line.now centre
            (links.right_given line.now centre self.old.supervision.engine)
            self.old book registrar.old self.new book registrar.new out.new }
        ensures left { self.new ≡ record self.old {
          said = self.new.said;
          supervision = self.new.supervision;
          waiting = self.new.waiting;
        } }
        ensures keeps { KeepsItself self.old self.new }
        ensures rights { KeepsRights self.old.supervision.number registrar.old registrar.new }
    {
        if !self.waiting.has_asked() {
            return;
        }
        let right = Right::arrive(self.supervision.number());
        if self.waiting.place().is_some() && self.supervision.mission().is_none() {
            self.supervision.admit(&mut self.waiting, right);
            out.saying = Some(self.answered(TrackBody::TrainAccepted));
            return;
        }
        self.waiting.note_answer();
        let released = Released {
            told: Told::nothing(),
            right: HeldRight::Held(right),
            returned: NO_SECTIONS,
            cancelled: None,
        };
        self.released(line, centre, registrar, 0, released, out);
    }

    /// RefuseRight: a start that waits is dropped, and the train is rejected.
    pub(crate) fn right_refused(&mut self, book: &mut Book, out: &mut Heard)
        requires out { out.old ≡ nothing }
        requires count { self.old.said < last_said }
        ensures exact { (line : track.Line) (c : ℕ) (rights : Rights) (k : spec.Centre)
            → HasParts line c k self.old book.old rights
            → links.right_refused line c self.old.supervision.engine k
            ≡ reply_left line c self.old.supervision.engine (with_parts self.new book.new rights k) out.new }
        ensures left { self.new ≡ record self.old { said = self.new.said; waiting = self.new.waiting } }
        ensures keeps { KeepsItself self.old self.new }
        ensures homes { (s : ℕ) → is_own book.new s ≡ is_own book.old s }
    {
        let Some(told) = self.waiting.give_up(book) else {
            return;
        };
        out.saying = Some(self.answered(TrackBody::TrainRejected));
        out.told = told;
    }

    /// ReturnRight: the registrar has the right again, unless the right is in a mission there.
    pub(crate) fn right_returned(&mut self, line: &Line, centre: u8, registrar: &mut Registrar)
        requires number { self.old.supervision.number < length registrar.old }
        ensures exact { (book : Pages) → Does line.now centre
            (links.right_returned line.now centre self.old.supervision.engine)
            self.old book registrar.old self.new book registrar.new nothing }
        ensures same { self.new ≡ self.old }
        ensures rights { KeepsRights self.old.supervision.number registrar.old registrar.new }
    {
        let is_registrar = line.registrar(self.nid_engine()) == Some(centre);
        if is_registrar && self.supervision.mission().is_none() {
            registrar.back(Right::arrive(self.supervision.number()));
        }
    }

    // The effect of sections that leave a mission on this track: the reports, the returned sections and right, and the
    // cancelled handover.
    #[inline(always)]
    pub(crate) fn released(
        &self,
        line: &Line,
        centre: u8,
        registrar: &mut Registrar,
        track: u8,
        released: Released,
        out: &mut Heard,
    )
        requires { out.old ≡ nothing }
        ensures heard { out.new ≡ unsaid
            (mail_home track released.returned (cancel_of released.cancelled) out.new.mail.letter) released.told }
        ensures right { GoesHome line.now centre self.now.supervision.engine released.right out.new.mail.letter
            registrar.old registrar.new }
    {
        let Released {
            told,
            right,
            returned,
            cancelled,
        } = released;
        out.told = told;
        out.mail.track = track;
        out.mail.first = returned;
        out.mail.cancel(cancelled);
        let engine = self.nid_engine();
        go_home(line, centre, engine, right, registrar, &mut out.mail.letter);
    }
}
