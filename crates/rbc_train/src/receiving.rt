//! A frame of another centre, at a radio block centre.

ghost use Rattle.std.specs.Prelude.{◌≡◌, ◌<◌, true, false, is_none, length};
ghost use Rattle.rbc_spec.specs.Centre as spec;
ghost use Rattle.rbc_spec.specs.Line.{is_centre, train_number};
ghost use Rattle.rbc_spec.specs.Links.{received};
ghost use Rattle.rbc_spec.specs.Frame.{HasBodyRange};
ghost use Rattle.rbc_linkmsg.specs.Bodies.{body_of, engine_in};
ghost use Rattle.rbc_pending_start.specs.Waits.{IsCovered};
ghost use Rattle.rbc_train.specs.Desks.{IsBookOf};
ghost use Rattle.rbc_train.specs.Desk.{HasParts, IsHeld, KeepsTrain, KeepsDesk, last_said, with_parts, reply_left};

use crate::heard::Heard;
use crate::taking_up::Arriving;
use crate::train::TrainState;
use rbc_book::Book;
use rbc_line::Line;
use rbc_linkmsg::Body;
use rbc_right::Registrar;

impl TrainState {
    /// Takes the body of a frame about this train, which is the next of its link. Its effect is written over `out`.
    pub fn receive(
        &mut self,
        line: &Line,
        centre: u8,
        book: &mut Book,
        registrar: &mut Registrar,
        from: u8,
        body: Body,
        out: &mut Heard,
    )
        requires engine { engine_in (body_of body) ≡ self.old.supervision.engine }
        requires train { self.old.waiting.engine ≡ self.old.supervision.engine }
        requires number { self.old.supervision.number < length registrar.old }
        requires book { IsBookOf line.now centre book.old }
        requires held { IsHeld line.now centre self.old }
        requires expected { length self.old.expectations ≡ length line.now.centres }
        requires from { is_centre line.now from ≡ true }
        requires count { self.old.said < last_said }
        requires range { HasBodyRange (body_of body) }
        ensures exact { (k : spec.Centre) → HasParts line.now centre k self.old book.old registrar.old
            → is_none (train_number line.now self.old.supervision.engine) ≡ false
            → received line.now centre from (body_of body) k
            ≡ reply_left line.now centre self.old.supervision.engine
            (with_parts self.new book.new registrar.new k) out.new }
        ensures kept { KeepsTrain self.old self.new }
        ensures held { IsHeld line.now centre self.new }
        ensures session { self.new.session_state ≡ self.old.session_state }
        ensures covers { IsCovered line.now self.old.waiting → IsCovered line.now self.new.waiting }
        ensures expected { length self.new.expectations ≡ length self.old.expectations }
        ensures desk { KeepsDesk self.old.supervision.number book.old book.new registrar.old registrar.new }
    {
        *out = Heard::nothing();
        match body {
            Body::AskRight { .. } => self.right_asked(line, centre, registrar, from, out),
            Body::GiveRight { .. } => self.right_given(line, centre, registrar, out),
            Body::RefuseRight { .. } => self.right_refused(book, out),
            Body::ReturnRight { .. } => self.right_returned(line, centre, registrar),
            Body::RouteAsk { first, most, .. } => {
                self.route_asked(line, centre, book, from, first, most, out)
            }
            Body::RouteInfo { run, .. } => self.route_told(line, from, run, out),
            Body::RouteWithdraw { section, .. } => self.route_withdrawn(line, section, out),
            Body::RouteReturn { run, .. } => self.route_returned(line, centre, book, run, out),
            Body::Announce {
                handover,
                track,
                ..
            } => self.announced(line, from, handover, track),
            Body::Cancel { handover, .. } => self.cancelled(from, handover),
            Body::TakingOver { handover, .. } => {
                self.taking_over(line, centre, book, from, handover, out)
            }
            Body::Yield {
                handover,
                yielding,
                ..
            } => {
                let arriving = Arriving {
                    from,
                    number: handover,
                    yielding,
                };
                self.yielded(line, centre, book, registrar, arriving, out)
            }
        }
    }
}
