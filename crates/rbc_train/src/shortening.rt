//! The train answers the request to shorten its movement authority (3.8.6).

ghost use Rattle.std.specs.Prelude.{◌≡◌, ℕ, option_map};
ghost use Rattle.rbc_spec.specs.Message.{ShorteningGranted, ShorteningRejected};
ghost use Rattle.rbc_spec.specs.Place as place;
ghost use Rattle.rbc_msgs.specs.StepMessage.{position_of};
ghost use Rattle.rbc_train.specs.Desk.{IsAtDesk, nothing, DoesMessage, KeepsAtDesk};
ghost use Rattle.rbc_spec.specs.Line as track;
ghost use Rattle.rbc_book.specs.Book.{Pages};
ghost use Rattle.rbc_right.specs.Rights.{Rights};
ghost use Rattle.rbc_train.specs.Written.{written};

use crate::heard::Heard;
use crate::reason::Reason;
use crate::train::TrainState;
use rbc_book::Book;
use rbc_line::Line;
use rbc_packets::Position;
use rbc_place::place_on;
use rbc_right::Registrar;
use rbc_shorten::{Cut, granted, rejected};
use rbc_vars::TTrain;

impl TrainState {
    /// Message 137: the answered request ends. If the train has not run past the proposed end, it gives back the
    /// sections after that. A mission without a section is closed.
    #[inline(never)]
    pub(crate) fn shortening_granted(
        &mut self,
        line: &Line,
        centre: u8,
        book: &mut Book,
        registrar: &mut Registrar,
        t_train: u32,
        request: TTrain,
        position: &Position,
        out: &mut Heard,
    ) -> Result<(), Reason>
        requires at { IsAtDesk line.now centre self.old book.old registrar.old out.old }
        ensures exact { DoesMessage line.now centre t_train (ShorteningGranted request (position_of position.now))
            self.old book.old registrar.old self.new book.new registrar.new (written result out.new) }
        ensures left { self.new ≡ record self.old { heard = self.new.heard; supervision = self.new.supervision } }
        ensures keeps { KeepsAtDesk line.now centre self.old self.new book.old book.new registrar.old registrar.new }
    {
        self.up()?;
        let mission = self.supervised()?;
        let front = front_on(line, mission.place.track, position);
        match granted(
            line,
            mission.proposal,
            request.value() as u32,
            self.hand(),
            front,
        ) {
            Ok(Cut::Keep(keep)) => {
                self.heard = Some(t_train);
                let released = self.supervision.shorten(line, keep, book);
                let track = mission.place.track;
                self.released(line, centre, registrar, track, released, out);
                Ok(())
            }
            Ok(Cut::Nothing) => {
                self.heard = Some(t_train);
                self.supervision.forget_proposal();
                Ok(())
            }
            Err(_) => Err(Reason::Unasked),
        }
    }

    /// Message 138: the answered request ends, if it is pending.
    #[inline(never)]
    pub(crate) fn shortening_rejected(
        &mut self,
        t_train: u32,
        request: TTrain,
    ) -> Result<(), Reason>
        ensures exact { (line : track.Line) (c : ℕ) (book : Pages) (rights : Rights) (position : place.Position)
            → DoesMessage line c t_train
            (ShorteningRejected request position) self.old book rights self.new book rights (written result nothing) }
        ensures left { self.new ≡ record self.old {
          heard = self.new.heard;
          supervision = record self.old.supervision { mission = self.new.supervision.mission };
        } }
    {
        self.up()?;
        let mission = self.supervised()?;
        if rejected(mission.proposal, request.value() as u32).is_err() {
            return Err(Reason::Unasked);
        }
        self.heard = Some(t_train);
        self.supervision.forget_proposal();
        Ok(())
    }
}

// The safe front end in decimetres, if the report has a place on this track.
fn front_on(line: &Line, track: u8, position: &Position) -> Option<u32>
    ensures { result ≡ option_map (λ p. p.front) (place.place_on line.now track (position_of position.now)) }
{
    place_on(line, track, position).map(|place| place.front)
}
