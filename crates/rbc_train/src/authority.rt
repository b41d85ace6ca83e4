//! Validated train data (3.18), and a request for a movement authority (3.8).

ghost use Rattle.std.specs.Prelude.{◌≡◌, ◌+◌, ◌<◌, ◌≤◌, ℕ};
ghost use Rattle.rbc_spec.specs.Centre as spec;
ghost use Rattle.rbc_spec.specs.Line as track;
ghost use Rattle.rbc_spec.specs.Place as place;
ghost use Rattle.rbc_spec.specs.Message.{TrainData, Request};
ghost use Rattle.rbc_spec.specs.Step as step;
ghost use Rattle.rbc_spec.specs.Frame.{last_stamp};
ghost use Rattle.rbc_book.specs.Book.{Pages, is_own};
ghost use Rattle.rbc_right.specs.Rights.{Rights};
ghost use Rattle.rbc_train.specs.Desk.{HearsTrain, IsAtBook, IsKeptAt, IsOnTrack, KeepsState, last_said, nothing};
ghost use Rattle.rbc_train.specs.Desk.{with_parts, effect_left, DoesMessage, IsReady};
ghost use Rattle.rbc_msgs.specs.StepMessage.{position_of};
ghost use Rattle.rbc_handover.specs.Giving.{with_count};
ghost use Rattle.rbc_train.specs.Written.{written};

use crate::heard::Heard;
use crate::reason::Reason;
use crate::train::TrainState;
use rbc_book::Book;
use rbc_grant::{answer_request, may_request};
use rbc_handover::HandoverCount;
use rbc_line::Line;
use rbc_msgs::{NID_LRBG_UNKNOWN, TrackBody};
use rbc_packets::{Authority, Position};
use rbc_place::place_on;
use rbc_vars::{LEndsection, TTrain};

impl TrainState {
    /// Message 129: the train data of a mission that goes on are known, and acknowledged.
    #[inline(never)]
    pub(crate) fn train_data(&mut self, t_train: u32, out: &mut Heard) -> Result<(), Reason>
        requires ready { IsReady self.old out.old }
        ensures exact { (line : track.Line) (c : ℕ) (book : Pages) (rights : Rights) (position : place.Position)
            → DoesMessage line c t_train
            (TrainData position) self.old book rights self.new book rights (written result out.new) }
        ensures left { self.new ≡ record self.old {
          heard = self.new.heard;
          said = self.new.said;
          supervision = record self.old.supervision { mission = self.new.supervision.mission };
        } }
        ensures counted { self.new.said ≤ self.old.said + 1 }
    {
        self.up()?;
        let mission = self.supervised()?;
        if mission.is_ended {
            return Err(Reason::MissionEnded);
        }
        self.heard = Some(t_train);
        self.supervision.note_data();
        let acknowledgement = TrackBody::DataAcknowledged(TTrain::new(u64::from(t_train)));
        let saying = self.answer(NID_LRBG_UNKNOWN, acknowledgement);
        out.saying = Some(saying);
        Ok(())
    }

    /// Message 132: the hand is extended by the sections that may follow it, those of the pool first. The authority is
    /// sent, up to the end of the hand. At a border, if that is due, a handover is announced and the next centre is
    /// asked for the sections after it.
    #[inline(never)]
    pub(crate) fn request(
        &mut self,
        line: &Line,
        centre: u8,
        book: &mut Book,
        count: &mut HandoverCount,
        t_train: u32,
        position: &Position,
        out: &mut Heard,
    ) -> Result<(), Reason>
        requires out { out.old ≡ nothing }
        requires count { self.old.said + 1 < last_said }
        requires announced { count.old < last_stamp }
        requires at { IsAtBook line.now centre self.old book.old }
        requires kept { IsKeptAt line.now centre self.old }
        requires on { IsOnTrack line.now self.old }
        ensures exact { (rights : Rights) (k : spec.Centre)
            → HearsTrain line.now centre k t_train self.old book.old rights → k.announced ≡ count.old
            → step.effect line.now centre k
            (step.Train (record {
              t_train = t_train;
              nid_engine = self.old.supervision.engine;
              body = Request (position_of position.now);
            }))
            ≡ effect_left line.now centre self.old.supervision.engine
            (with_count count.new (with_parts self.new book.new rights k)) (written result out.new) }
        ensures left { self.new ≡ record self.old {
          heard = self.new.heard;
          said = self.new.said;
          supervision = self.new.supervision;
        } }
        ensures keeps { KeepsState line.now centre self.old self.new }
        ensures announced { (count.old ≤ count.new) × (count.new ≤ count.old + 1) }
        ensures homes { (s : ℕ) → is_own book.new s ≡ is_own book.old s }
    {
        self.up()?;
        let mission = self.supervised()?;
        if mission.is_ended {
            return Err(Reason::MissionEnded);
        }
        if !mission.has_data {
            return Err(Reason::NoTrainData);
        }
        if mission.proposal.is_some() {
            return Err(Reason::ProposalPending);
        }
        let Some(place) = place_on(line, mission.place.track, position) else {
            return Err(Reason::NoPlace);
        };
        let hand = self.hand();
        if !may_request(line, hand, &place) {
            return Err(Reason::NoPlace);
        }
        let grant = answer_request(line, book, self.supervision.pool(), hand, &place);
        self.heard = Some(t_train);
        self.supervision.lengthen(place, grant.sections, book);
        let authority = TrackBody::Authority(Authority {
            l_endsection: LEndsection::new(u64::from(grant.end)),
        });
        let saying = self.answer(place.group, authority);
        out.saying = Some(saying);
        self.at_border(line, centre, count, place.track, out);
        Ok(())
    }
}
