//! A mission goes on at the next centre (3.15.1).

ghost use Rattle.std.specs.Prelude.{◌≡◌, ◌<◌, ℕ, [], Some, if◌then◌else◌};
ghost use Rattle.std.specs.Option.{option_map_or};
ghost use Rattle.rbc_spec.specs.Centre as spec;
ghost use Rattle.rbc_spec.specs.Frame.{Yield, yielded_place};
ghost use Rattle.rbc_spec.specs.Acts as acts;
ghost use Rattle.rbc_spec.specs.Links as links;
ghost use Rattle.rbc_book.specs.Book.{is_own};
ghost use Rattle.rbc_right.specs.Rights.{Rights};
ghost use Rattle.rbc_line.specs.SectionRuns.{run_of};
ghost use Rattle.rbc_linkmsg.specs.Bodies.{body_of};
ghost use Rattle.rbc_linkmsg.specs.Bodies as bodies;
ghost use Rattle.rbc_place.specs.Places.{place_of};
ghost use Rattle.rbc_session.specs.SessionStates.{session_phase};
ghost use Rattle.rbc_train.specs.Desk.{IsAtBook, KeepsState, last_said, counted_to, replied, IsReady, SaysOnce, Does};
ghost use Rattle.rbc_train.specs.Sayings.{sayings_of};

use crate::asking::is_up;
use crate::heard::Heard;
use crate::letter::Letter;
use crate::mail::{Mail, Notice};
use crate::routes::session_order;
use crate::saying::Saying;
use crate::train::TrainState;
use rbc_book::Book;
use rbc_line::Line;
use rbc_linkmsg::{Body, YieldedPlace, Yielding};
use rbc_mission::Yielded;
use rbc_msgs::{NID_LRBG_UNKNOWN, TrackBody};
use rbc_place::Place;

impl TrainState {
    /// TakingOver from a centre: the mission is yielded, if its handover to that centre is pending under this number.
    /// The pool is returned, and the mission goes in one frame. If the train will not return to this centre, it is
    /// ordered to end its session.
    pub(crate) fn taking_over(
        &mut self,
        line: &Line,
        centre: u8,
        book: &mut Book,
        from: u8,
        number: u32,
        out: &mut Heard,
    )
        requires ready { IsReady self.old out.old }
        requires at { IsAtBook line.now centre self.old book.old }
        ensures exact { (rights : Rights) → Does line.now centre
            (links.taking_over line.now centre from number self.old.supervision.engine)
            self.old book.old rights self.new book.new rights out.new }
        ensures left { self.new ≡ record self.old { said = self.new.said; supervision = self.new.supervision } }
        ensures keeps { KeepsState line.now centre self.old self.new }
        ensures homes { (s : ℕ) → is_own book.new s ≡ is_own book.old s }
    {
        let nid_engine = self.nid_engine();
        let Some(yielded) = self.supervision.yield_to(line, centre, book, from, number) else {
            return;
        };
        let letter = yield_letter(nid_engine, self.heard, yielded);
        let order = self.order_if_gone(line, centre, yielded.is_gone);
        out.order = order;
        out.mail = Mail::home(
            yielded.mission.place.track,
            yielded.pool,
            Notice::Nothing,
            Some(letter),
        );
    }

    // The order to end its session, for a train that will not return to this centre.
    fn order_if_gone(&mut self, line: &Line, centre: u8, is_gone: bool) -> Option<Saying>
        requires { self.old.said < last_said }
        ensures exact { (k : spec.Centre) → k.phase self.old.supervision.engine ≡ session_phase self.old.session_state
            → k.said self.old.supervision.engine ≡ self.old.said
            → (if is_gone then acts.end_order line.now centre self.old.supervision.engine else acts.rest) k
            ≡ replied (counted_to self.old.supervision.engine self.new.said k) (sayings_of result) [] }
        ensures says { SaysOnce self.old self.new }
    {
        if !is_gone {
            return None;
        }
        self.order_end(line, centre)
    }

    /// The order to end its session, if that is up (3.5.5).
    pub(crate) fn order_end(&mut self, line: &Line, centre: u8) -> Option<Saying>
        requires { self.old.said < last_said }
        ensures exact { (k : spec.Centre) → k.phase self.old.supervision.engine ≡ session_phase self.old.session_state
            → k.said self.old.supervision.engine ≡ self.old.said
            → acts.end_order line.now centre self.old.supervision.engine k
            ≡ replied (counted_to self.old.supervision.engine self.new.said k) (sayings_of result) [] }
        ensures says { SaysOnce self.old self.new }
    {
        if !is_up(self.session_state.phase()) {
            return None;
        }
        let order = TrackBody::EndSession(session_order(line, centre));
        Some(self.answer(NID_LRBG_UNKNOWN, order))
    }
}

// The frame that carries a mission to the accepting centre, with the last T_TRAIN received.
fn yield_letter(nid_engine: u32, heard: Option<u32>, yielded: Yielded) -> Letter
    ensures to { result.to ≡ yielded.handover.to }
    ensures body { body_of result.body
        ≡ Yield yielded.handover.number nid_engine
        (option_map_or (λ n. n) heard 0) yielded.mission.has_data yielded.mission.is_ended
        (yielded_place (place_of yielded.mission.place)) (run_of yielded.hand) }
{
    let mission = yielded.mission;
    Letter {
        to: yielded.handover.to,
        body: Body::Yield {
            handover: yielded.handover.number,
            engine: nid_engine,
            yielding: Yielding {
                heard: heard.unwrap_or(0),
                has_data: mission.has_data,
                is_ended: mission.is_ended,
                place: place_to_yield(mission.place),
                hand: yielded.hand,
            },
        },
    }
}

// The place, as a Yield carries it.
fn place_to_yield(place: Place) -> YieldedPlace
    ensures { bodies.place_of result ≡ yielded_place (place_of place) }
{
    YieldedPlace {
        track: place.track,
        group: place.group,
        front: place.front as i32,
        rear: place.rear,
    }
}
