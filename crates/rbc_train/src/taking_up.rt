//! A mission arrives from the handing-over centre (3.15.1).

ghost use Rattle.std.specs.Prelude.{◌≡◌, ◌+◌, ◌<◌, ◌≤◌, ◌&&◌, ◌*◌, ℕ, true, None, is_none, nat_le, not, length, max};
ghost use Rattle.std.specs.Prelude.{option_map};
ghost use Rattle.std.specs.Option.{option_map_or};
ghost use Rattle.std.specs.List.{find, range_with_len};
ghost use Rattle.rbc_spec.specs.Centre as spec;
ghost use Rattle.rbc_spec.specs.Frame.{HasPlaceRange, HasRunRange, carried_place};
ghost use Rattle.rbc_spec.specs.Acts.{rest};
ghost use Rattle.rbc_spec.specs.Line.{is_home, section_of_group};
ghost use Rattle.rbc_spec.specs.Sections as sections;
ghost use Rattle.rbc_spec.specs.Place.{group_start as start_of_group};
ghost use Rattle.rbc_spec.specs.Links as links;
ghost use Rattle.rbc_spec.specs.Maps.{has, put};
ghost use Rattle.rbc_book.specs.Book.{is_own, wish_at};
ghost use Rattle.rbc_allocation.specs.Sections.{IsHeldBy};
ghost use Rattle.rbc_handover.specs.Expectations.{expected_from, is_taking_under};
ghost use Rattle.rbc_mission.specs.Passing.{IsBooked};
ghost use Rattle.rbc_right.specs.Rights.{is_here};
ghost use Rattle.rbc_line.specs.SectionRuns.{run_of};
ghost use Rattle.rbc_linkmsg.specs.Bodies as bodies;
ghost use Rattle.rbc_place.specs.Places.{place_of};
ghost use Rattle.rbc_train.specs.Arriving.{MayGoOn, taken_up, yielded_at};
ghost use Rattle.rbc_train.specs.Desk.{HasParts, IsAtBook, KeepsState, IsReady, Does};
ghost use Rattle.rbc_train.specs.Desks.{IsBookOf};

use crate::front::{has_group_on_track, is_on_track};
use crate::heard::Heard;
use crate::train::TrainState;
use rbc_book::Book;
use rbc_border::{Arrival, may_arrive};
use rbc_line::{Line, SectionRun};
use rbc_linkmsg::{YieldedPlace, Yielding};
use rbc_mission::MissionFacts;
use rbc_place::{Place, group_start};
use rbc_right::{Registrar, Right};
use std::cmp::max;

/// A mission that another centre yields: that centre, the number of the handover, and the mission.
#[derive(Clone, Copy, Debug)]
pub(crate) struct Arriving {
    pub from: u8,
    pub number: u32,
    pub yielding: Yielding,
}

impl TrainState {
    /// Yield from a centre. If it is expected, and this centre has replied that it takes over, the mission goes on here
    /// with its sections and the right. The later of both stamps is kept. For the first section of this home that is
    /// wished back, the train gets a request to shorten (3.8.6), if that may be sent.
    pub(crate) fn yielded(
        &mut self,
        line: &Line,
        centre: u8,
        book: &mut Book,
        registrar: &Registrar,
        arriving: Arriving,
        out: &mut Heard,
    )
        requires ready { IsReady self.old out.old }
        requires at { IsAtBook line.now centre self.old book.old }
        requires place { HasPlaceRange (bodies.place_of arriving.yielding.place) }
        requires hand { HasRunRange 1 32 (run_of arriving.yielding.hand) }
        ensures exact { Does line.now centre
            (option_map_or (yielded_at line.now centre self.old.supervision.engine arriving)
            (carried_place (bodies.place_of arriving.yielding.place)) rest)
            self.old book.old registrar.now self.new book.new registrar.now out.new }
        ensures left { self.new ≡ record self.old {
          heard = self.new.heard;
          said = self.new.said;
          supervision = self.new.supervision;
          expectations = self.new.expectations;
        } }
        ensures keeps { KeepsState line.now centre self.old self.new }
        ensures homes { (s : ℕ) → is_own book.new s ≡ is_own book.old s }
    {
        let Some(place) = arriving_place(arriving.yielding.place) else {
            return;
        };
        if !self.may_take(line, centre, book, registrar, &arriving, &place) {
            return;
        }
        self.take_mission(line, book, arriving, place);
        match first_wished(line, centre, book, arriving.yielding.hand) {
            Some(s) => out.saying = self.ask_back(line, s),
            None => {}
        }
    }

    // Whether the mission may go on here. The train is expected from that centre under this number, and that centre has
    // got a TakingOver. Neither a mission nor the right is here. Each section may arrive, on the track of the place.
    // The place's group is on that track and not in advance of the front.
    fn may_take(
        &self,
        line: &Line,
        centre: u8,
        book: &Book,
        registrar: &Registrar,
        arriving: &Arriving,
        place: &Place,
    ) -> bool
        requires book { IsBookOf line.now centre book.now }
        requires some { 1 ≤ arriving.now.yielding.hand.count }
        ensures exact { (k : spec.Centre) → HasParts line.now centre k self.now book.now registrar.now
            → result ≡ links.may_take line.now centre k arriving.now.from arriving.now.number
            self.now.supervision.engine (place_of place.now) (run_of arriving.now.yielding.hand) }
        ensures may { result ≡ true
            → MayGoOn line.now self.now.supervision (run_of arriving.now.yielding.hand) book.now }
    {
        if !self.awaits(registrar, arriving.from, arriving.number) {
            return false;
        }
        let hand = arriving.yielding.hand;
        if !is_placed(line, place, hand) {
            return false;
        }
        let train = Arrival {
            nid_engine: self.nid_engine(),
            track: place.track,
        };
        may_arrive(line, centre, book, train, hand)
    }

    // Whether the train is expected from that centre under this number, and that centre has got a TakingOver. Besides,
    // neither a mission nor the right is here.
    fn awaits(&self, registrar: &Registrar, from: u8, number: u32) -> bool
        ensures { result ≡ (is_taking_under number (expected_from self.now.expectations from) &&
            (is_none self.now.supervision.mission && not (is_here registrar.now self.now.supervision.number))) }
    {
        self.expectations.may_take(from, number)
            && (self.supervision.mission().is_none() && !registrar.has(self.supervision.number()))
    }

    // The mission goes on here.
    fn take_mission(&mut self, line: &Line, book: &mut Book, arriving: Arriving, place: Place)
        requires hand { HasRunRange 1 32 (run_of arriving.yielding.hand) }
        requires may { MayGoOn line.now self.old.supervision (run_of arriving.yielding.hand) book.old }
        ensures left { self.new
            ≡ taken_up arriving.yielding (place_of place) self.new.supervision.hand self.new.expectations self.old }
        ensures expected { (d : ℕ) → expected_from self.new.expectations d
            ≡ put (expected_from self.old.expectations) arriving.from None d }
        ensures count { length self.new.expectations ≡ length self.old.expectations }
        ensures held { IsHeldBy self.old.supervision.engine self.new.supervision.hand book.new }
        ensures book { IsBooked (spec.is_out_for self.old.supervision.engine) (spec.Taken self.old.supervision.engine)
            (run_of arriving.yielding.hand) book.old book.new }
    {
        let Arriving { from, yielding, .. } = arriving;
        let mission = MissionFacts {
            has_data: yielding.has_data,
            is_ended: yielding.is_ended,
            ..MissionFacts::at(place)
        };
        let right = Right::arrive(self.supervision.number());
        self.supervision
            .take_up(line, mission, yielding.hand, book, right);
        self.heard = Some(later(self.heard, yielding.heard));
        self.expectations.taken(from);
    }
}

// The later of two T_TRAIN, of which one may be none.
fn later(heard: Option<u32>, other: u32) -> u32
    ensures { result ≡ option_map_or (max other) heard other }
{
    match heard {
        Some(t_train) => max(other, t_train),
        None => other,
    }
}

// The place that a Yield carries; `None` if its front is before the start of the track.
fn arriving_place(place: YieldedPlace) -> Option<Place>
    requires { HasPlaceRange (bodies.place_of place) }
    ensures { option_map place_of result ≡ carried_place (bodies.place_of place) }
{
    if place.front < 0 {
        return None;
    }
    Some(Place {
        track: place.track,
        group: place.group,
        front: place.front as u32,
        rear: place.rear,
    })
}

// Whether the sections are on the track of the place, and its group is on it too, and not in advance of its front.
fn is_placed(line: &Line, place: &Place, hand: SectionRun) -> bool
    ensures { result ≡ ((sections.is_on_track line.now place.now.track (run_of hand) && has
        (sections.is_on line.now place.now.track) (section_of_group line.now place.now.group))
        && nat_le (10 * start_of_group line.now (place_of place.now)) place.now.front) }
{
    (is_on_track(line, place.track, hand) && has_group_on_track(line, place))
        && 10 * group_start(line, place) <= place.front
}

// The first section of the run that is of this centre's home and wished back.
fn first_wished(line: &Line, centre: u8, book: &Book, run: SectionRun) -> Option<u16>
    requires { run.first + run.count ≤ 65535 }
    ensures { result ≡ find (λ s. is_home line.now centre s && wish_at book.now s)
        (range_with_len run.first run.count) }
{
    for k in 0..run.count {
        let s = run.first + k;
        if is_wished(line, centre, book, s) {
            return Some(s);
        }
    }
    None
}

// Whether the section is of this centre's home and wished back.
fn is_wished(line: &Line, centre: u8, book: &Book, s: u16) -> bool
    ensures { result ≡ (is_home line.now centre s && wish_at book.now s) }
{
    line.is_home(centre, s) && book.page(s).is_wished
}
