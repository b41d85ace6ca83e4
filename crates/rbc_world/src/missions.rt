//! The place of each train's mission: the centre that supervises the train, or the frame that hands it over.

ghost use Rattle.std.specs.Prelude.{◌≡◌, ◌<◌, ◌^◌, length, option_and_then, option_map};
ghost use Rattle.rbc_spec.specs.Frame as frame;
ghost use Rattle.rbc_spec.specs.Frame.{HasBodyRange};
ghost use Rattle.rbc_spec.specs.World.{frame_sent};
ghost use Rattle.rbc_spec.specs.ReadOff as read;
ghost use Rattle.rbc_spec.specs.ReadOff.{held, held_at};
ghost use Rattle.law_reached.specs.Seen.{yielded_on_way};
ghost use Rattle.rbc_linkmsg.specs.Bodies as bodies;
ghost use Rattle.rbc_linkmsg.specs.Bodies.{body_of};
ghost use Rattle.rbc_centre.specs.rbc_place.Places.{place_of};
ghost use Rattle.rbc_world.specs.World.{line_of, state_of};
ghost use Rattle.rbc_world.specs.View.{held_shown};
ghost use Rattle.rbc_world.specs.Missions.{held_by_a_centre, carried_between, carried_from};

use crate::view::{MissionView, Supervisor};
use crate::world::World;
use rbc_centre::{Body, MissionFacts, Place};
use rbc_linkmsg::YieldedPlace;

impl World {
    // The mission of a train, as the centre has it that supervises the train, and else as the frame has it that hands
    // it over.
    pub(crate) fn mission_view(&self, nid_engine: u32) -> Option<MissionView>
        ensures { option_map held_shown result ≡ held (line_of self.now) (state_of self.now) nid_engine }
    {
        match self.mission_at_a_centre(nid_engine) {
            Some(mission) => Some(mission),
            None => self.mission_on_the_way(nid_engine),
        }
    }

    // The mission of a train that the first centre has that has one.
    fn mission_at_a_centre(&self, nid_engine: u32) -> Option<MissionView>
        ensures { option_map held_shown result ≡ held_by_a_centre (line_of self.now) (state_of self.now) nid_engine }
    {
        for c in 0..self.line.centre_count() {
            if let Some(mission) = self.mission_at(c, nid_engine) {
                return Some(mission);
            }
        }
        None
    }

    // The mission that centre c has of a train.
    fn mission_at(&self, c: u8, nid_engine: u32) -> Option<MissionView>
        requires { c < length self.now.centres.items }
        ensures { option_map held_shown result ≡ held_at (state_of self.now) nid_engine c }
    {
        let page = self.centres[c as usize].train(nid_engine);
        let facts = page.mission?;
        Some(MissionView {
            supervisor: Supervisor::At { centre: c },
            facts,
            hand: page.hand,
        })
    }

    // The mission that the first Yield of a train carries that is on the way.
    fn mission_on_the_way(&self, nid_engine: u32) -> Option<MissionView>
        ensures { option_map held_shown result ≡ yielded_on_way (line_of self.now) (state_of self.now) nid_engine }
    {
        for from in 0..self.line.centre_count() {
            if let Some(mission) = self.mission_sent(from, nid_engine) {
                return Some(mission);
            }
        }
        None
    }

    // The mission that the first Yield of a train carries that is on the way from this centre.
    fn mission_sent(&self, from: u8, nid_engine: u32) -> Option<MissionView>
        requires { from < length self.now.centres.items }
        ensures { option_map held_shown result ≡ carried_from (line_of self.now) (state_of self.now) nid_engine from }
    {
        for to in 0..self.line.centre_count() {
            if let Some(mission) = self.mission_between(from, to, nid_engine) {
                return Some(mission);
            }
        }
        None
    }

    // The mission that the first Yield of a train carries that is on the way from one centre to another: sent, and not
    // taken yet.
    fn mission_between(&self, from: u8, to: u8, nid_engine: u32) -> Option<MissionView>
        requires from { from < length self.now.centres.items }
        requires to { to < length self.now.centres.items }
        ensures { option_map held_shown result ≡ carried_between (state_of self.now) nid_engine from to }
    {
        let taken = self.centres[to as usize].taken(from);
        let sent = self.centres[from as usize].sent(to);
        for before in taken..sent {
            if let Some(mission) = self.mission_in(from, to, before + 1, nid_engine) {
                return Some(mission);
            }
        }
        None
    }

    // The mission of a train that the frame hands over that one centre sent to another under this number.
    fn mission_in(&self, from: u8, to: u8, number: u32, nid_engine: u32) -> Option<MissionView>
        ensures { option_map held_shown result
            ≡ option_and_then (λ f. read.handed_over nid_engine f.body)
            (frame_sent (state_of self.now) from to number) }
    {
        let frame = self.frame_sent(from, to, number)?;
        handed_over(nid_engine, frame.body())
    }
}

// The mission of a train that a frame with this body hands over.
fn handed_over(nid_engine: u32, body: Body) -> Option<MissionView>
    requires { HasBodyRange (body_of body) }
    ensures { option_map held_shown result ≡ read.handed_over nid_engine (body_of body) }
{
    let Body::Yield {
        engine,
        yielding,
        ..
    } = body
    else {
        return None;
    };
    if engine != nid_engine {
        return None;
    }
    let facts = MissionFacts {
        place: carried_place(yielding.place)?,
        has_data: yielding.has_data,
        is_ended: yielding.is_ended,
        proposal: None,
    };
    Some(MissionView {
        supervisor: Supervisor::Parted {
            heard: yielding.heard,
        },
        facts,
        hand: yielding.hand,
    })
}

// The place that a Yield carries; `None` if its front is before the start of the track.
fn carried_place(place: YieldedPlace) -> Option<Place>
    requires { place.group < 2 ^ 24 }
    ensures { option_map place_of result ≡ frame.carried_place (bodies.place_of place) }
{
    let front = u32::try_from(place.front).ok()?;
    Some(Place {
        track: place.track,
        group: place.group,
        front,
        rear: place.rear,
    })
}
