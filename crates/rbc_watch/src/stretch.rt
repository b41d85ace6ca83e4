//! How far one train may run.

ghost use Rattle.std.specs.Prelude.{◌≡◌, option_and_then, option_map};
ghost use Rattle.law_outside.specs.Outside as spec;
ghost use Rattle.rbc_msgs.specs.StepMessage as message;
ghost use Rattle.rbc_msgs.specs.StepMessage.{step_body};
ghost use Rattle.rbc_place.specs.Places.{place_of};
ghost use Rattle.rbc_spec.specs.Message as said;
ghost use Rattle.rbc_spec.specs.Place as placed;
ghost use Rattle.rbc_spec.specs.Sections.{section_count};
ghost use Rattle.rbc_watch.specs.Events.{event_of};
ghost use Rattle.rbc_watch.specs.Stretches.{front_end_with, less_granted, stretch_of};

use crate::event::Event;
use crate::spoken::Saying;
use rbc_line::Line;
use rbc_msgs::{TrackMsg, TrainBody};
use rbc_packets::Position;
use rbc_place::{Place, extent, is_on, section_end, section_start};
use rbc_vars::{LEndsection, TTrain};

/// A pending request to shorten.
#[derive(Clone, Copy, Debug, PartialEq, Eq)]
pub(crate) struct Shortening {
    /// The centre that sent it.
    pub centre: u8,
    /// T_TRAIN of its message 9.
    pub stamp: u32,
    /// The proposed end of the authority, in metres from the start of the track.
    pub end: u32,
}

/// How far a train may run.
#[derive(Clone, Copy, Debug, PartialEq, Eq)]
pub(crate) struct Stretch {
    pub track: u8,
    /// The safe rear end, in decimetres from the start of the track.
    pub rear: i32,
    /// The farthest end that it was sent, in metres from the start of the track.
    pub end: u32,
    /// T_TRAIN of its last message that was answered by an authority or by an accepted start.
    pub since: u32,
    pub asked: Option<Shortening>,
}

impl Stretch {
    /// Whether the section is in the stretch, at least in part.
    pub(crate) fn has(self, line: &Line, s: u16) -> bool
        ensures { result ≡ spec.is_in line.now s (stretch_of self) }
    {
        is_on(line, self.track, u32::from(s))
            && section_start(line, s) < self.end
            && self.rear < 10 * section_end(line, u32::from(s)) as i32
    }

    /// The rest after a message of the train to a centre.
    pub(crate) fn after(self, line: &Line, c: u8, t_train: u32, body: &TrainBody) -> Stretch
        ensures { stretch_of result
            ≡ spec.after_message line.now c t_train (step_body body.now) (stretch_of self) }
    {
        match place_in(line, body) {
            Some(place) if place.track == self.track && self.since < t_train => {
                self.less(line, c, body, place)
            }
            _ => self,
        }
    }

    /// The rest after a message that was sent from this place.
    fn less(self, line: &Line, c: u8, body: &TrainBody, place: Place) -> Stretch
        ensures { stretch_of result
            ≡ spec.takes_back line.now c (step_body body.now) (place_of place) (stretch_of self) }
    {
        match body {
            TrainBody::Report { .. } => self.cleared(place),
            TrainBody::EndOfMission { position } => self.ended(line, position, place),
            TrainBody::ShorteningGranted { request, .. } => self.shortened(c, *request, place),
            _ => self,
        }
    }

    /// The part in advance of the safe rear end.
    fn cleared(self, place: Place) -> Stretch
        ensures { stretch_of result ≡ spec.cleared (place_of place) (stretch_of self) }
    {
        match place.rear {
            Some(rear) if self.rear < rear => Stretch { rear, ..self },
            _ => self,
        }
    }

    /// The rest after an end of mission.
    fn ended(self, line: &Line, position: &Position, place: Place) -> Stretch
        ensures { stretch_of result
            ≡ spec.takes_back line.now 0 (said.EndOfMission (message.position_of position.now)) (place_of place)
            (stretch_of self) }
    {
        let rest = self.cleared(place);
        if position.v_train.value() != 0 {
            return rest;
        }
        match front_end(line, place) {
            Some(end) => rest.up_to(end),
            None => rest,
        }
    }

    /// The rest after the request of this centre with this stamp was granted.
    fn shortened(self, c: u8, stamp: TTrain, place: Place) -> Stretch
        ensures { stretch_of result ≡ less_granted c stamp (place_of place) (stretch_of self) }
    {
        match self.asked {
            Some(asked)
                if asked.centre == c
                    && u64::from(asked.stamp) == stamp.value()
                    && u64::from(place.front) <= 10 * u64::from(asked.end) => {
                self.up_to(asked.end)
            }
            _ => self,
        }
    }

    /// The part up to this end.
    fn up_to(self, end: u32) -> Stretch
        ensures { stretch_of result ≡ spec.up_to (stretch_of self) end }
    {
        Stretch {
            end: self.end.min(end),
            ..self
        }
    }

    /// The stretch after an authority, which answers a message of the train.
    pub(crate) fn extended(
        self,
        line: &Line,
        event: &Event,
        saying: &Saying,
        end: LEndsection,
    ) -> Option<Stretch>
        ensures { option_map stretch_of result
            ≡ spec.extended line.now (event_of event.now) saying.now.nid_engine saying.now.message.nid_lrbg end
            (stretch_of self) }
    {
        let stamp = event.stamp(saying.nid_engine)?;
        let end = self.metres_from(line, saying.message.nid_lrbg(), end)?;
        Some(Stretch {
            end: self.end.max(end),
            since: self.since.max(stamp),
            asked: None,
            ..self
        })
    }

    /// The stretch after a request of this centre to shorten.
    pub(crate) fn asked_for(
        self,
        line: &Line,
        c: u8,
        message: &TrackMsg,
        end: LEndsection,
    ) -> Option<Stretch>
        ensures { option_map stretch_of result
            ≡ spec.asked_for line.now c message.now.t_train message.now.nid_lrbg end (stretch_of self) }
    {
        let end = self.metres_from(line, message.nid_lrbg(), end)?;
        Some(Stretch {
            asked: Some(Shortening {
                centre: c,
                stamp: message.t_train(),
                end,
            }),
            ..self
        })
    }

    /// The place this many metres in advance of a balise group of the stretch's track.
    fn metres_from(self, line: &Line, group: u32, metres: LEndsection) -> Option<u32>
        ensures { result ≡ spec.metres_from line.now group metres (stretch_of self) }
    {
        let s = line.section_of_group(group)?;
        if is_on(line, self.track, u32::from(s)) {
            Some(section_start(line, s) + metres.value() as u32)
        } else {
            None
        }
    }
}

/// The place that a message takes back from, if it has one.
fn place_in(line: &Line, body: &TrainBody) -> Option<Place>
    ensures { option_map place_of result
        ≡ option_and_then (placed.extent line.now) (spec.position_of (step_body body.now)) }
{
    match body {
        TrainBody::Report { position }
        | TrainBody::EndOfMission { position }
        | TrainBody::ShorteningGranted { position, .. } => extent(line, position),
        _ => None,
    }
}

/// The end of the section that has the front.
fn front_end(line: &Line, place: Place) -> Option<u32>
    ensures { result ≡ spec.front_end line.now (place_of place) (section_count line.now) }
{
    let mut end = None;
    for s in 0..line.section_count() {
        end = farther(line, place, s, end);
    }
    end
}

/// The end of the section if the front is in advance of its start, else that of an earlier section.
fn farther(line: &Line, place: Place, s: u16, before: Option<u32>) -> Option<u32>
    ensures { result ≡ front_end_with line.now (place_of place) s before }
{
    if is_on(line, place.track, u32::from(s)) && 10 * section_start(line, s) < place.front {
        Some(section_end(line, u32::from(s)))
    } else {
        before
    }
}

/// The stretch of a start of mission from this place, by a message with this stamp.
pub(crate) fn begun(line: &Line, stamp: u32, place: Place) -> Option<Stretch>
    ensures { option_map stretch_of result ≡ spec.begun line.now stamp (place_of place) }
{
    let rear = place.rear?;
    let end = front_end(line, place)?;
    Some(Stretch {
        track: place.track,
        rear,
        end,
        since: stamp,
        asked: None,
    })
}

/// The stretch of a train whose start is accepted. A stretch that is not empty stays, if it is on the same track.
pub(crate) fn accepted(before: Option<Stretch>, start: Stretch) -> Option<Stretch>
    ensures { option_map stretch_of result ≡ spec.accepted (option_map stretch_of before) (stretch_of start) }
{
    let Some(before) = before else {
        return Some(start);
    };
    if i64::from(before.rear) >= 10 * i64::from(before.end) {
        return Some(start);
    }
    if before.track != start.track {
        return None;
    }
    Some(Stretch {
        rear: if before.rear < start.rear {
            before.rear
        } else {
            start.rear
        },
        end: before.end.max(start.end),
        since: before.since.max(start.since),
        ..start
    })
}
