//! Maps metres, events and times to places on the page, in pixels from its left and its upper edge.

ghost use Rattle.std.specs.List.{find};
ghost use Rattle.std.specs.Prelude.{◌≡◌, ◌≤◌, ◌+◌, ◌*◌, ◌^◌, if◌then◌else◌, is_some, unwrap_or};
ghost use Rattle.cli_picture.specs.Scale.{below, front_of, has_room, height, metres_before, metres_to, middle_of};
ghost use Rattle.cli_picture.specs.Scale.{nearest, place_in, rear_metres, rear_of, room_of};
ghost use Rattle.cli_picture.specs.Scale.{until_of, x_of, y_of};

use crate::time::TimeAxis;
use rbc_line::Line;
use rbc_place::{Place, track_end};

/// The width of the page.
pub const WIDTH: u64 = 1200;
/// The right end of the line on the page.
pub const RIGHT: u64 = 1180;
/// The left end of the line, right of the words beside the events.
pub const LEFT: u64 = 180;
/// The space between two tracks.
pub const GAP: u64 = 30;
/// The height of an event if there are few, and of all events if there are many.
const ROW: u64 = 24;

const MOST_HEIGHT: u64 = 3400;

/// The least height of an axis of time: it has room for its ticks.
const LEAST_OF_TIME: u64 = 400;

/// The steps from one labelled event to the next.
static STRIDES: [usize; 13] = [1, 2, 5, 10, 20, 50, 100, 200, 500, 1000, 2000, 5000, 10_000];

/// The place of each metre and each event.
#[derive(Clone, Copy)]
pub struct Scale<'a> {
    pub line: &'a Line,
    /// The upper edge of the events.
    pub top: u64,
    pub event_count: usize,
    /// The axis, if it is time.
    pub axis: Option<TimeAxis<'a>>,
}

impl<'a> Scale<'a> {
    /// The place of a point of a track, in metres from the start of the track. A point past the track's end is shown
    /// at the end.
    pub fn x(&self, track: u8, metres: u32) -> u64
        ensures bound { result ≤ 1180 }
        ensures exact { result ≡ x_of self.now.line.now track metres }
    {
        let gaps = u64::from(track) * GAP;
        let whole = self.metres_before(self.line.track_count());
        let place = share(self.room(), self.metres_to(track, metres), whole);
        (LEFT + gaps + place).min(RIGHT)
    }

    /// The place of a train's safe front end.
    pub fn front(&self, place: &Place) -> u64
        ensures bound { result ≤ 1180 }
        ensures exact { result ≡ front_of self.now.line.now place.now }
    {
        self.x(place.track, place.front / 10)
    }

    /// The place of a train's safe rear end, or of its front if the rear end is not known.
    pub fn rear(&self, place: &Place) -> u64
        ensures bound { result ≤ 1180 }
        ensures exact { result ≡ rear_of self.now.line.now place.now place.now.rear }
    {
        match place.rear {
            Some(rear) => self.x(place.track, metres_of(rear)),
            None => self.front(place),
        }
    }

    /// The room for the tracks, without the spaces between them.
    fn room(&self) -> u64
        ensures bound { result ≤ 1000 }
        ensures exact { result ≡ room_of self.now.line.now }
    {
        let tracks = u64::from(self.line.track_count());
        (RIGHT - LEFT).saturating_sub(tracks.saturating_sub(1) * GAP)
    }

    /// The length of the line up to a point of a track, in metres.
    fn metres_to(&self, track: u8, metres: u32) -> u64
        ensures bound { result ≤ 2 ^ 40 }
        ensures exact { result ≡ metres_to self.now.line.now track metres }
    {
        self.metres_before(track) + u64::from(metres.min(track_end(self.line, track)))
    }

    /// The length of the tracks before this one, in metres.
    fn metres_before(&self, track: u8) -> u64
        ensures bound { result ≤ 1024000 * track }
        ensures exact { result ≡ metres_before self.now.line.now track }
    {
        let mut metres: u64 = 0;
        for t in 0..track {
            metres += u64::from(track_end(self.line, t));
        }
        metres
    }

    /// The height of all events.
    pub fn height(&self) -> u64
        ensures bound { result ≤ 3400 }
        ensures exact { result ≡ height self.now }
    {
        let count = self.event_count as u64;
        count
            .saturating_mul(ROW)
            .max(self.least_height())
            .min(MOST_HEIGHT)
    }

    fn least_height(&self) -> u64
        ensures { result ≡ (if is_some self.now.axis then 400 else 24) }
    {
        if self.axis.is_some() {
            LEAST_OF_TIME
        } else {
            ROW
        }
    }

    /// The lower edge of the events.
    pub fn bottom(&self) -> u64
        ensures { result ≡ below self.now (height self.now) }
    {
        self.top.saturating_add(self.height())
    }

    /// The place of an event: that of its time, or the middle of its line.
    pub fn y(&self, event: usize) -> u64
        ensures { result ≡ y_of self.now event }
    {
        match &self.axis {
            Some(axis) => self.at(axis, axis.time_ms(event)),
            None => self.middle(event),
        }
    }

    /// The place of a time.
    pub fn at(&self, axis: &TimeAxis<'_>, time_ms: u64) -> u64
        ensures { result ≡ place_in self.now axis.now time_ms }
    {
        self.top.saturating_add(axis.place(time_ms, self.height()))
    }

    /// The middle of an event's line. An event past the last is at the lower edge.
    fn middle(&self, event: usize) -> u64
        ensures { result ≡ middle_of self.now event }
    {
        let halves = twice(event) + 1;
        let whole = twice(self.event_count);
        self.top
            .saturating_add(nearest(self.height(), halves, whole))
    }

    /// The end of a mark: at an event, or after the last one at the lower edge.
    pub fn until(&self, event: usize) -> u64
        ensures { result ≡ until_of self.now event }
    {
        if event < self.event_count {
            self.y(event)
        } else {
            self.bottom()
        }
    }

    /// The step from one labelled event to the next, so that there is room for each label: 1, 2, 5, 10 and so on.
    pub fn stride(&self) -> usize
        ensures { result ≡ unwrap_or (find (has_room self.now) STRIDES) 10000 }
    {
        self.first_with_room(&STRIDES).unwrap_or(10_000)
    }

    /// The first of these steps with room for a label at each.
    fn first_with_room(&self, strides: &[usize]) -> Option<usize>
        ensures { result ≡ find (has_room self.now) strides.now }
    {
        for stride in strides {
            if self.has_room(*stride) {
                return Some(*stride);
            }
        }
        None
    }

    /// Whether there is room for a label at each of these steps.
    fn has_room(&self, stride: usize) -> bool
        ensures { result ≡ has_room self.now stride }
    {
        let count = self.event_count as u64;
        let room = nearest(self.height(), u128::from(stride as u64), u128::from(count));
        room >= 18 || self.event_count <= 1
    }
}

/// A safe rear end in metres, from decimetres; 0 before the start of the track.
fn metres_of(rear: i32) -> u32
    ensures { result ≡ rear_metres rear }
{
    if rear < 0 { 0 } else { rear as u32 / 10 }
}

/// The share of `part` of `whole` in a room, rounded to the nearest. If the whole is 0, the share is the whole room.
fn share(room: u64, part: u64, whole: u64) -> u64
    requires { room ≤ 3400 }
    ensures bound { result ≤ room }
    ensures exact { result ≡ nearest room part whole }
{
    nearest(room, u128::from(part), u128::from(whole))
}

fn twice(count: usize) -> u128
    ensures bound { result + 2 ≤ 2 ^ 65 }
    ensures exact { result ≡ count * 2 }
{
    u128::from(count as u64) * 2
}

// The share of a part of the whole. A part that is longer than the whole has the whole room.
fn nearest(room: u64, part: u128, whole: u128) -> u64
    requires room { room ≤ 3400 }
    requires part { part ≤ 2 ^ 65 }
    requires whole { whole ≤ 2 ^ 65 }
    ensures bound { result ≤ room }
    ensures exact { result ≡ nearest room part whole }
{
    if whole == 0 {
        return room;
    }
    let part = part.min(whole);
    ((u128::from(room) * part * 2 + whole) / (whole * 2)) as u64
}
