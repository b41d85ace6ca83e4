ghost use Rattle.std.specs.Prelude.{◌≡◌, ◌+◌, ◌*◌, ◌^◌, ◌<◌, ◌≤◌, pos, ◌-ℤ◌, IfSome, option_map};
ghost use Rattle.rbc_spec.specs.Place as spec;
ghost use Rattle.rbc_msgs.specs.StepMessage as message;
ghost use Rattle.rbc_msgs.specs.StepMessage.{position_of, decimetres, confirmed_length};
ghost use Rattle.rbc_place.specs.Places.{place_of, place_from};

use crate::place::Place;
use rbc_line::{Line, Section};
use rbc_packets::{Level, Position, TrainLength};
use rbc_vars::{Direction, QScale};

// A distance or a doubt of this value is unknown.
const UNKNOWN: u64 = 32_767;

/// The place of a report. `None` if its balise group is not of the line, or if a distance is unknown. `None` also if
/// the train does not run in level 2 in the direction of the line.
#[inline(always)]
#[tactic(auto, unfolding(rbc_spec::specs::Place::extent))]
pub fn extent(line: &Line, position: &Position) -> Option<Place>
    ensures value { option_map place_of result ≡ spec.extent line.now (position_of position.now) }
    // NID_LRBG has 24 bits.
    ensures group { IfSome result (λ p. p.group < 2 ^ 24) }
{
    if !has_place(position) {
        return None;
    }
    let s = line.section_of_group(position.location.nid_lrbg.value() as u32)?;
    let section = line.section(s)?;
    Some(place_ahead(section, position))
}

/// The place of a report, if it is on this track.
#[inline(always)]
pub fn place_on(line: &Line, track: u8, position: &Position) -> Option<Place>
    ensures value { option_map place_of result ≡ spec.place_on line.now track (position_of position.now) }
    // NID_LRBG has 24 bits.
    ensures group { IfSome result (λ p. p.group < 2 ^ 24) }
{
    let place = extent(line, position)?;
    if place.is_on_track(track) {
        Some(place)
    } else {
        None
    }
}

/// Whether a report gives a place, if its group is of the line.
#[inline(always)]
fn has_place(position: &Position) -> bool
    ensures { result ≡ spec.has_place (position_of position.now) }
{
    let location = &position.location;
    is_nominal(location.q_dirlrbg)
        && is_nominal(location.q_dlrbg)
        && matches!(position.level, Level::Level2)
        && location.d_lrbg.value() < UNKNOWN
        && location.l_doubtover.value() < UNKNOWN
        && location.l_doubtunder.value() < UNKNOWN
}

#[inline(always)]
fn is_nominal(direction: Direction) -> bool
    ensures { result ≡ message.is_nominal direction }
{
    matches!(direction, Direction::Nominal)
}

/// The unit of a report's distances, in decimetres.
#[inline(always)]
fn unit(scale: QScale) -> u32
    ensures value { result ≡ decimetres scale }
    ensures bound { result ≤ 100 }
{
    match scale {
        QScale::Decimetre => 1,
        QScale::Metre => 10,
        QScale::Decametre => 100,
    }
}

/// The length of a train whose integrity is confirmed, in metres.
#[inline(always)]
fn confirmed_metres(length: TrainLength) -> Option<u32>
    ensures value { result ≡ confirmed_length length }
    ensures bound { IfSome result (λ l. l < 32768) }
{
    match length {
        TrainLength::ConfirmedByDevice(l) | TrainLength::ConfirmedByDriver(l) => {
            Some(l.value() as u32)
        }
        TrainLength::NoInformation | TrainLength::Lost => None,
    }
}

/// The place of a train in advance of a group at the start of a section.
#[inline(always)]
fn place_ahead(section: Section, position: &Position) -> Place
    requires { section.start + section.metres ≤ 1024000 }
    ensures value { place_of result ≡ place_from section.track section.start (position_of position.now) }
    ensures group { result.group < 2 ^ 24 }
{
    let location = &position.location;
    let unit = unit(location.q_scale);
    let front = 10 * section.start + unit * location.d_lrbg.value() as u32;
    Place {
        track: section.track,
        group: location.nid_lrbg.value() as u32,
        front: front + unit * location.l_doubtunder.value() as u32,
        rear: rear_end(
            front,
            unit * location.l_doubtover.value() as u32,
            position.train_length,
        ),
    }
}

/// The safe rear end of a train with this estimated front end, and with this over-reading amount.
#[inline(always)]
fn rear_end(front: u32, doubt: u32, length: TrainLength) -> Option<i32>
    requires front { front ≤ 20000000 }
    requires doubt { doubt ≤ 4000000 }
    ensures { result ≡ option_map (λ l. pos front -ℤ pos (doubt + 10 * l)) (confirmed_length length) }
{
    let metres = confirmed_metres(length)?;
    Some(front as i32 - (doubt + 10 * metres) as i32)
}
