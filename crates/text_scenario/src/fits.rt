//! Compares a message to a train with the one that is expected.

ghost use Rattle.std.specs.Prelude.{◌≡◌, ◌<◌};
ghost use Rattle.rbc_msgs.specs.Bodies.{track_body};
ghost use Rattle.rbc_msgs.specs.TrackSpelling.{track_number};
ghost use Rattle.text_scenario.specs.Meets.{ends_at, fits, is_or_any, point_of};

use crate::expectation::Message;
use rbc_line::Line;
use rbc_msgs::{TrackBody, TrackMsg};

/// Whether a message to a train is the expected one.
pub fn fits(line: &Line, message: Message, sent: &TrackMsg) -> bool
    ensures { result ≡ fits line.now message sent.now }
{
    match (message, sent.body()) {
        (Message::Numbered(number), body) => number == number_of(body),
        (Message::Authority(end), TrackBody::Authority(authority)) => {
            ends_at(line, sent.nid_lrbg(), authority.l_endsection.value(), end)
        }
        (Message::ShorteningRequest(end), TrackBody::ShorteningRequest(authority)) => {
            ends_at(line, sent.nid_lrbg(), authority.l_endsection.value(), end)
        }
        (Message::DataAcknowledged(time), TrackBody::DataAcknowledged(stamp)) => {
            is_or_any(time, stamp.value())
        }
        (Message::Transition { nid_rbc, border }, TrackBody::Transition(order)) => {
            is_or_any(nid_rbc, order.nid_rbc.value())
                && ends_at(line, sent.nid_lrbg(), order.d_rbctr.value(), border)
        }
        (Message::EndSession, TrackBody::EndSession(_)) => true,
        (Message::SystemVersion, TrackBody::SystemVersion) => true,
        (Message::TerminationAcknowledged, TrackBody::TerminationAcknowledged) => true,
        (Message::TrainRejected, TrackBody::TrainRejected) => true,
        (Message::TrainAccepted, TrackBody::TrainAccepted) => true,
        _ => false,
    }
}

// Whether a number is the expected one, if one is.
fn is_or_any(wanted: Option<u32>, number: u64) -> bool
    ensures { result ≡ is_or_any wanted number }
{
    match wanted {
        Some(wanted) => u64::from(wanted) == number,
        None => true,
    }
}

// Whether the point this far past a balise group is the expected one, if one is.
fn ends_at(line: &Line, nid_lrbg: u32, metres: u64, point: Option<u32>) -> bool
    requires { metres < 32768 }
    ensures { result ≡ ends_at line.now nid_lrbg metres point }
{
    match point {
        Some(point) => point_at(line, nid_lrbg, metres) == Some(u64::from(point)),
        None => true,
    }
}

// The point this far past a balise group, in metres of the track.
fn point_at(line: &Line, nid_lrbg: u32, metres: u64) -> Option<u64>
    requires { metres < 32768 }
    ensures { result ≡ point_of line.now nid_lrbg metres }
{
    let section = line.section(line.section_of_group(nid_lrbg)?)?;
    Some(u64::from(section.start) + metres)
}

// NID_MESSAGE.
fn number_of(body: TrackBody) -> u32
    ensures { result ≡ track_number (track_body body) }
{
    match body {
        TrackBody::Authority(_) => 3,
        TrackBody::DataAcknowledged(_) => 8,
        TrackBody::ShorteningRequest(_) => 9,
        TrackBody::Transition(_) | TrackBody::EndSession(_) => 24,
        TrackBody::SystemVersion => 32,
        TrackBody::TerminationAcknowledged => 39,
        TrackBody::TrainRejected => 40,
        TrackBody::TrainAccepted => 41,
    }
}
