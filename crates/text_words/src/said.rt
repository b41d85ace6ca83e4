//! Puts a message into one phrase: its number, its name, and its place on the line.

ghost use Rattle.std.specs.Fmt.{decimal};
ghost use Rattle.std.specs.Prelude.{◌++◌, ◌≡◌, codes, IfOk, option_map, string_bytes};
ghost use Rattle.text_words.specs.Reports.{reported};
ghost use Rattle.text_words.specs.Said.{order_words, point_words, track_words};

use crate::names::{name_of_number, number_of_track, number_of_train};
use crate::places::{place_in_words, point_in_words};
use rbc_line::Line;
use rbc_msgs::{TrackBody, TrackMsg, TrainBody};
use rbc_packets::{Authority, Position, SessionOrder, Transition};
use std::alloc::{AllocError, Global};

/// Puts a message of a train into words.
pub fn train_in_words(alloc: Global, line: &Line, body: &TrainBody) -> Result<String, AllocError> {
    let number = number_of_train(body);
    let name = name_of_number(number);
    match position_of(body) {
        Some(position) => {
            let place = place_in_words(alloc, line, position)?;
            format!(in alloc; "{number} {name}, {place}")
        }
        None => format!(in alloc; "{number} {name}"),
    }
}

/// The position that a train reports.
fn position_of(body: &TrainBody) -> Option<&Position>
    ensures { option_map (λ position. position.now) result ≡ reported body.now }
{
    match body {
        TrainBody::TrainData { position, .. }
        | TrainBody::Request { position, .. }
        | TrainBody::Report { position }
        | TrainBody::ShorteningGranted { position, .. }
        | TrainBody::ShorteningRejected { position, .. }
        | TrainBody::EndOfMission { position }
        | TrainBody::StartOfMission { position, .. } => Some(position),
        TrainBody::InitiationOfSession
        | TrainBody::TerminationOfSession
        | TrainBody::SessionEstablished => None,
    }
}

/// Puts a message of a centre into words.
pub fn track_in_words(alloc: Global, line: &Line, message: &TrackMsg) -> Result<String, AllocError>
    ensures { IfOk result (λ text. string_bytes text ≡ track_words line.now message.now) }
{
    let number = number_of_track(message.body());
    let name = name_of_number(number);
    match order_in_words(alloc, line, message)? {
        Some(order) => format!(in alloc; "{number} {name}, {order}"),
        None => format!(in alloc; "{number} {name}"),
    }
}

/// The text after the number and the name, if there is any.
fn order_in_words(
    alloc: Global,
    line: &Line,
    message: &TrackMsg,
) -> Result<Option<String>, AllocError>
    ensures { IfOk result (λ order. option_map string_bytes order
        ≡ order_words line.now message.now.nid_lrbg message.now.body) }
{
    let nid_lrbg = message.nid_lrbg();
    match message.body() {
        TrackBody::Authority(end) => Ok(Some(authority_in_words(alloc, line, nid_lrbg, end)?)),
        TrackBody::ShorteningRequest(end) => {
            Ok(Some(authority_in_words(alloc, line, nid_lrbg, end)?))
        }
        TrackBody::Transition(transition) => {
            Ok(Some(transition_in_words(alloc, line, nid_lrbg, transition)?))
        }
        TrackBody::EndSession(order) => Ok(Some(end_in_words(alloc, order)?)),
        TrackBody::DataAcknowledged(_)
        | TrackBody::SystemVersion
        | TrackBody::TerminationAcknowledged
        | TrackBody::TrainRejected
        | TrackBody::TrainAccepted => Ok(None),
    }
}

fn authority_in_words(
    alloc: Global,
    line: &Line,
    nid_lrbg: u32,
    authority: Authority,
) -> Result<String, AllocError>
    ensures { IfOk result (λ text. string_bytes text
        ≡ codes "to " ++ point_words line.now nid_lrbg authority.l_endsection) }
{
    let end = point_in_words(alloc, line, nid_lrbg, authority.l_endsection.value())?;
    format!(in alloc; "to {end}")
}

fn end_in_words(alloc: Global, order: SessionOrder) -> Result<String, AllocError>
    ensures { IfOk result (λ text. string_bytes text
        ≡ codes "the session with NID_RBC " ++ (decimal order.nid_rbc ++ codes " ends")) }
{
    let nid_rbc = order.nid_rbc.value();
    format!(in alloc; "the session with NID_RBC {nid_rbc} ends")
}

fn transition_in_words(
    alloc: Global,
    line: &Line,
    nid_lrbg: u32,
    transition: Transition,
) -> Result<String, AllocError>
    ensures { IfOk result (λ text. string_bytes text ≡ codes "to NID_RBC " ++ (decimal transition.nid_rbc
        ++ (codes " at " ++ point_words line.now nid_lrbg transition.d_rbctr))) }
{
    let nid_rbc = transition.nid_rbc.value();
    let border = point_in_words(alloc, line, nid_lrbg, transition.d_rbctr.value())?;
    format!(in alloc; "to NID_RBC {nid_rbc} at {border}")
}
