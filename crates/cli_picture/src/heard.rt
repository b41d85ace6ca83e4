//! Describes an event, with the messages of trains in it and the messages to trains.

ghost use Rattle.std.specs.Prelude.{◌≡◌, false, IfErr, IfOk, IfSome, None, option_and_then, option_map, Some, true};
ghost use Rattle.cli_picture.specs.Looks.{is_message, is_silent, order_of, reported};
ghost use Rattle.cli_picture.specs.declared.run.Kind.TheVariants.{Message, NoMessage};
ghost use Rattle.rbc_msgs.specs.TrainReading.{read_train};
ghost use Rattle.rbc_msgs.specs.StepMessage.{position_of};
ghost use Rattle.rbc_msgs.specs.TrainSpelling.{train_number};
ghost use Rattle.rbc_place.specs.Places.{place_of};
ghost use Rattle.rbc_spec.specs.Line.{train_number as train_number_of};
ghost use Rattle.rbc_spec.specs.Place.{extent};

use crate::run::{Border, Event, Kind, Report, track_of};
use rbc_line::Line;
use rbc_msgs::{MsgFault, TrackBody, TrainBody, TrainMsg, decode_train};
use rbc_packets::Position;
use rbc_place::{extent, section_start};
use std::alloc::{AllocError, Global};
use text_script::{Answer, Outcome, Saying, WorldEvent};
use text_words::number_of_train;

/// Describes an event of a run by its answer.
pub fn event_of(
    alloc: Global,
    line: &Line,
    event: &WorldEvent,
    answer: &Answer,
) -> Result<Event, AllocError>
    ensures silent { IfOk result (λ e. e.is_silent ≡ is_silent answer.now) }
    ensures report { is_silent answer.now ≡ true → IfOk result (λ e. e.report ≡ None) }
    ensures order { is_message event.now ≡ false → IfOk result (λ e. e.kind ≡ order_of event.now) }
{
    let (kind, report) = kind_of(alloc, line, event)?;
    let is_silent = is_silent(answer);
    Ok(Event {
        kind,
        is_silent,
        report: if is_silent { None } else { report },
        border: border_in(line, answer),
    })
}

fn kind_of(
    alloc: Global,
    line: &Line,
    event: &WorldEvent,
) -> Result<(Kind, Option<Report>), AllocError>
    ensures { is_message event.now ≡ false → IfOk result (λ heard. heard ≡ (order_of event.now, None)) }
{
    match event {
        WorldEvent::Train { bytes, .. } => heard_in(alloc, line, bytes),
        other => Ok((kind_of_other(other), None)),
    }
}

// The kind of an order of the interlocking, or of a frame.
fn kind_of_other(event: &WorldEvent) -> Kind
    ensures { result ≡ order_of event.now }
{
    match event {
        WorldEvent::Train { .. } => Kind::NoMessage,
        WorldEvent::Set { centre, section } => Kind::Set {
            centre: *centre,
            section: *section,
        },
        WorldEvent::Unset { centre, section } => Kind::Unset {
            centre: *centre,
            section: *section,
        },
        WorldEvent::Deliver { from, to, number } => Kind::Delivery {
            from: *from,
            to: *to,
            number: *number,
        },
    }
}

fn heard_in(alloc: Global, line: &Line, bytes: &[u8]) -> Result<(Kind, Option<Report>), AllocError>
    ensures message { IfOk result (λ heard. IfOk (read_train bytes.now)
        (λ m. heard.0 ≡ Message (train_number m.body) m.nid_engine)) }
    ensures other { IfOk result (λ heard. IfErr (read_train bytes.now) (λ _. heard ≡ (NoMessage, None))) }
{
    match decode_train(alloc, bytes) {
        Ok(message) => Ok((kind_of_message(&message), report_in(line, &message))),
        Err(MsgFault::Memory) => Err(AllocError),
        Err(_) => Ok((Kind::NoMessage, None)),
    }
}

fn kind_of_message(message: &TrainMsg) -> Kind
    ensures { result ≡ Message (train_number message.now.body) message.now.nid_engine }
{
    Kind::Message {
        number: number_of_train(message.body()),
        nid_engine: message.nid_engine(),
    }
}

fn report_in(line: &Line, message: &TrainMsg) -> Option<Report>
    ensures train { IfSome result (λ report. train_number_of line.now message.now.nid_engine ≡ Some report.train) }
    ensures place { IfSome result (λ report. Some (place_of report.place)
        ≡ option_and_then (λ p. extent line.now (position_of p)) (reported message.now.body)) }
{
    let train = line.train_number(message.nid_engine())?;
    let place = extent(line, position_in(message.body())?)?;
    Some(Report { train, place })
}

// The place that a train reports. A start of mission counts by the line's state, since it may be rejected.
fn position_in(body: &TrainBody) -> Option<&Position>
    ensures { option_map (λ position. position.now) result ≡ reported body.now }
{
    match body {
        TrainBody::TrainData { position, .. }
        | TrainBody::Request { position, .. }
        | TrainBody::Report { position }
        | TrainBody::EndOfMission { position }
        | TrainBody::ShorteningGranted { position, .. }
        | TrainBody::ShorteningRejected { position, .. } => Some(position),
        TrainBody::StartOfMission { .. }
        | TrainBody::InitiationOfSession
        | TrainBody::TerminationOfSession
        | TrainBody::SessionEstablished => None,
    }
}

fn is_silent(answer: &Answer) -> bool
    ensures { result ≡ is_silent answer.now }
{
    match answer {
        Answer::Outcome(outcome) => outcome.silence.is_some(),
        Answer::NoCentre | Answer::NotSent | Answer::Fault(_) => true,
    }
}

fn border_in(line: &Line, answer: &Answer) -> Option<Border> {
    match answer {
        Answer::Outcome(outcome) => border_told(line, outcome),
        _ => None,
    }
}

fn border_told(line: &Line, outcome: &Outcome) -> Option<Border> {
    let mut border = None;
    for saying in outcome.sayings.as_slice() {
        border = border.or(border_of(line, saying));
    }
    border
}

// The border that a message names, past the balise group in its header.
fn border_of(line: &Line, saying: &Saying) -> Option<Border> {
    let TrackBody::Transition(order) = saying.message.body() else {
        return None;
    };
    let group = line.section_of_group(saying.message.nid_lrbg())?;
    let metres = u32::try_from(order.d_rbctr.value()).unwrap_or(0);
    Some(Border {
        train: line.train_number(saying.nid_engine)?,
        track: track_of(line, group),
        metres: section_start(line, group).saturating_add(metres),
    })
}
