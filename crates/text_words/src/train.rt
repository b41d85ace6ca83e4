//! A message of a train, field by field.

ghost use Rattle.std.specs.Prelude.{◌≡◌, ◌∷◌, [], OnOk, codes};
ghost use Rattle.rbc_vars.specs.Values.{q_status_value};
ghost use Rattle.text_words.specs.Fields.{Adds, meant};
ghost use Rattle.text_words.specs.Meanings.{statuses};
ghost use Rattle.text_words.specs.Variables.{reasons_given, request_time};

use crate::field::Meaning;
use crate::fields::Fields;
use crate::position::add_position;
use crate::track::is_unknown_time;
use rbc_msgs::{TrainBody, TrainMsg};
use rbc_packets::Opaque;
use rbc_vars::QStatus;
use std::alloc::AllocError;

// A packet has at most 8 170 bits after its header.
const MOST_LINES: u32 = 256;

/// Adds the fields after NID_MESSAGE and L_MESSAGE.
pub fn add_train(fields: &mut Fields, message: &TrainMsg) -> Result<(), AllocError> {
    let meaning = Meaning::Count {
        count: 10 * u64::from(message.t_train()),
        unit: "ms on board",
    };
    fields.add("T_TRAIN", message.t_train().into(), meaning)?;
    fields.number("NID_ENGINE", message.nid_engine().into())?;
    add_body(fields, message.body())?;
    for packet in message.further() {
        add_packet(fields, packet)?;
    }
    Ok(())
}

fn add_body(fields: &mut Fields, body: &TrainBody) -> Result<(), AllocError> {
    match body {
        TrainBody::TrainData { position, packet } => {
            add_position(fields, position)?;
            add_packet(fields, packet)
        }
        TrainBody::Request {
            q_marqstreason,
            position,
        } => {
            add_reason(fields, q_marqstreason.value())?;
            add_position(fields, position)
        }
        TrainBody::Report { position } | TrainBody::EndOfMission { position } => {
            add_position(fields, position)
        }
        TrainBody::ShorteningGranted { request, position }
        | TrainBody::ShorteningRejected { request, position } => {
            add_request(fields, request.value())?;
            add_position(fields, position)
        }
        TrainBody::StartOfMission { q_status, position } => {
            add_status(fields, *q_status)?;
            add_position(fields, position)
        }
        TrainBody::InitiationOfSession
        | TrainBody::TerminationOfSession
        | TrainBody::SessionEstablished => Ok(()),
    }
}

// Adds the reasons of a request for an authority: one bit for each reason.
fn add_reason(fields: &mut Fields, value: u64) -> Result<(), AllocError>
    ensures { OnOk result (Adds fields.old fields.new (reasons_given value ∷ [])) }
{
    fields.add("Q_MARQSTREASON", value, Meaning::Bits(5))
}

// Adds T_TRAIN of the request that is answered.
fn add_request(fields: &mut Fields, value: u64) -> Result<(), AllocError>
    ensures { OnOk result (Adds fields.old fields.new (request_time value ∷ [])) }
{
    if is_unknown_time(value) {
        return fields.words("T_TRAIN", value, "unknown");
    }
    fields.words("T_TRAIN", value, "of the request")
}

fn add_status(fields: &mut Fields, status: QStatus) -> Result<(), AllocError>
    ensures { OnOk result (Adds fields.old fields.new
        (meant (codes "Q_STATUS") (q_status_value status) (statuses status) ∷ [])) }
{
    fields.words("Q_STATUS", status.value(), words_of_status(status))
}

fn words_of_status(status: QStatus) -> &'static str
    ensures { result.now ≡ statuses status }
{
    match status {
        QStatus::Invalid => "position invalid",
        QStatus::Valid => "position valid",
        QStatus::Unknown => "position unknown",
    }
}

/// Adds a packet that is kept without being read: its bits, up to 32 on each line.
fn add_packet(fields: &mut Fields, packet: &Opaque) -> Result<(), AllocError> {
    let words = match packet.nid_packet() {
        11 => "validated train data, not read",
        _ => "not read",
    };
    fields.packet(packet.nid_packet().into(), words)?;
    let mut bits = packet.bits();
    fields.bits_of_packet(21 + u64::from(bits.remaining()))?;
    for _ in 0..MOST_LINES {
        let count = bits.remaining().min(32);
        match bits.take(count) {
            Ok(value) if count > 0 => fields.add("bits", value, Meaning::Bits(count))?,
            _ => return Ok(()),
        }
    }
    Ok(())
}
