//! A message of a centre, field by field.

ghost use Rattle.std.specs.Prelude.{◌<◌, ◌^◌, ◌≡◌, ◌∷◌, [], OnOk};
ghost use Rattle.text_words.specs.Fields.{Adds};
ghost use Rattle.text_words.specs.Variables.{data_time, is_unknown_time};

use crate::field::Meaning;
use crate::fields::Fields;
use rbc_msgs::{TrackBody, TrackMsg};
use rbc_packets::{Authority, SessionOrder, Transition};
use std::alloc::AllocError;

/// The value of T_TRAIN that is unknown.
const UNKNOWN_TIME: u64 = 4_294_967_295;

/// Whether T_TRAIN is unknown.
pub fn is_unknown_time(value: u64) -> bool
    ensures { result ≡ is_unknown_time value }
{
    value == UNKNOWN_TIME
}

/// Adds the fields after NID_MESSAGE and L_MESSAGE.
pub fn add_track(fields: &mut Fields, message: &TrackMsg) -> Result<(), AllocError> {
    let count = u64::from(message.t_train());
    fields.words(
        "T_TRAIN",
        count,
        "count of the centre's messages to the train",
    )?;
    fields.words("M_ACK", 0, "no acknowledgement")?;
    fields.group(message.nid_lrbg().into())?;
    match message.body() {
        TrackBody::Authority(authority) | TrackBody::ShorteningRequest(authority) => {
            add_authority(fields, authority)
        }
        TrackBody::DataAcknowledged(t_train) => add_time_of_data(fields, t_train.value()),
        TrackBody::Transition(transition) => add_transition(fields, transition),
        TrackBody::EndSession(order) => add_order(fields, order),
        TrackBody::SystemVersion => fields.words("M_VERSION", 32, "version 2.0"),
        TrackBody::TerminationAcknowledged | TrackBody::TrainRejected | TrackBody::TrainAccepted =>
            Ok(()),
    }
}

// Adds T_TRAIN of the acknowledged train data.
fn add_time_of_data(fields: &mut Fields, value: u64) -> Result<(), AllocError>
    requires { value < 2 ^ 32 }
    ensures { OnOk result (Adds fields.old fields.new (data_time value ∷ [])) }
{
    if is_unknown_time(value) {
        return fields.words("T_TRAIN", value, "unknown");
    }
    let meaning = Meaning::Count {
        count: 10 * value,
        unit: "ms on board, of the train data",
    };
    fields.add("T_TRAIN", value, meaning)
}

// Adds the header of a packet.
fn add_packet(
    fields: &mut Fields,
    number: u64,
    words: &'static str,
    bits: u64,
) -> Result<(), AllocError> {
    fields.packet(number, words)?;
    fields.words("Q_DIR", 1, "nominal")?;
    fields.bits_of_packet(bits)
}

fn add_authority(fields: &mut Fields, authority: Authority) -> Result<(), AllocError> {
    let words = "Level 2/3 Movement Authority";
    add_packet(fields, Authority::NID_PACKET, words, Authority::L_PACKET)?;
    fields.words("Q_SCALE", 1, "unit 1 m")?;
    fields.number("END_SPEED", 0)?;
    fields.words("END_TIME", 1023, "no limit")?;
    fields.words("N_ITER", 0, "one section")?;
    fields.metres("L_ENDSECTION", authority.l_endsection.value())?;
    add_none(fields)
}

// Adds the optional parts that an authority may contain and does not.
fn add_none(fields: &mut Fields) -> Result<(), AllocError> {
    for name in &NONE {
        fields.words(*name, 0, "none")?;
    }
    Ok(())
}

static NONE: [&str; 4] = ["Q_SECTIONTIMER", "Q_ENDTIMER", "Q_DANGERPOINT", "Q_OVERLAP"];

fn add_transition(fields: &mut Fields, transition: Transition) -> Result<(), AllocError> {
    let words = "RBC transition order";
    add_packet(fields, Transition::NID_PACKET, words, Transition::L_PACKET)?;
    fields.words("Q_SCALE", 1, "unit 1 m")?;
    fields.metres("D_RBCTR", transition.d_rbctr.value())?;
    add_centre(fields, transition.nid_c.value(), transition.nid_rbc.value())
}

fn add_order(fields: &mut Fields, order: SessionOrder) -> Result<(), AllocError> {
    let words = "session management";
    let bits = SessionOrder::L_PACKET;
    add_packet(fields, SessionOrder::NID_PACKET, words, bits)?;
    fields.words("Q_RBC", 0, "terminate the session")?;
    add_centre(fields, order.nid_c.value(), order.nid_rbc.value())
}

// Adds the identity of a centre, without its number of the radio network.
fn add_centre(fields: &mut Fields, nid_c: u64, nid_rbc: u64) -> Result<(), AllocError> {
    fields.number("NID_C", nid_c)?;
    fields.number("NID_RBC", nid_rbc)?;
    fields.words("NID_RADIO", u64::MAX, "all ones")?;
    fields.number("Q_SLEEPSESSION", 0)
}
