//! Packet 0, position report, field by field.

ghost use Rattle.std.specs.Prelude.{◌≡◌, ◌∷◌, [], OnOk, unwrap_or};
ghost use Rattle.rbc_vars.specs.Values.{direction_value};
ghost use Rattle.text_words.specs.Fields.{Adds, meant};
ghost use Rattle.text_words.specs.Meanings.{directions, meaning_of, modes, scales};
ghost use Rattle.text_words.specs.Variables.{distance, speed};

use crate::field::Meaning;
use crate::fields::Fields;
use crate::meanings::{Meanings, meaning_of};
use rbc_packets::{Level, Location, Position, TrainLength};
use rbc_vars::{Direction, MMode, QScale};
use std::alloc::AllocError;

// The value of a distance or a doubt that is unknown.
const UNKNOWN: u64 = 32_767;

// V_TRAIN of 600 km/h. Greater values are spare.
const MOST_SPEED: u64 = 120;

pub fn add_position(fields: &mut Fields, position: &Position) -> Result<(), AllocError> {
    fields.packet(Position::NID_PACKET, "position report")?;
    fields.bits_of_packet(position.l_packet())?;
    add_location(fields, &position.location)?;
    add_length(fields, position.train_length)?;
    add_running(fields, position)?;
    add_level(fields, position.level)
}

fn add_location(fields: &mut Fields, location: &Location) -> Result<(), AllocError> {
    let scale = location.q_scale;
    fields.words("Q_SCALE", scale.value(), words_of_scale(scale))?;
    fields.group(location.nid_lrbg.value())?;
    add_distance(fields, "D_LRBG", location.d_lrbg.value(), scale)?;
    add_direction(fields, "Q_DIRLRBG", location.q_dirlrbg)?;
    add_direction(fields, "Q_DLRBG", location.q_dlrbg)?;
    add_doubts(fields, location)
}

fn add_doubts(fields: &mut Fields, location: &Location) -> Result<(), AllocError> {
    let scale = location.q_scale;
    add_distance(fields, "L_DOUBTOVER", location.l_doubtover.value(), scale)?;
    add_distance(fields, "L_DOUBTUNDER", location.l_doubtunder.value(), scale)
}

fn add_running(fields: &mut Fields, position: &Position) -> Result<(), AllocError> {
    add_speed(fields, position.v_train.value())?;
    add_direction(fields, "Q_DIRTRAIN", position.q_dirtrain)?;
    let mode = position.m_mode;
    fields.words("M_MODE", mode.value(), words_of_mode(mode))
}

/// Adds V_TRAIN, in steps of 5 km/h.
fn add_speed(fields: &mut Fields, value: u64) -> Result<(), AllocError>
    ensures { OnOk result (Adds fields.old fields.new (speed value ∷ [])) }
{
    if value > MOST_SPEED {
        return fields.words("V_TRAIN", value, "spare");
    }
    let meaning = Meaning::Count {
        count: 5 * value,
        unit: "km/h",
    };
    fields.add("V_TRAIN", value, meaning)
}

fn words_of_scale(scale: QScale) -> &'static str
    ensures { result.now ≡ scales scale }
{
    match scale {
        QScale::Decimetre => "unit 10 cm",
        QScale::Metre => "unit 1 m",
        QScale::Decametre => "unit 10 m",
    }
}

/// Adds a distance or a doubt, in the unit of Q_SCALE.
fn add_distance(
    fields: &mut Fields,
    name: &'static str,
    value: u64,
    scale: QScale,
) -> Result<(), AllocError>
    ensures { OnOk result (Adds fields.old fields.new (distance name.entry.now value scale ∷ [])) }
{
    if value == UNKNOWN {
        return fields.words(name, value, "unknown");
    }
    let meaning = match scale {
        QScale::Decimetre => Meaning::Decimetres(value),
        QScale::Metre => Meaning::Count {
            count: value,
            unit: "m",
        },
        QScale::Decametre => Meaning::Count {
            count: value.saturating_mul(10),
            unit: "m",
        },
    };
    fields.add(name, value, meaning)
}

fn add_direction(
    fields: &mut Fields,
    name: &'static str,
    direction: Direction,
) -> Result<(), AllocError>
    ensures { OnOk result (Adds fields.old fields.new
        (meant name.entry.now (direction_value direction) (directions direction) ∷ [])) }
{
    fields.words(name, direction.value(), words_of_direction(direction))
}

fn words_of_direction(direction: Direction) -> &'static str
    ensures { result.now ≡ directions direction }
{
    match direction {
        Direction::Reverse => "reverse",
        Direction::Nominal => "nominal",
        Direction::Unknown => "unknown",
        Direction::Spare => "spare",
    }
}

fn add_length(fields: &mut Fields, length: TrainLength) -> Result<(), AllocError> {
    match length {
        TrainLength::NoInformation => fields.words("Q_LENGTH", 0, "no information"),
        TrainLength::ConfirmedByDevice(l_trainint) => {
            fields.words("Q_LENGTH", 1, "confirmed by a device")?;
            fields.metres("L_TRAININT", l_trainint.value())
        }
        TrainLength::ConfirmedByDriver(l_trainint) => {
            fields.words("Q_LENGTH", 2, "confirmed by the driver")?;
            fields.metres("L_TRAININT", l_trainint.value())
        }
        TrainLength::Lost => fields.words("Q_LENGTH", 3, "integrity lost"),
    }
}

const MODES: Meanings = &[
    (0, "Full Supervision"),
    (1, "On Sight"),
    (2, "Staff Responsible"),
    (3, "Shunting"),
    (4, "Unfitted"),
    (5, "Sleeping"),
    (6, "Stand By"),
    (7, "Trip"),
    (8, "Post Trip"),
    (9, "System Failure"),
    (10, "Isolation"),
    (11, "Non Leading"),
    (12, "Limited Supervision"),
    (13, "National System"),
    (14, "Reversing"),
    (15, "Passive Shunting"),
];

// M_MODE has 4 bits: the table has each of its values.
fn words_of_mode(mode: MMode) -> &'static str
    ensures { result.now ≡ unwrap_or (meaning_of modes mode) [] }
{
    match meaning_of(MODES, mode.value()) {
        Some(words) => words,
        None => "",
    }
}

fn add_level(fields: &mut Fields, level: Level) -> Result<(), AllocError> {
    let (value, words) = match level {
        Level::Level0 => (0, "Level 0"),
        Level::Ntc(_) => (1, "Level NTC"),
        Level::Level1 => (2, "Level 1"),
        Level::Level2 => (3, "Level 2"),
        Level::Level3 => (4, "Level 3"),
        Level::Spare5 => (5, "spare"),
        Level::Spare6 => (6, "spare"),
        Level::Spare7 => (7, "spare"),
    };
    fields.words("M_LEVEL", value, words)?;
    match level {
        Level::Ntc(nid_ntc) => fields.number("NID_NTC", nid_ntc.value()),
        _ => Ok(()),
    }
}
