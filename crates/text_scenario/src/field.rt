//! Reads the fields of a train's message.

ghost use Rattle.std.specs.Prelude.{◌%◌, ◌*◌, ◌+◌, ◌≡◌};
ghost use Rattle.text_scenario.specs.Levels.{level_of};

use crate::kind::Kind;
use crate::row_fault::RowFault;
use crate::sending::Draft;
use crate::words::{Words, number_in};
use rbc_packets::{Level, TrainLength};
use rbc_vars::{
    Direction, LTrainint, MMode, NidLrbg, NidNtc, QMarqstreason, QScale, QStatus, VTrain,
};

/// A field that a line can name.
#[derive(Clone, Copy)]
pub enum Field {
    At,
    Length,
    Accuracy,
    Speed,
    Mode,
    Level,
    Time,
    Reason,
    Status,
    Scale,
    Facing,
    Side,
    Moving,
    Country,
    Data,
}

pub static FIELDS: [(&str, Field); 15] = [
    ("at", Field::At),
    ("length", Field::Length),
    ("accuracy", Field::Accuracy),
    ("speed", Field::Speed),
    ("mode", Field::Mode),
    ("level", Field::Level),
    ("time", Field::Time),
    ("reason", Field::Reason),
    ("status", Field::Status),
    ("scale", Field::Scale),
    ("facing", Field::Facing),
    ("side", Field::Side),
    ("moving", Field::Moving),
    ("country", Field::Country),
    ("data", Field::Data),
];

static SCALES: [(&str, QScale); 3] = [
    ("10 cm", QScale::Decimetre),
    ("1 m", QScale::Metre),
    ("10 m", QScale::Decametre),
];

static DIRECTIONS: [(&str, Direction); 4] = [
    ("nominal", Direction::Nominal),
    ("reverse", Direction::Reverse),
    ("unknown", Direction::Unknown),
    ("spare", Direction::Spare),
];

static STATUSES: [(&str, QStatus); 3] = [
    ("valid", QStatus::Valid),
    ("invalid", QStatus::Invalid),
    ("unknown", QStatus::Unknown),
];

/// A level without a national system.
#[derive(Clone, Copy)]
enum Plain {
    Level0,
    Level1,
    Level2,
    Level3,
    Spare5,
    Spare6,
    Spare7,
}

static LEVELS: [(&str, Plain); 7] = [
    ("0", Plain::Level0),
    ("1", Plain::Level1),
    ("2", Plain::Level2),
    ("3", Plain::Level3),
    ("spare 5", Plain::Spare5),
    ("spare 6", Plain::Spare6),
    ("spare 7", Plain::Spare7),
];

/// Reads the value of a field into the draft.
pub fn read_field<'a>(
    words: &mut Words<'_, 'a>,
    field: Field,
    draft: &mut Draft,
) -> Result<(), RowFault<'a>> {
    match field {
        Field::At => read_position(words, draft),
        Field::Length => read_length(words, draft),
        Field::Accuracy => read_accuracy(words, draft),
        Field::Speed => read_speed(words, draft),
        Field::Mode => read_mode(words, draft),
        Field::Level => read_level(words, draft),
        Field::Time => read_time(words, draft),
        Field::Reason => read_reason(words, draft),
        Field::Status => read_status(words, draft),
        Field::Scale => read_scale(words, draft),
        Field::Facing => read_direction(words, &mut draft.report.q_dirlrbg),
        Field::Side => read_direction(words, &mut draft.report.q_dlrbg),
        Field::Moving => read_direction(words, &mut draft.report.q_dirtrain),
        Field::Country => read_country(words, draft),
        Field::Data => read_data(words, draft),
    }
}

fn read_time<'a>(words: &mut Words<'_, 'a>, draft: &mut Draft) -> Result<(), RowFault<'a>> {
    draft.t_train = Some(words.number(u32::MAX, "T_TRAIN")?);
    Ok(())
}

fn read_scale<'a>(words: &mut Words<'_, 'a>, draft: &mut Draft) -> Result<(), RowFault<'a>> {
    draft.report.q_scale = words.one_of("a scale", &SCALES)?;
    Ok(())
}

// The form of a position.
const PLACE: &str = "a position, as `101+600 m`: a balise group up to 16383, and metres from it";

// Reads `101+600 m`: a balise group of the line's country, and the distance from it.
fn read_position<'a>(words: &mut Words<'_, 'a>, draft: &mut Draft) -> Result<(), RowFault<'a>> {
    let word = words.word(PLACE)?;
    let Some((group, distance, side)) = place_in(word) else {
        return Err(RowFault::Value(word, PLACE));
    };
    words.takes("m");
    draft.report.nid_lrbg = group_of(words.line.nid_c(), group % 16_384);
    draft.report.distance = distance;
    draft.report.q_dlrbg = side;
    draft.has_position = true;
    Ok(())
}

// The balise group, the decimetres from it, and their side.
fn place_in(word: &str) -> Option<(u32, u32, Direction)> {
    let ((group, metres), side) = match word.split_once('+') {
        Some(parts) => (parts, Direction::Nominal),
        None => (word.split_once('-')?, Direction::Reverse),
    };
    let group = number_in(group)?;
    let distance = decimetres_in(metres)?;
    if group > 16_383 {
        return None;
    }
    Some((group, distance, side))
}

// NID_LRBG of a balise group.
fn group_of(nid_c: u16, nid_bg: u32) -> NidLrbg
    ensures { result ≡ nid_c % 1024 * 16384 + nid_bg % 16384 }
{
    let nid_lrbg = u64::from(nid_c % 1024) * 16_384 + u64::from(nid_bg % 16_384);
    NidLrbg::new(nid_lrbg)
}

// Reads the country of the balise group.
fn read_country<'a>(words: &mut Words<'_, 'a>, draft: &mut Draft) -> Result<(), RowFault<'a>> {
    let nid_c = words.number(1023, "a country up to 1023")?;
    let nid_bg = draft.report.nid_lrbg.value() % 16_384;
    draft.report.nid_lrbg = group_of((nid_c % 1024) as u16, nid_bg as u32);
    Ok(())
}

// The decimetres of metres, with a tenth or without.
fn decimetres_in(word: &str) -> Option<u32> {
    let (metres, tenth) = match word.split_once('.') {
        Some((metres, tenth)) => (number_in(metres)?, number_in(tenth)?),
        None => (number_in(word)?, 0),
    };
    if tenth > 9 {
        return None;
    }
    metres.checked_mul(10)?.checked_add(tenth)
}

// Reads `200 m`, `200 m by driver`, `unknown` or `lost`.
fn read_length<'a>(words: &mut Words<'_, 'a>, draft: &mut Draft) -> Result<(), RowFault<'a>> {
    if words.takes("unknown") {
        draft.report.train_length = TrainLength::NoInformation;
        return Ok(());
    }
    if words.takes("lost") {
        draft.report.train_length = TrainLength::Lost;
        return Ok(());
    }
    let metres = words.number(
        32_767,
        "a length in metres up to 32767, `unknown` or `lost`",
    )?;
    words.takes("m");
    let metres = LTrainint::new(u64::from(metres % 32_768));
    draft.report.train_length = if words.takes("by driver") {
        TrainLength::ConfirmedByDriver(metres)
    } else {
        TrainLength::ConfirmedByDevice(metres)
    };
    Ok(())
}

const REAR: &str = "how far the train may be in rear, as `-10`";

const ADVANCE: &str = "how far the train may be in advance, as `+20`";

// Reads `-10 +20 m`.
fn read_accuracy<'a>(words: &mut Words<'_, 'a>, draft: &mut Draft) -> Result<(), RowFault<'a>> {
    draft.report.in_rear = read_doubt(words, '-', REAR)?;
    draft.report.in_advance = read_doubt(words, '+', ADVANCE)?;
    words.takes("m");
    Ok(())
}

fn read_doubt<'a>(
    words: &mut Words<'_, 'a>,
    sign: char,
    what: &'static str,
) -> Result<u32, RowFault<'a>> {
    let word = words.word(what)?;
    let Some(metres) = word.strip_prefix(sign) else {
        return Err(RowFault::Value(word, what));
    };
    decimetres_in(metres).ok_or(RowFault::Value(word, what))
}

const SPEED: &str = "a speed in km/h up to 635: a multiple of 5";

// Reads `100 km/h`.
fn read_speed<'a>(words: &mut Words<'_, 'a>, draft: &mut Draft) -> Result<(), RowFault<'a>> {
    let word = words.word(SPEED)?;
    let Some(speed) = number_in(word) else {
        return Err(RowFault::Value(word, SPEED));
    };
    if speed % 5 != 0 || speed > 635 {
        return Err(RowFault::Value(word, SPEED));
    }
    words.takes("km/h");
    draft.report.v_train = VTrain::new(u64::from(speed / 5 % 128));
    Ok(())
}

fn read_mode<'a>(words: &mut Words<'_, 'a>, draft: &mut Draft) -> Result<(), RowFault<'a>> {
    let mode = words.number(15, "a mode up to 15")?;
    draft.report.m_mode = MMode::new(u64::from(mode % 16));
    Ok(())
}

// Reads a level, or `ntc` with its NID_NTC.
fn read_level<'a>(words: &mut Words<'_, 'a>, draft: &mut Draft) -> Result<(), RowFault<'a>> {
    if words.takes("ntc") {
        let system = words.number(255, "a national system up to 255")?;
        draft.report.level = Level::Ntc(NidNtc::new(u64::from(system % 256)));
        return Ok(());
    }
    draft.report.level = level_of(words.one_of("a level", &LEVELS)?);
    Ok(())
}

fn level_of(plain: Plain) -> Level
    ensures { result ≡ level_of plain }
{
    match plain {
        Plain::Level0 => Level::Level0,
        Plain::Level1 => Level::Level1,
        Plain::Level2 => Level::Level2,
        Plain::Level3 => Level::Level3,
        Plain::Spare5 => Level::Spare5,
        Plain::Spare6 => Level::Spare6,
        Plain::Spare7 => Level::Spare7,
    }
}

fn read_direction<'a>(
    words: &mut Words<'_, 'a>,
    direction: &mut Direction,
) -> Result<(), RowFault<'a>> {
    *direction = words.one_of("a direction", &DIRECTIONS)?;
    Ok(())
}

fn read_reason<'a>(words: &mut Words<'_, 'a>, draft: &mut Draft) -> Result<(), RowFault<'a>> {
    let Kind::Request(_) = draft.kind else {
        return Err(RowFault::Further("reason"));
    };
    let reason = words.number(31, "a reason up to 31")?;
    draft.kind = Kind::Request(QMarqstreason::new(u64::from(reason % 32)));
    Ok(())
}

fn read_status<'a>(words: &mut Words<'_, 'a>, draft: &mut Draft) -> Result<(), RowFault<'a>> {
    let Kind::StartOfMission(_) = draft.kind else {
        return Err(RowFault::Further("status"));
    };
    draft.kind = Kind::StartOfMission(words.one_of("a status", &STATUSES)?);
    Ok(())
}

const DATA: &str = "the content of packet 11 in hexadecimal, two digits a byte";

fn read_data<'a>(words: &mut Words<'_, 'a>, draft: &mut Draft) -> Result<(), RowFault<'a>> {
    let word = words.word(DATA)?;
    match draft.kind {
        Kind::TrainData => {}
        _ => return Err(RowFault::Further("data")),
    }
    match hex::decode(words.alloc, word) {
        Ok(bytes) => {
            draft.content = bytes;
            Ok(())
        }
        Err(hex::FromHexError::OutOfMemory) => Err(RowFault::Memory),
        Err(_) => Err(RowFault::Value(word, DATA)),
    }
}
