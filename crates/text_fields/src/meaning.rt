//! The meaning and the unit of a shown field.

ghost use Rattle.std.specs.Prelude.{◌≡◌, ◌==◌, ◌/◌, ◌%◌, [], codes, if◌then◌else◌};
ghost use Rattle.text_fields.specs.Senses.{length_by, length_unit, meaning_by, or_unknown, sense_of, signed_length};
ghost use Rattle.text_fields.specs.Senses.{speed_by, told, unit_by};

use crate::kind::{Kind, words_or};
use crate::messages::Side;
use crate::names::{name_of_message, name_of_packet};
use crate::shown::Shown;
use std::fmt;
use std::fmt::Formatter;

// The greatest values of fields of 15, 24 and 32 bits, which are unknown.
const UNKNOWN_DISTANCE: u64 = 32_767;

const UNKNOWN_GROUP: u64 = 16_777_215;

const UNKNOWN_TIME: u64 = 4_294_967_295;

// V_TRAIN of 600 km/h. Greater values are spare.
const MOST_SPEED: u64 = 120;

// The meaning of a value without words.
const REFUSED: &str = "a value that is refused";

/// The form of a meaning.
#[derive(Clone, Copy)]
pub(crate) enum MeaningForm {
    /// A value means no more than itself.
    Itself,
    /// Words.
    Words,
    /// A count, and the number of units of each. The words are the unit.
    Amount(u64, u64),
    /// Decimetres, below zero or not. They are shown in the unit that the words are.
    Decimetres(bool, u64),
    /// A balise group: NID_C and NID_BG.
    Group(u64, u64),
    /// A value, and the number of its lowest bits.
    Bits(u64, u32),
}

/// The meaning of a shown field: its form, and its words or its unit.
#[derive(Clone, Copy)]
pub(crate) struct Meaning {
    pub form: MeaningForm,
    pub words: &'static str,
}

/// The meaning of a field in a message of this sender.
pub(crate) fn meaning_of(side: Side, shown: Shown) -> Meaning
    ensures { told result ≡ meaning_by side shown.width shown.scale shown.value (sense_of shown.field.kind) }
{
    let value = shown.value;
    match shown.field.kind {
        Kind::Number => of_form(MeaningForm::Itself),
        Kind::Range(..) => of_form(MeaningForm::Itself),
        Kind::Message => in_words(name_of_message(value)),
        Kind::Packet => in_words(name_of_packet(side, value)),
        Kind::Count(unit) => amount(value, 1, unit),
        Kind::Words(words) => in_words(words_or(words, value, REFUSED)),
        Kind::Only(only, words) => in_words(words_of_only(only, words, value)),
        Kind::TrainTime => or_unknown(value == UNKNOWN_TIME, amount(value, 10, "ms on board")),
        Kind::CentreTime => or_unknown(value == UNKNOWN_TIME, in_words(CENTRE_TIME)),
        Kind::OtherTime => or_unknown(value == UNKNOWN_TIME, in_words(OTHER_TIME)),
        Kind::Group => or_unknown(value == UNKNOWN_GROUP, group(value)),
        Kind::Distance => or_unknown(value == UNKNOWN_DISTANCE, length(shown.scale, value)),
        Kind::Decimetres => signed_length(value),
        Kind::Speed => speed(value),
        Kind::Bits => of_form(MeaningForm::Bits(value, shown.width)),
        Kind::Filling => of_form(MeaningForm::Bits(value, shown.width)),
    }
}

const CENTRE_TIME: &str = "count of the centre's messages to the train";

const OTHER_TIME: &str = "of the message that it answers";

fn of_form(form: MeaningForm) -> Meaning
    ensures { told result ≡ (form, []) }
{
    Meaning { form, words: "" }
}

fn words_of_only(only: u64, words: &'static str, value: u64) -> &'static str
    ensures { result.now ≡ (if value == only then words.entry.now else codes "a value that is refused") }
{
    if value == only { words } else { REFUSED }
}

fn in_words(words: &'static str) -> Meaning
    ensures { told result ≡ (MeaningForm.Words, words.entry.now) }
{
    let form = MeaningForm::Words;
    Meaning { form, words }
}

fn amount(count: u64, each: u64, words: &'static str) -> Meaning
    ensures { told result ≡ (MeaningForm.Amount count each, words.entry.now) }
{
    let form = MeaningForm::Amount(count, each);
    Meaning { form, words }
}

fn or_unknown(is_unknown: bool, known: Meaning) -> Meaning
    ensures { told result ≡ or_unknown is_unknown (told known) }
{
    if is_unknown {
        in_words("unknown")
    } else {
        known
    }
}

fn group(value: u64) -> Meaning
    ensures { told result ≡ (MeaningForm.Group (value / 16384) (value % 16384), []) }
{
    of_form(MeaningForm::Group(value / 16_384, value % 16_384))
}

fn length(scale: u64, value: u64) -> Meaning
    ensures { told result ≡ length_by scale value }
{
    if scale == 0 {
        decimetres(false, value)
    } else if scale == 1 {
        amount(value, 1, "m")
    } else if scale == 2 {
        amount(value, 10, "m")
    } else {
        in_words("of no unit")
    }
}

// Distances of either sign in 32 bits.
fn signed_length(value: u64) -> Meaning
    ensures { told result ≡ signed_length value }
{
    if value < 2_147_483_648 {
        decimetres(false, value)
    } else {
        decimetres(true, 4_294_967_296u64.saturating_sub(value))
    }
}

fn decimetres(is_negative: bool, count: u64) -> Meaning
    ensures { told result ≡ (MeaningForm.Decimetres is_negative count, codes "m") }
{
    let form = MeaningForm::Decimetres(is_negative, count);
    Meaning { form, words: "m" }
}

fn speed(value: u64) -> Meaning
    ensures { told result ≡ speed_by value }
{
    if value > MOST_SPEED {
        in_words("spare")
    } else {
        amount(value, 5, "km/h")
    }
}

/// The unit in which the value of a field counts, or no text.
pub(crate) fn unit_of(shown: Shown) -> &'static str
    ensures { result.now ≡ unit_by shown.scale (sense_of shown.field.kind) }
{
    match shown.field.kind {
        Kind::Count(unit) => unit,
        Kind::TrainTime => "10 ms",
        Kind::Speed => "5 km/h",
        Kind::Decimetres => "10 cm",
        Kind::Distance => length_unit(shown.scale),
        _ => "",
    }
}

fn length_unit(scale: u64) -> &'static str
    ensures { result.now ≡ length_unit scale }
{
    if scale == 0 {
        "10 cm"
    } else if scale == 1 {
        "1 m"
    } else if scale == 2 {
        "10 m"
    } else {
        ""
    }
}

impl fmt::Display for Meaning {
    fn fmt<W: fmt::Write>(&self, f: &mut Formatter<W>) -> fmt::Result {
        let words = self.words;
        match self.form {
            MeaningForm::Itself => Ok(()),
            MeaningForm::Words => f.write_str(words),
            MeaningForm::Amount(count, each) => write!(f, "{} {words}", count.saturating_mul(each)),
            MeaningForm::Decimetres(is_negative, count) => {
                let sign = if is_negative { "-" } else { "" };
                write!(f, "{sign}{}.{} {words}", count / 10, count % 10)
            }
            MeaningForm::Group(nid_c, nid_bg) => write!(f, "group {nid_bg} of NID_C {nid_c}"),
            MeaningForm::Bits(value, count) => write_bits(f, value, count),
        }
    }
}

// The lowest bits of a value, the highest first.
fn write_bits<W: fmt::Write>(f: &mut Formatter<W>, value: u64, count: u32) -> fmt::Result {
    for at in (0..count).rev() {
        let is_set = value.checked_shr(at).unwrap_or(0) % 2 == 1;
        f.write_str(if is_set { "1" } else { "0" })?;
    }
    Ok(())
}
