//! Shows the bytes of a message field by field.

ghost use Rattle.std.specs.Prelude.{◌≡◌, ◌∷◌, [], OnOk, codes, false, if◌then◌else◌, length, option_map};
ghost use Rattle.text_words.specs.Fields.{Adds, counted, is_of_train, message_of, message_variable, shown_of};

use crate::field::{Field, Meaning};
use crate::fields::Fields;
use crate::names::{name_of_number, number_of_track, number_of_train};
use crate::track::add_track;
use crate::train::add_train;
use rbc_msgs::{MsgFault, decode_track, decode_train};
use std::alloc::{AllocError, Global};

/// Reads the fields of a message from its bytes. NID_MESSAGE of 128 or more is a train's message, a smaller one a
/// centre's.
pub fn fields_of(alloc: Global, bytes: &[u8]) -> Result<Vec<Field>, MsgFault> {
    let mut fields = Fields::new(alloc);
    if is_of_train(bytes) {
        add_of_train(&mut fields, alloc, bytes)?;
    } else {
        add_of_centre(&mut fields, bytes)?;
    }
    Ok(fields.finish())
}

fn add_of_train(fields: &mut Fields, alloc: Global, bytes: &[u8]) -> Result<(), MsgFault> {
    let message = decode_train(alloc, bytes)?;
    add_start(fields, number_of_train(message.body()), "train", bytes)?;
    add_train(fields, &message)?;
    Ok(())
}

fn add_of_centre(fields: &mut Fields, bytes: &[u8]) -> Result<(), MsgFault> {
    let message = decode_track(bytes)?;
    add_start(fields, number_of_track(message.body()), "centre", bytes)?;
    add_track(fields, &message)?;
    Ok(())
}

/// NID_MESSAGE of the bytes and its name, if there is a byte.
pub fn name_of(bytes: &[u8]) -> Option<Field>
    ensures { option_map (λ field. (shown_of field).1) result ≡ message_of bytes.now }
{
    match bytes {
        [number, ..] => Some(field_of_number(u64::from(*number), sender_of(bytes))),
        [] => None,
    }
}

fn sender_of(bytes: &[u8]) -> &'static str
    ensures { result.now ≡ (if is_of_train bytes.now then codes "train" else codes "centre") }
{
    if is_of_train(bytes) {
        "train"
    } else {
        "centre"
    }
}

fn is_of_train(bytes: &[u8]) -> bool
    ensures { result ≡ is_of_train bytes.now }
{
    match bytes {
        [number, ..] => *number >= 128,
        [] => false,
    }
}

fn field_of_number(number: u64, from: &'static str) -> Field
    ensures { shown_of result ≡ (false, message_variable number from.entry.now) }
{
    let name = name_of_number(number);
    Field {
        is_in_packet: false,
        name: "NID_MESSAGE",
        value: number,
        meaning: Meaning::Message { name, from },
    }
}

/// Adds NID_MESSAGE and L_MESSAGE.
fn add_start(
    fields: &mut Fields,
    number: u64,
    from: &'static str,
    bytes: &[u8],
) -> Result<(), AllocError>
    ensures { OnOk result (Adds fields.old fields.new (message_variable number from.entry.now
        ∷ counted (codes "L_MESSAGE") (length bytes.now) (codes "bytes") ∷ [])) }
{
    let first = field_of_number(number, from);
    fields.add(first.name, first.value, first.meaning)?;
    let count = bytes.len() as u64;
    let unit = "bytes";
    fields.add("L_MESSAGE", count, Meaning::Count { count, unit })?;
    Ok(())
}
