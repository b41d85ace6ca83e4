//! The bytes of fields.

ghost use Rattle.std.specs.Prelude.{ℕ, ◌≡◌, ◌^◌, ◌<◌, ◌≤◌, length, true, IfOk, OnOk};
ghost use Rattle.rbc_spec.specs.Message.{TrackMessage};
ghost use Rattle.rbc_bits.specs.Bits.{bits_of};
ghost use Rattle.rbc_packets.specs.Layout.{joined};
ghost use Rattle.rbc_msgs.specs.TrainText.{TrainText};
ghost use Rattle.rbc_msgs.specs.TrainSpelling.{SpellsTrain};
ghost use Rattle.rbc_msgs.specs.TrackSpelling.{SpellsTrack};
ghost use Rattle.text_fields.specs.Named.{named, all_named, fields_in};
ghost use Rattle.text_fields.specs.Messages.{train_shown, track_shown};
ghost use Rattle.text_fields.specs.Written.{written_named, all_written};

use crate::shown::Shown;
use crate::walk::{LONGEST, fields_of, fields_of_frame};
use rbc_bits::{BitFault, BitWriter};
use std::alloc::{AllocError, Global};

/// A field to be written: its name, the number of its bits, and its value.
#[derive(Clone, Copy)]
pub struct Written<'a> {
    pub name: &'a str,
    pub width: u32,
    pub value: u64,
}

/// Why no bytes show the fields.
#[derive(Clone, Copy)]
pub enum WrittenFault {
    /// Memory ran out.
    Memory,
    /// The value of the field at this place has no room in its bits, or it has more than 64 bits.
    Room(usize),
    /// The fields have more bits than 1 023 bytes.
    Long,
    /// The bytes of the fields do not show the field at this place, but this one, or none.
    Other(usize, Option<Shown>),
}

impl From<AllocError> for WrittenFault {
    fn from(_error: AllocError) -> WrittenFault {
        WrittenFault::Memory
    }
}

impl From<BitFault> for WrittenFault {
    fn from(_fault: BitFault) -> WrittenFault {
        WrittenFault::Memory
    }
}

/// The bytes of a message that shows these fields, and no others, as `fields_of` does.
pub fn message_of(alloc: Global, written: &[Written]) -> Result<Vec<u8>, WrittenFault>
    // The bytes are the bits of the fields, put together.
    ensures bits { IfOk result (λ bytes. bits_of bytes.items ≡ joined (fields_in (all_written written.now))) }
    // If they spell a train's message, which `decode_train` reads, the fields are those of the message.
    ensures train { (m : TrainText) → IfOk result (λ bytes. SpellsTrain bytes.items m
        → all_written written.now ≡ train_shown (length bytes.items) m) }
    // The same of a centre's message, which `decode_track` reads.
    ensures track { (m : TrackMessage) → IfOk result (λ bytes. SpellsTrack bytes.items m
        → all_written written.now ≡ track_shown (length bytes.items) m) }
{
    let bytes = put_together(alloc, written)?;
    are_of_message(alloc, &bytes, written)?;
    Ok(bytes)
}

/// The bytes of a frame that shows these fields, and no others, as `fields_of_frame` does.
pub fn frame_of(alloc: Global, written: &[Written]) -> Result<Vec<u8>, WrittenFault>
    // The bytes are the bits of the fields, put together.
    ensures bits { IfOk result (λ bytes. bits_of bytes.items ≡ joined (fields_in (all_written written.now))) }
{
    let bytes = put_together(alloc, written)?;
    are_of_frame(alloc, &bytes, written)?;
    Ok(bytes)
}

// The message of the bytes has to show the same fields.
fn are_of_message(alloc: Global, bytes: &[u8], written: &[Written]) -> Result<(), WrittenFault>
    requires { length bytes.now ≤ 1023 }
    ensures bits { OnOk result (bits_of bytes.now ≡ joined (fields_in (all_written written.now))) }
    ensures train { (m : TrainText) → OnOk result (SpellsTrain bytes.now m
        → all_written written.now ≡ train_shown (length bytes.now) m) }
    ensures track { (m : TrackMessage) → OnOk result (SpellsTrack bytes.now m
        → all_written written.now ≡ track_shown (length bytes.now) m) }
{
    let seen = fields_of(alloc, bytes)?;
    are_written(&seen.shown, written)
}

// The frame of the bytes has to show the same fields.
fn are_of_frame(alloc: Global, bytes: &[u8], written: &[Written]) -> Result<(), WrittenFault>
    requires { length bytes.now ≤ 1023 }
    ensures { OnOk result (bits_of bytes.now ≡ joined (fields_in (all_written written.now))) }
{
    let seen = fields_of_frame(alloc, bytes)?;
    are_written(&seen.shown, written)
}

// The bits of the fields, put together, and zero bits up to whole bytes.
fn put_together(alloc: Global, written: &[Written]) -> Result<Vec<u8>, WrittenFault>
    ensures short { IfOk result (λ bytes. length bytes.items ≤ 1023) }
{
    let mut writer = BitWriter::with_capacity(alloc, LONGEST)?;
    put_all(&mut writer, written)?;
    let bytes = writer.finish()?;
    if bytes.len() > LONGEST {
        return Err(WrittenFault::Long);
    }
    Ok(bytes)
}

fn put_all(writer: &mut BitWriter, written: &[Written]) -> Result<(), WrittenFault> {
    for place in 0..written.len() {
        put(writer, place, written[place])?;
    }
    Ok(())
}

// Writes the field at this place.
fn put(writer: &mut BitWriter, place: usize, field: Written) -> Result<(), WrittenFault> {
    if !has_room(field.width, field.value) {
        return Err(WrittenFault::Room(place));
    }
    Ok(writer.put(field.value, field.width)?)
}

// Whether a field of this width can have the value.
fn has_room(width: u32, value: u64) -> bool
    ensures width { result ≡ true → width ≤ 64 }
    ensures fits { result ≡ true → value < 2 ^ width }
{
    if width >= 64 {
        width == 64
    } else {
        value >> width == 0
    }
}

// The fields that are shown have to be the same.
fn are_written(shown: &[Shown], written: &[Written]) -> Result<(), WrittenFault>
    ensures { OnOk result (all_named shown.now ≡ all_written written.now) }
{
    let count = shown.len().min(written.len());
    for place in 0..count {
        if !is_written(shown[place], written[place]) {
            return Err(WrittenFault::Other(place, Some(shown[place])));
        }
    }
    if shown.len() == written.len() {
        Ok(())
    } else {
        Err(WrittenFault::Other(count, shown.get(count).copied()))
    }
}

fn is_written(shown: Shown, written: Written) -> bool
    ensures { result ≡ true → named shown ≡ written_named written.entry }
{
    shown.field.name == written.name && shown.width == written.width && shown.value == written.value
}
