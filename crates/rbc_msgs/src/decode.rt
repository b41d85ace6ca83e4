ghost use Rattle.std.specs.Prelude.{◌≡◌, Ok, IfOk, IfErr};
ghost use Rattle.rbc_spec.specs.Message.{TrackMessage};
ghost use Rattle.rbc_msgs.specs.TrainText.{TrainText};
ghost use Rattle.rbc_msgs.specs.Reading.{Gives};
ghost use Rattle.rbc_msgs.specs.TrainSpelling.{SpellsTrain};
ghost use Rattle.rbc_msgs.specs.TrainReading.{read_train};
ghost use Rattle.rbc_msgs.specs.Kept.{kept_packets, MayKeep};
ghost use Rattle.rbc_msgs.specs.TrackSpelling.{SpellsTrack};
ghost use Rattle.rbc_msgs.specs.TrackReading.{read_track};

use crate::fault::MsgFault;
use crate::number::{TrackNumber, TrainNumber};
use crate::reading::{end, start_of, take, take_fixed, take_time, whole};
use crate::track::TrackMsg;
use crate::train::TrainMsg;
use crate::train_reading::{read_body, read_further};
use crate::{track_reading, usual, usual_track};
use std::alloc::Global;

// How many bytes most messages with a position report have, and a transition order.
const USUAL_LENGTH: usize = 26;

// How many bytes most answers to a request to shorten have.
const ANSWER_LENGTH: usize = 30;

// How many bytes a movement authority has.
const AUTHORITY_LENGTH: usize = 18;

// How many bytes a general message has that ends a session.
const END_OF_SESSION_LENGTH: usize = 24;

// The number of bytes of a message that is only a header.
const BARE_LENGTH: usize = 10;

/// The message of a train that the bytes spell, all of the bytes. Only packets that are kept without being read take
/// memory.
pub fn decode_train(alloc: Global, bytes: &[u8]) -> Result<TrainMsg, MsgFault>
    // The bytes spell the value that is read.
    ensures found { IfOk result (λ m. SpellsTrain bytes.now m) }
    // A spelled value is read, unless memory runs out.
    ensures only { (m : TrainText) → SpellsTrain bytes.now m → Gives (λ x. x) result (Ok m) }
    // Which fault it is.
    ensures exact { Gives (λ x. x) result (read_train bytes.now) }
    // Memory is needed only if a packet is kept, or if the fault can be found after one.
    ensures memory { IfErr result (λ e. e ≡ MsgFault.Memory → MayKeep kept_packets (read_train bytes.now)) }
{
    if bytes.len() == USUAL_LENGTH {
        // A test for each: so each is read with its number known before it is read.
        if let Some(message) = usual::report(bytes) {
            return Ok(message);
        }
        if let Some(message) = usual::request(bytes) {
            return Ok(message);
        }
    }
    match rarer(alloc, bytes) {
        Ok(message) => Ok(message),
        Err(fault) => Err(fault),
    }
}

/// The message of a centre that the bytes spell, all of the bytes.
pub fn decode_track(bytes: &[u8]) -> Result<TrackMsg, MsgFault>
    // The bytes spell the value that is read.
    ensures found { IfOk result (λ m. SpellsTrack bytes.now m) }
    // A spelled value is read.
    ensures only { (m : TrackMessage) → SpellsTrack bytes.now m → result ≡ Ok m }
    // Which fault it is.
    ensures exact { result ≡ read_track bytes.now }
{
    // A test of the length for each: so the places of its fields are known before it is read.
    if bytes.len() == AUTHORITY_LENGTH {
        if let Some(message) = usual_track::authority(bytes) {
            return Ok(message);
        }
    }
    if bytes.len() == USUAL_LENGTH {
        if let Some(message) = usual_track::transition(bytes) {
            return Ok(message);
        }
    }
    if bytes.len() == BARE_LENGTH {
        if let Some(message) = usual_track::bare(bytes) {
            return Ok(message);
        }
    }
    if bytes.len() == END_OF_SESSION_LENGTH {
        if let Some(message) = usual_track::end_of_session(bytes) {
            return Ok(message);
        }
    }
    match track_from(bytes) {
        Ok(message) => Ok(message),
        Err(fault) => Err(fault),
    }
}

// Messages that are rarer than reports and requests. This is a separate call, whose result is tested before it is
// handed on. So the place of the other results is known, and they are written there field by field.
#[inline(never)]
fn rarer(alloc: Global, bytes: &[u8]) -> Result<TrainMsg, MsgFault>
    ensures exact { Gives (λ x. x) result (read_train bytes.now) }
    ensures found { IfOk result (λ m. SpellsTrain bytes.now m) }
    ensures memory { IfErr result (λ e. e ≡ MsgFault.Memory → MayKeep kept_packets (read_train bytes.now)) }
{
    if bytes.len() == BARE_LENGTH {
        if let Some(message) = usual::bare(bytes) {
            return Ok(message);
        }
    }
    if bytes.len() == ANSWER_LENGTH {
        if let Some(message) = usual::granted(bytes) {
            return Ok(message);
        }
        if let Some(message) = usual::rejected(bytes) {
            return Ok(message);
        }
    }
    if bytes.len() == USUAL_LENGTH {
        if let Some(message) = usual::end_of_mission(bytes) {
            return Ok(message);
        }
        if let Some(message) = usual::start_of_mission(bytes) {
            return Ok(message);
        }
    }
    if let Some(message) = usual::train_data(alloc, bytes) {
        return Ok(message);
    }
    match train_from(alloc, bytes) {
        Ok(message) => Ok(message),
        Err(fault) => Err(fault),
    }
}

#[tactic(auto, unfolding(crate::specs::TrainReading::read_train))]
#[inline(never)]
fn train_from(alloc: Global, bytes: &[u8]) -> Result<TrainMsg, MsgFault>
    ensures exact { Gives (λ x. x) result (read_train bytes.now) }
    ensures found { IfOk result (λ m. SpellsTrain bytes.now m) }
    ensures memory { IfErr result (λ e. e ≡ MsgFault.Memory → MayKeep kept_packets (read_train bytes.now)) }
{
    let (number, l_message) = start_of(bytes)?;
    let number = TrainNumber::of(number)?;
    let mut reader = whole(number.least_length(), l_message, bytes)?;
    let t_train = take_time(&mut reader)?;
    let nid_engine = take(&mut reader, 24)? as u32;
    let body = read_body(alloc, number, &mut reader)?;
    let further = read_further(alloc, &mut reader)?;
    end(reader, MsgFault::Packet)?;
    Ok(TrainMsg::new(t_train, nid_engine, body, further))
}

// Messages of other lengths, and faults.
#[tactic(auto, unfolding(crate::specs::TrackReading::read_track))]
#[inline(never)]
fn track_from(bytes: &[u8]) -> Result<TrackMsg, MsgFault>
    ensures exact { result ≡ read_track bytes.now }
    ensures found { IfOk result (λ m. SpellsTrack bytes.now m) }
{
    let (number, l_message) = start_of(bytes)?;
    let number = TrackNumber::of(number)?;
    let mut reader = whole(number.least_length(), l_message, bytes)?;
    let t_train = take_time(&mut reader)?;
    take_fixed(&mut reader, 1, 0)?;
    let nid_lrbg = take(&mut reader, 24)? as u32;
    let body = track_reading::read_body(number, &mut reader)?;
    end(reader, MsgFault::Length)?;
    Ok(TrackMsg::new(t_train, nid_lrbg, body))
}
