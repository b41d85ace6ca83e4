ghost use Rattle.std.specs.Prelude.{◌≡◌, ◌<◌, ◌↔◌, IfOk, IsErrOf, IsOkUnless};
ghost use Rattle.rbc_msgs.specs.Layout.{length_limit};
ghost use Rattle.rbc_msgs.specs.TrainSpelling.{SpellsTrain, train_length};
ghost use Rattle.rbc_msgs.specs.TrackSpelling.{SpellsTrack};

use crate::fault::EncodeFault;
use crate::track::TrackMsg;
use crate::train::TrainMsg;
use crate::{track_writing, train_writing};
use std::alloc::Global;

/// The bytes that spell the message of a train.
pub fn encode_train(alloc: Global, message: &TrainMsg) -> Result<Vec<u8>, EncodeFault>
    ensures spelled { IfOk result (λ bytes. SpellsTrain bytes.items message.now) }
    ensures too_long { IsErrOf result EncodeFault.TooLong ↔ (1023 < train_length message.now) }
{
    let l_message = train_writing::length_of(message)?;
    train_bytes(alloc, l_message, message)
}

// The bytes of a message of this length.
fn train_bytes(alloc: Global, l_message: u64, message: &TrainMsg) -> Result<Vec<u8>, EncodeFault>
    requires length { l_message ≡ train_length message.now }
    requires limit { l_message < length_limit }
    ensures spelled { IfOk result (λ bytes. SpellsTrain bytes.items message.now) }
    ensures memory { IsOkUnless result EncodeFault.Memory }
{
    train_writing::bytes(alloc, l_message, message)
}

/// The bytes that spell the message of a centre. None is too long.
pub fn encode_track(alloc: Global, message: &TrackMsg) -> Result<Vec<u8>, EncodeFault>
    ensures spelled { IfOk result (λ bytes. SpellsTrack bytes.items message.now) }
    ensures memory { IsOkUnless result EncodeFault.Memory }
{
    let number = track_writing::number_of(message.body());
    let l_message = track_writing::length_of(message.body());
    let row = track_writing::header(number, l_message, message);
    track_writing::bytes(alloc, row, message.body())
}
