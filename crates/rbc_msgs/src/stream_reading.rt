//! Consecutive messages of a train. Whole ones are read in place, and only the rest of a piece is copied.

ghost use Rattle.std.specs.Prelude.{◌≡◌, ◌≢◌, ◌⊎◌, ◌<◌, ◌≤◌, ◌++◌, ◌∷◌, [], Err, length, take, drop, max, IfOk};
ghost use Rattle.std.specs.Prelude.{IfErr, OnOk, OnErr, IsOkUnless};
ghost use Rattle.rbc_msgs.specs.Layout.{length_limit};
ghost use Rattle.rbc_msgs.specs.TrainText.{TrainText};
ghost use Rattle.rbc_msgs.specs.TrainSpelling.{SpellsTrain};
ghost use Rattle.rbc_msgs.specs.TrainReading.{read_train};
ghost use Rattle.rbc_msgs.specs.Streams.{needed_at, IsRest, Adds, Halts};

use crate::decode::decode_train;
use crate::fault::MsgFault;
use crate::number::TrainNumber;
use crate::reading::start_of;
use crate::train::TrainMsg;
use std::alloc::Global;

// The bytes that hold NID_MESSAGE and L_MESSAGE.
const START_BYTES: usize = 3;

// The most bytes that a message has.
const MOST_BYTES: usize = 1023;

/// Reads the messages of the rest and the piece after it, and keeps the new rest.
pub(crate) fn read_on(
    alloc: Global,
    rest: &mut Vec<u8>,
    piece: &[u8],
    out: &mut Vec<TrainMsg>,
) -> Result<(), MsgFault>
    requires { IsRest rest.old.items }
    ensures read { OnOk result (Adds out.old.items out.new.items (rest.old.items ++ piece.now) rest.new.items) }
    ensures ends { OnOk result (IsRest rest.new.items) }
    ensures fault { IfErr result (λ fault. Halts out.old.items out.new.items (rest.old.items ++ piece.now) fault) }
{
    let used = complete(alloc, rest, piece, out)?;
    if !rest.is_empty() {
        return Ok(());
    }
    let piece = &piece[used..];
    let used = read_whole(alloc, piece, out)?;
    keep(rest, &piece[used..])?;
    Ok(())
}

// Completes the message that the rest begins, if the piece has enough bytes. The result is the number of bytes taken
// from the piece.
fn complete(
    alloc: Global,
    rest: &mut Vec<u8>,
    piece: &[u8],
    out: &mut Vec<TrainMsg>,
) -> Result<usize, MsgFault>
    requires { IsRest rest.old.items }
    ensures within { IfOk result (λ used. used ≤ length piece.now) }
    ensures read { IfOk result
        (λ used. Adds out.old.items out.new.items (rest.old.items ++ take used piece.now) rest.new.items) }
    ensures ends { IfOk result (λ used. (rest.new.items ≡ []) ⊎ (IsRest rest.new.items × (used ≡ length piece.now))) }
    ensures fault { IfErr result (λ fault. Halts out.old.items out.new.items (rest.old.items ++ piece.now) fault) }
{
    if rest.is_empty() {
        return Ok(0);
    }
    let first = extend_to(rest, START_BYTES, piece)?;
    let needed = needed(rest)?;
    let used = first + extend_to(rest, needed, &piece[first..])?;
    if rest.len() == needed {
        read_one(alloc, rest, out)?;
        rest.clear();
    }
    Ok(used)
}

// Moves bytes of the piece to the rest until the rest has n, and returns their number.
fn extend_to(rest: &mut Vec<u8>, n: usize, piece: &[u8]) -> Result<usize, MsgFault>
    ensures within { IfOk result (λ used. used ≤ length piece.now) }
    ensures taken { IfOk result (λ used. rest.new.items ≡ rest.old.items ++ take used piece.now) }
    ensures enough { IfOk result (λ used. length rest.new.items < n → used ≡ length piece.now) }
    ensures no_more { OnOk result (length rest.new.items ≤ max n (length rest.old.items)) }
    ensures memory { IsOkUnless result MsgFault.Memory }
{
    let used = n.saturating_sub(rest.len()).min(piece.len());
    rest.extend_from_slice(&piece[..used])?;
    Ok(used)
}

// Reads the whole messages at the front, and returns the number of their bytes.
fn read_whole(alloc: Global, bytes: &[u8], out: &mut Vec<TrainMsg>) -> Result<usize, MsgFault>
    ensures within { IfOk result (λ used. used ≤ length bytes.now) }
    ensures read { IfOk result (λ used. Adds out.old.items out.new.items bytes.now (drop used bytes.now)) }
    ensures ends { IfOk result (λ used. IsRest (drop used bytes.now)) }
    ensures fault { IfErr result (λ fault. Halts out.old.items out.new.items bytes.now fault) }
{
    let mut used = 0;
    loop {
        let rest = &bytes[used..];
        let needed = needed(rest)?;
        if rest.len() < needed {
            return Ok(used);
        }
        read_one(alloc, &rest[..needed], out)?;
        used += needed;
    }
}

// Appends the message that the bytes spell, all of them.
fn read_one(alloc: Global, bytes: &[u8], out: &mut Vec<TrainMsg>) -> Result<(), MsgFault>
    ensures read { OnOk result ((m : TrainText) × (out.new.items ≡ out.old.items ++ m ∷ []) × SpellsTrain bytes.now m) }
    ensures fault { IfErr result (λ fault. fault ≢ MsgFault.Memory → read_train bytes.now ≡ Err fault) }
    ensures err { OnErr result (out.new.items ≡ out.old.items) }
{
    out.push(decode_train(alloc, bytes)?)?;
    Ok(())
}

// The number of bytes that the next decision about their first message needs.
#[tactic(auto, unfolding(crate::specs::Streams::needed_at, crate::specs::Streams::l_message_at))]
fn needed(bytes: &[u8]) -> Result<usize, MsgFault>
    ensures exact { result ≡ needed_at bytes.now }
    ensures range { IfOk result (λ n. (3 ≤ n) × (n < length_limit)) }
{
    if bytes.len() < START_BYTES {
        return Ok(START_BYTES);
    }
    let (number, l_message) = start_of(bytes)?;
    let number = TrainNumber::of(number)?;
    if l_message < number.least_length() {
        return Err(MsgFault::Length);
    }
    Ok(l_message)
}

// Begins a rest, with room for a whole message, so that its bytes are not copied again as it grows.
fn keep(rest: &mut Vec<u8>, end: &[u8]) -> Result<(), MsgFault>
    ensures kept { OnOk result (rest.new.items ≡ rest.old.items ++ end.now) }
    ensures memory { IsOkUnless result MsgFault.Memory }
{
    if !end.is_empty() {
        rest.reserve_exact(MOST_BYTES)?;
        rest.extend_from_slice(end)?;
    }
    Ok(())
}
