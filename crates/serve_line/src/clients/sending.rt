ghost use Rattle.std.specs.Prelude.{◌≡◌, IfNone, IfSome};
ghost use Rattle.serve_line.specs.Sendings.{is_late, IsSent, IsWritten};

use crate::clients::limits::PATIENCE_S;
use crate::failures::is_rest;
use crate::moments::seconds_between;
use serve_journal::Opened;
use std::io::Write;
use std::time::{Clock, Instant};

/// How much of an answer was sent.
#[derive(Clone, Copy, PartialEq, Eq)]
pub(crate) enum Sent {
    Whole,
    /// Only a part was sent: the connection failed, or did not take all of it in time.
    Short,
}

/// Sends an answer. Ten seconds after the start, no further part of it is written.
#[tactic(auto, using(crate::proofs::WrittenLemmas::written_steps))]
pub(crate) fn send<R: Clock, O: Write>(rt: &R, out: &mut O, text: &Opened<Vec<u8>>) -> Sent
    ensures { IsSent text.now.answer.items result (O.contents out.old) (O.contents out.new) }
{
    let Ok(begun) = Instant::now(rt) else {
        return Sent::Short;
    };
    let mut rest = text.get().as_slice();
    for _ in 0..u64::MAX {
        if rest.is_empty() {
            return Sent::Whole;
        }
        let Some(left) = write_some(out, rest) else {
            break;
        };
        rest = left;
        if !rest.is_empty() && is_late(begun, Instant::now(rt).ok()) {
            break;
        }
    }
    Sent::Short
}

/// Writes as many bytes as the connection takes now. The result is the rest; `None` if the connection failed.
#[tactic(auto, using(crate::proofs::WrittenLemmas::written_steps))]
pub(crate) fn write_some<'a, O: Write>(out: &mut O, text: &'a [u8]) -> Option<&'a [u8]>
    ensures some { IfSome result
        (λ rest. IsWritten text.entry.now rest.now (O.contents out.old) (O.contents out.new)) }
    ensures none { IfNone result
        (IsWritten text.entry.now text.entry.now (O.contents out.old) (O.contents out.new)) }
{
    match out.write(text) {
        Ok(0) => None,
        Ok(count) => text.get(count..),
        Err(error) if is_rest(error.kind()) => Some(text),
        Err(_) => None,
    }
}

// Whether an answer that began at this time takes too long, or the clock gave no time.
fn is_late(begun: Instant, now: Option<Instant>) -> bool
    ensures { result ≡ is_late begun now }
{
    match now {
        Some(now) => seconds_between(begun, now) >= PATIENCE_S,
        None => true,
    }
}
