ghost use Rattle.std.specs.Prelude.{◌≡◌, IfOk, string_bytes};
ghost use Rattle.text_journal.specs.Journal.{checksum, digest};

use sha2::{Digest, Sha256};
use std::alloc::{AllocError, Global};

/// The SHA-256 of a text, in hexadecimal digits.
#[tactic(auto, unfolding(crate::specs::Journal::digest))]
pub(crate) fn digest(alloc: Global, text: &[u8]) -> Result<String, AllocError>
    ensures { IfOk result (λ digits. string_bytes digits ≡ digest text.now) }
{
    hex::encode(alloc, Sha256::digest(text))
}

/// The first four bytes of the SHA-256 of a text, in hexadecimal digits.
#[tactic(auto, unfolding(crate::specs::Journal::checksum))]
pub(crate) fn checksum(alloc: Global, text: &[u8]) -> Result<String, AllocError>
    ensures { IfOk result (λ digits. string_bytes digits ≡ checksum text.now) }
{
    let sum = Sha256::digest(text);
    hex::encode(alloc, &sum[..4])
}
