//! Bytes that are written in hexadecimal.

use std::alloc::Global;

/// The bytes of a text of hexadecimal digits.
pub fn bytes_of(alloc: Global, text: &str) -> Result<Vec<u8>, &'static str> {
    hex::decode(alloc, text).ok().ok_or("it is hexadecimal")
}
