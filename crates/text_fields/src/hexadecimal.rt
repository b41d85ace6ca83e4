//! Bytes in hexadecimal, as people write them.

use hex::FromHexError;
use std::alloc::{AllocError, Global};

/// The bytes of a text in hexadecimal. Blanks, line ends, colons, and `0x` at the start of a word are left out. None
/// for any other text, and for an odd number of digits.
pub fn bytes_in(alloc: Global, text: &str) -> Result<Option<Vec<u8>>, AllocError> {
    let digits = digits_in(alloc, text)?;
    match hex::decode(alloc, digits.as_str()) {
        Ok(bytes) => Ok(Some(bytes)),
        Err(FromHexError::OutOfMemory) => Err(AllocError),
        Err(_) => Ok(None),
    }
}

fn digits_in(alloc: Global, text: &str) -> Result<String, AllocError> {
    let mut digits = String::new(alloc);
    for word in text.split_whitespace() {
        add_digits(word, &mut digits)?;
    }
    Ok(digits)
}

fn add_digits(word: &str, digits: &mut String) -> Result<(), AllocError> {
    for part in word.split(':') {
        digits.push_str(part.strip_prefix("0x").unwrap_or(part))?;
    }
    Ok(())
}
