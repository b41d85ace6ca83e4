//! The example of `serve_page`: a browser's request is read and answered.

use crate::page::line::{layout, now};
use serve_page::{answer, asked_of};
use std::alloc::{AllocError, Global};
use text_page::Layout;

// The answer to the bytes of a request. The line is shown in version 1.
fn answered(alloc: Global, layout: &Layout, bytes: &[u8]) -> Result<String, AllocError> {
    let now = now(alloc)?;
    let asked = asked_of(bytes);
    let text = answer(alloc, layout, &now, 1, asked)?;
    Ok(text)
}

/// Whether a request is answered, and whether a part of it is not.
pub fn are_answered(alloc: Global) -> Result<(bool, bool), AllocError> {
    let layout = layout(alloc)?;
    let whole = answered(
        alloc,
        &layout,
        b"GET /now HTTP/1.1\r\nHost: localhost\r\n\r\n",
    )?;
    let half = answered(alloc, &layout, b"GET /now HTTP/1.1\r\n")?;
    Ok((whole.starts_with("HTTP/1.1 200 OK\r\n"), half.is_empty()))
}
