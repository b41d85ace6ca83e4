//! Requests that come in pieces, or with many fields, and the answer to each refusal.

use crate::page::wanted::{Want, unmet};
use serve_page::{Asked, Refusal, asked_of, refusal};
use std::alloc::{AllocError, Global};
use std::test::*;

/// A request with `count` more fields of `bytes` bytes each, and without an end.
pub fn long(alloc: Global, count: usize, bytes: usize) -> Result<Vec<u8>, AllocError> {
    let mut text = Vec::from_slice(alloc, b"GET / HTTP/1.1\r\nHost: localhost\r\n")?;
    for _ in 0..count {
        text.extend_from_slice(b"A: ")?;
        for _ in 0..bytes {
            text.push(b'a')?;
        }
        text.extend_from_slice(b"\r\n")?;
    }
    Ok(text)
}

#[test]
fn a_request_may_come_in_pieces(rt: HostRuntime) -> Result<(), Fail> {
    let whole = b"GET /now HTTP/1.1\r\nHost: localhost\r\n\r\n";
    for count in 0..whole.len() {
        let part = whole.get(..count).ok_or("there are so many bytes")?;
        assert!(rt; matches!(asked_of(part), Asked::More), "{count}");
    }
    assert!(rt; matches!(asked_of(whole), Asked::Now { since: None }));
    Ok(())
}

// The beginning of the answer to each refusal, up to its status.
static REFUSALS: [(Refusal, &str); 7] = [
    (Refusal::Form, "HTTP/1.1 400 "),
    (Refusal::Host, "HTTP/1.1 421 "),
    (Refusal::Method, "HTTP/1.1 405 "),
    (Refusal::Address, "HTTP/1.1 404 "),
    (Refusal::Size, "HTTP/1.1 431 "),
    (Refusal::Time, "HTTP/1.1 408 "),
    (Refusal::Crowd, "HTTP/1.1 503 "),
];

#[test]
fn each_refusal_has_its_status_and_its_length(rt: HostRuntime) -> Result<(), Fail> {
    for (why, begins) in &REFUSALS {
        let unmet = unmet(refusal(*why), &[Want::Begins(*begins), Want::Length])?;
        assert!(rt; unmet == None, "{begins}");
    }
    Ok(())
}
