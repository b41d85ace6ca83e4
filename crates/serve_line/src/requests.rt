//! The request of a browser, and the part of the answer that is written.

ghost use Rattle.std.specs.Prelude.{◌≡◌, ℕ, IfNone, IfSome, List};
ghost use Rattle.serve_page.specs.Requests.{IsAsked};
ghost use Rattle.serve_page.specs.declared.request.Asked.TheVariants.{More};
ghost use Rattle.serve_line.specs.Requests.{is_head, IsRequest};
ghost use Rattle.serve_line.specs.Sendings.{HasBegun};

use crate::clients::write_some;
use crate::failures::is_rest;
use crate::state::Server;
use serve_page::{Asked, Refusal, asked_of};
use std::io::{ErrorKind, Read, Write};
use std::net::TcpStream;

/// The most reads of a request, writes of an answer, and reads after the answer, each.
const TURNS: u32 = 16;

/// The whole answer, or only its head with the empty line.
pub(crate) fn part_of(text: &str, has_body: bool) -> &str {
    if has_body {
        return text;
    }
    match text.find("\r\n\r\n") {
        Some(end) => text.get(..end.saturating_add(4)).unwrap_or(text),
        None => text,
    }
}

/// The request, as soon as it is complete, and whether its answer has a body: the answer to HEAD has none. `None` if
/// the connection ends first.
pub(crate) fn read_request<S: Read>(server: &Server<'_>, source: &mut S) -> Option<(Asked, bool)>
    ensures { IfSome result (λ request. (bytes : List ℕ) × IsRequest bytes request.0 request.1) }
{
    let mut bytes: Vec<u8> = Vec::new(server.alloc);
    for _ in 0..TURNS {
        let mut piece = [0u8; 2_048];
        match source.read(&mut piece) {
            Ok(0) => return None,
            Ok(count) => {
                bytes.extend_from_slice(piece.get(..count)?).ok()?;
                if let Some(request) = request_of(&bytes) {
                    return Some(request);
                }
            }
            Err(error) if is_rest(error.kind()) && !server.state.is_empty() => {}
            Err(_) => return None,
        }
    }
    Some((Asked::Refused(Refusal::Time), !is_head(&bytes)))
}

// The meaning of a request, and whether its answer has a body. `None` if the request is not complete.
fn request_of(bytes: &[u8]) -> Option<(Asked, bool)>
    ensures some { IfSome result (λ request. IsRequest bytes.now request.0 request.1) }
    ensures none { IfNone result (IsAsked bytes.now More) }
{
    match asked_of(bytes) {
        Asked::More => None,
        asked => Some((asked, !is_head(bytes))),
    }
}

// Whether the method of a request is HEAD.
fn is_head(bytes: &[u8]) -> bool
    ensures { result ≡ is_head bytes.now }
{
    bytes.starts_with(b"HEAD ")
}

/// Writes as much of the text as a browser takes in `TURNS` writes.
#[tactic(auto, using(crate::proofs::WrittenLemmas::written_steps))]
pub(crate) fn write_bounded<O: Write>(out: &mut O, text: &[u8])
    ensures { HasBegun text.now (O.contents out.old) (O.contents out.new) }
{
    let mut rest = text;
    for _ in 0..TURNS {
        if rest.is_empty() {
            return;
        }
        let Some(left) = write_some(out, rest) else {
            return;
        };
        rest = left;
    }
}

/// Reads the bytes after a browser's request, so that the system does not cut the answer off.
pub(crate) fn drain(stream: &TcpStream) {
    let mut source = stream;
    let mut piece = [0u8; 2_048];
    for _ in 0..TURNS {
        match source.read(&mut piece) {
            Ok(0) => return,
            Ok(_) => {}
            Err(error) if error.kind() == ErrorKind::Interrupted => {}
            Err(_) => return,
        }
    }
}
