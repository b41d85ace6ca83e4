ghost use Rattle.std.specs.Prelude.{◌≡◌, IfOk, IfSome, option_map, string_bytes};
ghost use Rattle.serde_json.specs.View.{view};
ghost use Rattle.serde_json.specs.Written.{compact_text};
ghost use Rattle.serve_notes.specs.Forms as spec;

use crate::about::{About, PeerConnection};
use crate::kinds::Kind;
use serde_json::{Value, json};
use std::alloc::{AllocError, Global};
use std::fmt::Display;

/// The form of notes on standard error.
#[derive(Clone, Copy)]
pub struct NoteForm {
    /// Whether a line begins with the level, in the form of systemd's journal (`<4>`), in place of the time.
    pub has_level: bool,
    /// Whether a note is an object of JSON.
    pub is_json: bool,
}

impl NoteForm {
    /// The time, and the text.
    pub const TEXT: NoteForm = NoteForm {
        has_level: false,
        is_json: false,
    };

    /// The line of a note, without the line feed that ends it.
    pub fn line<D: Display + Drop>(
        self,
        alloc: Global,
        time: Option<&str>,
        about: About<'_>,
        text: D,
    ) -> Result<String, AllocError>
        ensures { IfOk result (λ line. IfSome (D.output text) (λ t. string_bytes line
            ≡ spec.line_of self (option_map (λ t. t.now) time.entry) about.entry t)) }
    {
        let prefix = self.prefix(about.kind);
        if self.is_json {
            let text = format!(in alloc; "{text}")?;
            let object = json_of(alloc, time, about, text.as_str())?;
            return format!(in alloc; "{prefix}{object}");
        }
        if self.has_level {
            return format!(in alloc; "{prefix}{text}");
        }
        match time {
            Some(time) => format!(in alloc; "{time} {text}"),
            None => format!(in alloc; "{text}"),
        }
    }

    // The prefix of a note of this kind.
    fn prefix(self, kind: Kind) -> &'static str
        ensures { result.now ≡ spec.prefix_of self kind }
    {
        if self.has_level {
            kind.level().prefix()
        } else {
            ""
        }
    }
}

// A note as JSON.
fn json_of(
    alloc: Global,
    time: Option<&str>,
    about: About<'_>,
    text: &str,
) -> Result<String, AllocError>
    ensures { IfOk result (λ line. string_bytes line
        ≡ compact_text (spec.object_of (option_map (λ t. t.now) time.entry) about.entry text.now)) }
{
    object_of(alloc, time, about, text)?.to_string(alloc)
}

// The object of a note. A member without a value is null.
fn object_of(
    alloc: Global,
    time: Option<&str>,
    about: About<'_>,
    text: &str,
) -> Result<Value, AllocError>
    ensures { IfOk result (λ v. view v
        ≡ spec.object_of (option_map (λ t. t.now) time.entry) about.entry text.now) }
{
    let kind = about.kind;
    let centre = text_or_null(alloc, about.centre)?;
    let engine = number_or_null(about.engine);
    let peer = peer_or_null(alloc, about.peer)?;
    let time = text_or_null(alloc, time)?;
    json!(in alloc; {
        "centre": centre, "engine": engine, "kind": kind.name(), "level": kind.level().name(),
        "peer": peer, "text": text, "time": time
    })
}

fn text_or_null(alloc: Global, text: Option<&str>) -> Result<Value, AllocError>
    ensures { IfOk result (λ v. view v ≡ spec.text_or_null (option_map (λ t. t.now) text.entry)) }
{
    match text {
        Some(text) => Value::try_from_str(alloc, text),
        None => Ok(Value::Null),
    }
}

fn number_or_null(number: Option<u32>) -> Value
    ensures { view result ≡ spec.number_or_null number }
{
    match number {
        Some(number) => Value::from(number),
        None => Value::Null,
    }
}

fn peer_or_null(alloc: Global, peer: Option<PeerConnection>) -> Result<Value, AllocError>
    ensures { IfOk result (λ v. view v ≡ spec.peer_or_null peer) }
{
    match peer {
        Some(peer) => Ok(Value::String(peer_text(alloc, peer)?)),
        None => Ok(Value::Null),
    }
}

fn peer_text(alloc: Global, peer: PeerConnection) -> Result<String, AllocError>
    ensures { IfOk result (λ text. string_bytes text ≡ spec.peer_text peer) }
{
    match peer {
        PeerConnection::Train(number) => format!(in alloc; "train connection {number}"),
        PeerConnection::Control(number) => format!(in alloc; "control connection {number}"),
    }
}
