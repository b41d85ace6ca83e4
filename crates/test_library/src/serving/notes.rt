//! The lines of notes.

use serve_notes::{About, Kind, NoteForm, PeerConnection};
use std::alloc::{AllocError, Global};
use std::test::*;

/// A note, and its line.
struct Row<'a> {
    form: NoteForm,
    time: Option<&'a str>,
    about: About<'a>,
    text: &'a str,
    line: &'a str,
}

const TEXT: NoteForm = NoteForm {
    has_level: false,
    is_json: false,
};

const JSON: NoteForm = NoteForm {
    has_level: false,
    is_json: true,
};

const JOURNALD: NoteForm = NoteForm {
    has_level: true,
    is_json: false,
};

const JSON_FOR_JOURNALD: NoteForm = NoteForm {
    has_level: true,
    is_json: true,
};

// A train opens its session.
const OF_A_SESSION: About<'_> = About {
    kind: Kind::Session,
    centre: Some("A"),
    engine: Some(1),
    peer: Some(PeerConnection::Train(0)),
};

// A line of the interlocking is refused.
const OF_A_LINE: About<'_> = About {
    kind: Kind::Line,
    centre: None,
    engine: None,
    peer: Some(PeerConnection::Control(3)),
};

// A start is refused.
const OF_A_START: About<'_> = About {
    kind: Kind::Refused,
    centre: None,
    engine: None,
    peer: None,
};

// The forms are those of docs/FORMATS.md, "Notes". The escapes are those of RFC 8259.
static ROWS: [Row<'_>; 7] = [
    Row {
        form: TEXT,
        time: Some("2026-11-28T09:50:00Z"),
        about: OF_A_SESSION,
        text: "A: train 1 opens its session over train connection 0",
        line: "2026-11-28T09:50:00Z A: train 1 opens its session over train connection 0",
    },
    Row {
        form: TEXT,
        time: None,
        about: OF_A_START,
        text: "day can't be made: no",
        line: "day can't be made: no",
    },
    Row {
        form: JOURNALD,
        time: Some("2026-11-28T09:50:00Z"),
        about: OF_A_SESSION,
        text: "A: train 1 opens its session over train connection 0",
        line: "<6>A: train 1 opens its session over train connection 0",
    },
    Row {
        form: JOURNALD,
        time: Some("2026-11-28T09:50:00Z"),
        about: OF_A_LINE,
        text: "control: a line is refused, script fault",
        line: "<4>control: a line is refused, script fault",
    },
    Row {
        form: JSON,
        time: Some("2026-11-28T09:50:00Z"),
        about: OF_A_SESSION,
        text: "A: train 1 opens its session over train connection 0",
        line: "{\"centre\":\"A\",\"engine\":1,\"kind\":\"session_opens\",\"level\":\"info\",\"peer\":\"train connection 0\",\"text\":\"A: train 1 opens its session over train connection 0\",\"time\":\"2026-11-28T09:50:00Z\"}",
    },
    Row {
        form: JSON,
        time: None,
        about: OF_A_LINE,
        text: "control: a line is refused, script fault",
        line: "{\"centre\":null,\"engine\":null,\"kind\":\"line_refused\",\"level\":\"warning\",\"peer\":\"control connection 3\",\"text\":\"control: a line is refused, script fault\",\"time\":null}",
    },
    Row {
        form: JSON_FOR_JOURNALD,
        time: None,
        about: OF_A_START,
        text: "da\"y\\ can't be made:\n\u{e9}",
        line: "<3>{\"centre\":null,\"engine\":null,\"kind\":\"start_refused\",\"level\":\"error\",\"peer\":null,\"text\":\"da\\\"y\\\\ can't be made:\\n\u{e9}\",\"time\":null}",
    },
];

#[test]
fn each_note_has_its_line(rt: HostRuntime) -> Result<(), Fail> {
    for wanted in &ROWS {
        let is_so = has_its_line(rt.alloc(), wanted)?;
        let text = wanted.text;
        assert!(rt; is_so, "{text}");
    }
    Ok(())
}

fn has_its_line(alloc: Global, wanted: &Row<'_>) -> Result<bool, AllocError> {
    let line = wanted
        .form
        .line(alloc, wanted.time, wanted.about, wanted.text)?;
    Ok(line.as_str() == wanted.line)
}
