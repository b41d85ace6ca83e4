//! Reads the message of a train.

ghost use Rattle.std.specs.Prelude.{◌^◌, ◌<◌, IfOk};

use crate::field::{FIELDS, read_field};
use crate::kind::Kind;
use crate::known::Known;
use crate::report::Report;
use crate::row_fault::RowFault;
use crate::sent::Sent;
use crate::words::Words;
use rbc_vars::{NidEngine, QMarqstreason, QStatus, TTrain};
use std::alloc::Global;

/// A message of a train, as far as its line is read.
#[derive(Drop)]
pub struct Draft {
    pub nid_engine: u32,
    pub kind: Kind,
    pub t_train: Option<u32>,
    pub report: Report,
    /// The line or an earlier one names the position.
    pub has_position: bool,
    pub content: Vec<u8>,
}

/// A message of a train, and its T_TRAIN if the line names it.
#[derive(Drop)]
pub struct Sending {
    pub sent: Sent,
    pub t_train: Option<u32>,
}

#[derive(Clone, Copy)]
enum Name {
    Open,
    Established,
    Close,
    Start,
    Data,
    Request,
    Report,
    Granted,
    Rejected,
    End,
}

static NAMES: [(&str, Name); 10] = [
    ("open session", Name::Open),
    ("session established", Name::Established),
    ("close session", Name::Close),
    ("start of mission", Name::Start),
    ("train data", Name::Data),
    ("request", Name::Request),
    ("report", Name::Report),
    ("shortening granted", Name::Granted),
    ("shortening rejected", Name::Rejected),
    ("end of mission", Name::End),
];

/// Reads a message of a train, after the train's number. `known` is its last message.
pub fn read_sending<'a>(
    words: &mut Words<'_, 'a>,
    nid_engine: u32,
    known: &Option<Known>,
) -> Result<Sending, RowFault<'a>> {
    let centre = read_centre(words, nid_engine, known)?;
    let mut draft = draft_of(words.alloc, nid_engine, known);
    read_rest(words, &mut draft)?;
    sending_of(draft, centre)
}

// Reads the kind of a message and its fields.
fn read_rest<'a>(words: &mut Words<'_, 'a>, draft: &mut Draft) -> Result<(), RowFault<'a>> {
    read_kind(words, draft)?;
    // Each field has a word at least.
    for _ in 0..words.rest.len() {
        if words.rest.is_empty() {
            break;
        }
        let field = words.one_of("a field", &FIELDS)?;
        read_field(words, field, draft)?;
    }
    Ok(())
}

// Reads `at A`, or gives the centre that the train's last message reached.
fn read_centre<'a>(
    words: &mut Words<'_, 'a>,
    nid_engine: u32,
    known: &Option<Known>,
) -> Result<u8, RowFault<'a>> {
    if words.takes("at") {
        return words.centre();
    }
    match known {
        Some(known) => Ok(known.centre),
        None => Err(RowFault::NoCentre(nid_engine)),
    }
}

fn draft_of(alloc: Global, nid_engine: u32, known: &Option<Known>) -> Draft {
    let report = match known {
        Some(known) => known.report,
        None => None,
    };
    Draft {
        nid_engine,
        kind: Kind::Report,
        t_train: None,
        report: report.unwrap_or(Report::usual()),
        has_position: report.is_some(),
        content: Vec::new(alloc),
    }
}

fn read_kind<'a>(words: &mut Words<'_, 'a>, draft: &mut Draft) -> Result<(), RowFault<'a>> {
    draft.kind = match words.one_of("a message", &NAMES)? {
        Name::Open => Kind::InitiationOfSession,
        Name::Established => Kind::SessionEstablished,
        Name::Close => Kind::TerminationOfSession,
        Name::Data => Kind::TrainData,
        Name::Report => Kind::Report,
        Name::End => Kind::EndOfMission,
        Name::Request => Kind::Request(QMarqstreason::new(1)),
        Name::Start => Kind::StartOfMission(QStatus::Valid),
        Name::Granted => Kind::ShorteningGranted(TTrain::new(read_time(words)?)),
        Name::Rejected => Kind::ShorteningRejected(TTrain::new(read_time(words)?)),
    };
    Ok(())
}

// Reads T_TRAIN of the request that is answered.
fn read_time<'a>(words: &mut Words<'_, 'a>) -> Result<u64, RowFault<'a>>
    ensures { IfOk result (λ n. n < 2 ^ 32) }
{
    let time = words.number(u32::MAX, "T_TRAIN of a request to shorten")?;
    Ok(u64::from(time))
}

fn sending_of<'a>(draft: Draft, centre: u8) -> Result<Sending, RowFault<'a>> {
    let Some(nid_engine) = NidEngine::of(u64::from(draft.nid_engine)) else {
        return Err(RowFault::NoCentre(draft.nid_engine));
    };
    let report = if draft.has_position {
        Some(draft.report)
    } else {
        None
    };
    Ok(Sending {
        t_train: draft.t_train,
        sent: Sent {
            centre,
            nid_engine,
            kind: draft.kind,
            report,
            content: draft.content,
        },
    })
}
