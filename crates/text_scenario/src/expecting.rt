//! Reads an expectation.

use crate::expectation::{BodyKind, Expectation, Message};
use crate::row_fault::RowFault;
use crate::words::Words;
use rbc_world::{Mark, Word};

#[derive(Clone, Copy)]
enum Subject {
    Nothing,
    Refused,
    Silence,
    Section,
    Train,
    Interlocking,
}

static SUBJECTS: [(&str, Subject); 6] = [
    ("nothing", Subject::Nothing),
    ("refused", Subject::Refused),
    ("silence", Subject::Silence),
    ("section", Subject::Section),
    ("train", Subject::Train),
    ("interlocking", Subject::Interlocking),
];

#[derive(Clone, Copy)]
enum Name {
    Plain(Message),
    Numbered,
    Authority,
    Shortening,
    Data,
    Transition,
}

static NAMES: [(&str, Name); 10] = [
    ("message", Name::Numbered),
    ("authority", Name::Authority),
    ("request to shorten", Name::Shortening),
    ("data acknowledged", Name::Data),
    ("transition", Name::Transition),
    ("end of session", Name::Plain(Message::EndSession)),
    ("system version", Name::Plain(Message::SystemVersion)),
    (
        "termination acknowledged",
        Name::Plain(Message::TerminationAcknowledged),
    ),
    ("train rejected", Name::Plain(Message::TrainRejected)),
    ("train accepted", Name::Plain(Message::TrainAccepted)),
];

static BODIES: [(&str, BodyKind); 12] = [
    ("AskRight", BodyKind::AskRight),
    ("GiveRight", BodyKind::GiveRight),
    ("RefuseRight", BodyKind::RefuseRight),
    ("ReturnRight", BodyKind::ReturnRight),
    ("RouteAsk", BodyKind::RouteAsk),
    ("RouteInfo", BodyKind::RouteInfo),
    ("RouteWithdraw", BodyKind::RouteWithdraw),
    ("RouteReturn", BodyKind::RouteReturn),
    ("Announce", BodyKind::Announce),
    ("Cancel", BodyKind::Cancel),
    ("TakingOver", BodyKind::TakingOver),
    ("Yield", BodyKind::Yield),
];

/// Reads an expectation, after `expect`.
pub fn read_expectation<'a>(words: &mut Words<'_, 'a>) -> Result<Expectation, RowFault<'a>> {
    if let [_, "->", ..] = words.rest {
        return read_sent(words);
    }
    match words.one_of("an expectation", &SUBJECTS)? {
        Subject::Nothing => Ok(Expectation::Nothing),
        Subject::Refused => Ok(Expectation::Refused),
        Subject::Silence => read_silence(words),
        Subject::Section => read_section(words),
        Subject::Train => read_supervisor(words),
        Subject::Interlocking => read_reply(words),
    }
}

// Reads `A -> 1: authority` or `A -> B: Announce`.
fn read_sent<'a>(words: &mut Words<'_, 'a>) -> Result<Expectation, RowFault<'a>> {
    let centre = words.centre()?;
    words.takes("->");
    if let Some(nid_engine) = words.takes_number() {
        let message = read_message(words)?;
        return Ok(Expectation::Message {
            centre,
            nid_engine,
            message,
        });
    }
    let to = words.centre()?;
    let body = words.one_of("the name of a frame", &BODIES)?;
    Ok(Expectation::Frame {
        from: centre,
        to,
        body,
    })
}

fn read_message<'a>(words: &mut Words<'_, 'a>) -> Result<Message, RowFault<'a>> {
    Ok(match words.one_of("a message to a train", &NAMES)? {
        Name::Plain(message) => message,
        Name::Numbered => Message::Numbered(words.number(255, "NID_MESSAGE up to 255")?),
        Name::Authority => Message::Authority(read_end(words, "to")?),
        Name::Shortening => Message::ShorteningRequest(read_end(words, "to")?),
        Name::Data => Message::DataAcknowledged(words.takes_number()),
        Name::Transition => {
            let nid_rbc = read_accepting(words)?;
            let border = read_end(words, "at")?;
            Message::Transition { nid_rbc, border }
        }
    })
}

// Reads `to 4000 m`, if the word before the metres is the next one.
fn read_end<'a>(
    words: &mut Words<'_, 'a>,
    before: &'static str,
) -> Result<Option<u32>, RowFault<'a>> {
    if !words.takes(before) {
        return Ok(None);
    }
    let metres = words.number(u32::MAX, "metres of a track")?;
    words.takes("m");
    Ok(Some(metres))
}

// Reads `to B`, if it is next: NID_RBC of that centre.
fn read_accepting<'a>(words: &mut Words<'_, 'a>) -> Result<Option<u32>, RowFault<'a>> {
    if !words.takes("to") {
        return Ok(None);
    }
    let centre = words.centre()?;
    match words.line.nid_rbc(centre) {
        Some(nid_rbc) => Ok(Some(u32::from(nid_rbc))),
        None => Ok(None),
    }
}

fn read_silence<'a>(words: &mut Words<'_, 'a>) -> Result<Expectation, RowFault<'a>> {
    if words.rest.is_empty() {
        return Ok(Expectation::Silence(None));
    }
    let reason = words.number(10, "a reason up to 10")?;
    Ok(Expectation::Silence(Some(reason)))
}

#[derive(Clone, Copy)]
enum Use {
    Shut,
    Open,
    Kept,
    Given,
}

static USES: [(&str, Use); 4] = [
    ("shut", Use::Shut),
    ("open", Use::Open),
    ("kept", Use::Kept),
    ("given", Use::Given),
];

// Reads `section 3: given 1`.
fn read_section<'a>(words: &mut Words<'_, 'a>) -> Result<Expectation, RowFault<'a>> {
    let section = words.section()?;
    let mark = match words.one_of("the use of a section", &USES)? {
        Use::Shut => Mark::Shut,
        Use::Open => Mark::Open,
        Use::Kept => {
            let nid_engine = words.engine()?;
            Mark::Kept { nid_engine }
        }
        Use::Given => {
            let nid_engine = words.engine()?;
            Mark::Given { nid_engine }
        }
    };
    Ok(Expectation::Section { section, mark })
}

static SUPERVISION: [(&str, bool); 2] = [("supervised by", true), ("not supervised", false)];

// Reads `train 1: supervised by A` or `train 1: not supervised`.
fn read_supervisor<'a>(words: &mut Words<'_, 'a>) -> Result<Expectation, RowFault<'a>> {
    let nid_engine = words.engine()?;
    let is_supervised = words.one_of("the supervisor", &SUPERVISION)?;
    let supervisor = if is_supervised {
        Some(words.centre()?)
    } else {
        None
    };
    Ok(Expectation::Train {
        nid_engine,
        supervisor,
    })
}

#[derive(Clone, Copy)]
enum Reply {
    Done,
    Asked,
    NotHome,
    Told,
}

static REPLIES: [(&str, Reply); 4] = [
    ("Done", Reply::Done),
    ("Asked", Reply::Asked),
    ("NotHome", Reply::NotHome),
    ("Told", Reply::Told),
];

// Reads `interlocking: A 3 Done`, as it is printed.
fn read_reply<'a>(words: &mut Words<'_, 'a>) -> Result<Expectation, RowFault<'a>> {
    let centre = words.centre()?;
    let section = words.section()?;
    let word = match words.one_of("a reply to the interlocking", &REPLIES)? {
        Reply::Done => Word::Done(section),
        Reply::Asked => Word::Asked(section),
        Reply::NotHome => Word::NotHome(section),
        Reply::Told => Word::Told(section),
    };
    Ok(Expectation::Reply { centre, word })
}
