//! The contents of a frame between centres, in words.

ghost use Rattle.std.specs.Prelude.{◌≡◌};
ghost use Rattle.text_script.specs.Print.Rows.{body_name};
ghost use Rattle.rbc_linkmsg.specs.Bodies.{body_of};

use rbc_line::Line;
use std::alloc::{AllocError, Global};
use std::fmt;
use std::fmt::Formatter;
use text_script::{Body, SectionRun};
use text_words::Decimetres;

/// A run of sections, by the first and the last.
#[derive(Clone, Copy)]
struct Sections(SectionRun);

impl Sections {
    // The verb after them.
    fn verb(self) -> &'static str {
        if self.0.count > 1 { "are" } else { "is" }
    }
}

impl fmt::Display for Sections {
    fn fmt<W: fmt::Write>(&self, f: &mut Formatter<W>) -> fmt::Result {
        let first = self.0.first;
        match self.0.count {
            0 => write!(f, "no section"),
            1 => write!(f, "section {first}"),
            count => {
                let last = first.saturating_add(count).saturating_sub(1);
                write!(f, "sections {first} to {last}")
            }
        }
    }
}

/// The contents of a frame, in words.
pub(crate) fn contents_in_words(
    alloc: Global,
    line: &Line,
    body: Body,
) -> Result<String, AllocError> {
    match body {
        Body::AskRight { engine } => right_in_words(alloc, engine, "is asked for"),
        Body::GiveRight { engine } => right_in_words(alloc, engine, "is given"),
        Body::RefuseRight { engine } => right_in_words(alloc, engine, "is refused"),
        Body::ReturnRight { engine } => right_in_words(alloc, engine, "goes back"),
        Body::RouteAsk {
            engine,
            first,
            most,
        } => asked_in_words(alloc, engine, first, most),
        Body::RouteInfo { engine, run } => run_in_words(alloc, run, "lent to", engine),
        Body::RouteWithdraw { engine, section } => wished_in_words(alloc, engine, section),
        Body::RouteReturn { engine, run } => run_in_words(alloc, run, "returned from", engine),
        Body::Announce {
            handover,
            engine,
            track,
        } => announced_in_words(alloc, line, handover, engine, track),
        Body::Cancel { handover, engine } => cancelled_in_words(alloc, handover, engine),
        Body::TakingOver { handover, engine } => taken_over_in_words(alloc, handover, engine),
        Body::Yield {
            engine,
            yielding,
            ..
        } => yielded_in_words(alloc, engine, yielding.hand, yielding.place.front),
    }
}

fn right_in_words(alloc: Global, engine: u32, verb: &str) -> Result<String, AllocError> {
    format!(in alloc; "the right of train {engine} {verb}")
}

fn asked_in_words(alloc: Global, engine: u32, first: u16, most: u16) -> Result<String, AllocError> {
    format!(in alloc; "up to {most} sections from {first} on are wanted for train {engine}")
}

fn run_in_words(
    alloc: Global,
    run: SectionRun,
    verb: &str,
    engine: u32,
) -> Result<String, AllocError> {
    let sections = Sections(run);
    let is = sections.verb();
    format!(in alloc; "{sections} {is} {verb} train {engine}")
}

fn wished_in_words(alloc: Global, engine: u32, section: u16) -> Result<String, AllocError> {
    format!(in alloc; "section {section}, lent to train {engine}, is wanted back")
}

fn announced_in_words(
    alloc: Global,
    line: &Line,
    handover: u32,
    engine: u32,
    track: u8,
) -> Result<String, AllocError> {
    let track = line.track_name(track).unwrap_or("?");
    format!(in alloc; "handover {handover} of train {engine} is announced, on {track}")
}

fn cancelled_in_words(alloc: Global, handover: u32, engine: u32) -> Result<String, AllocError> {
    format!(in alloc; "handover {handover} of train {engine} is called off")
}

fn taken_over_in_words(alloc: Global, handover: u32, engine: u32) -> Result<String, AllocError> {
    format!(in alloc; "train {engine} will be taken over, by handover {handover}")
}

fn yielded_in_words(
    alloc: Global,
    engine: u32,
    hand: SectionRun,
    front: i32,
) -> Result<String, AllocError> {
    let sections = Sections(hand);
    let front = Decimetres(front);
    format!(in alloc; "train {engine} is handed over: {sections}, front {front} m")
}

/// The printed name of a frame's body.
pub(crate) fn name_of_body(body: Body) -> &'static str
    ensures { result.now ≡ body_name (body_of body) }
{
    match body {
        Body::AskRight { .. } => "AskRight",
        Body::GiveRight { .. } => "GiveRight",
        Body::RefuseRight { .. } => "RefuseRight",
        Body::ReturnRight { .. } => "ReturnRight",
        Body::RouteAsk { .. } => "RouteAsk",
        Body::RouteInfo { .. } => "RouteInfo",
        Body::RouteWithdraw { .. } => "RouteWithdraw",
        Body::RouteReturn { .. } => "RouteReturn",
        Body::Announce { .. } => "Announce",
        Body::Cancel { .. } => "Cancel",
        Body::TakingOver { .. } => "TakingOver",
        Body::Yield { .. } => "Yield",
    }
}
