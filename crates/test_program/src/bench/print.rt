//! The answers of a world, as lines of text.

use rbc_linkmsg::encode_frame;
use rbc_msgs::encode_track;
use std::alloc::{AllocError, Global};
use std::io;
use std::io::Write;
use text_script::{Answer, LinkAnswer, Outcome, Saying, SentFrame, Word};

/// Prints an answer: the stamp of a step, its messages, frames and replies, and an end (`print_end`). Each message has
/// its engine, and each frame its receiver. If no centre took a step, it prints the reason.
pub fn print_answer<W: Write>(alloc: Global, out: &mut W, answer: &Answer) -> io::Result<()> {
    match answer {
        Answer::Outcome(outcome) => print_outcome(alloc, out, outcome),
        Answer::NoCentre => writeln!(out, "no centre"),
        Answer::NotSent => writeln!(out, "not sent"),
        Answer::Fault(fault) => writeln!(out, "fault {}", fault.number()),
    }
}

fn print_outcome<W: Write>(alloc: Global, out: &mut W, outcome: &Outcome) -> io::Result<()> {
    writeln!(out, "step {}", outcome.stamp)?;
    for saying in outcome.sayings.as_slice() {
        print_saying(alloc, out, saying)?;
    }
    for sent in outcome.frames.as_slice() {
        print_frame(alloc, out, sent)?;
    }
    for word in outcome.words().as_slice() {
        print_word(out, word)?;
    }
    print_end(out, outcome)
}

fn print_saying<W: Write>(alloc: Global, out: &mut W, saying: &Saying) -> io::Result<()> {
    let Ok(bytes) = encode_track(alloc, &saying.message) else {
        return Err(AllocError.into());
    };
    let digits = hex::encode_upper(alloc, &bytes)?;
    writeln!(out, "-> {} {digits}", saying.nid_engine)
}

fn print_frame<W: Write>(alloc: Global, out: &mut W, sent: &SentFrame) -> io::Result<()> {
    let bytes = encode_frame(alloc, &sent.frame)?;
    let digits = hex::encode_upper(alloc, &bytes)?;
    writeln!(out, "=> {} {digits}", sent.to)
}

fn print_word<W: Write>(out: &mut W, word: &Word) -> io::Result<()> {
    let (section, name) = match word {
        Word::Done(section) => (section, "Done"),
        Word::Asked(section) => (section, "Asked"),
        Word::NotHome(section) => (section, "NotHome"),
        Word::Told(section) => (section, "Told"),
    };
    writeln!(out, "{section} {name}")
}

/// Prints whether a frame is old or early, and the reason of silence.
fn print_end<W: Write>(out: &mut W, outcome: &Outcome) -> io::Result<()> {
    match outcome.link {
        Some(LinkAnswer::Old) => writeln!(out, "old")?,
        Some(LinkAnswer::Early) => writeln!(out, "early")?,
        _ => {}
    }
    match outcome.silence {
        Some(why) => writeln!(out, "silent {}", why.number()),
        None => Ok(()),
    }
}
