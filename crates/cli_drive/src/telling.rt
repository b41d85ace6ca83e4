//! A client of the interlocking's endpoint. It sends the bytes of [`request_of`], and ends its own side of the
//! connection. Then [`copy_answers`] prints all answers, until the endpoint ends the other side. The verdict on them is
//! that of [`judge`].

ghost use Rattle.std.specs.Prelude.{◌≡◌, ◌<◌, IfErr, IfOk, IfSome, OnOk, length, map, position};
ghost use Rattle.std.specs.Io.KnownBytes.{Appends};
ghost use Rattle.cli_drive.specs.Answers.{AreSendable, IsFaultOf, has_control, is_stop, judged, request, status_of};
ghost use Rattle.cli_drive.specs.Lines.{rows, whole_rows};

mod judging;

use crate::fault::DriveFault;
use crate::steps::{parts, whole_rows_of};
use crate::telling::judging::judged;
use std::alloc::{AllocError, Global};
use std::io::{Read, Write};
use std::str::from_utf8;
use thiserror::Error;

/// The greatest number of bytes of all lines with their line feeds. The system takes this many before an answer is
/// read.
const MOST_BYTES: usize = 65_536;

/// Why lines are not sent. Lines count from 1.
#[derive(Clone, Copy, Debug, Error, PartialEq, Eq)]
pub enum LinesFault {
    #[error("rbcline: memory ran out")]
    Memory,
    #[error("rbcline: line {0} has a control character: give each line as an argument of its own, without a line feed")]
    Control(usize),
    #[error("rbcline: line {0} stops the centres, and no line after it is read: send it last")]
    Stop(usize),
    #[error("rbcline: the lines have more than 65536 bytes: send them in parts")]
    Long,
}

/// The verdict on the answers to lines.
#[derive(Clone, Copy, Debug, PartialEq, Eq)]
pub enum Verdict {
    /// Each line has an answer, and no answer is a fault.
    Done,
    /// A line has no valid form.
    ScriptFault,
    /// A commit is refused.
    Refused,
    /// A journal can't be written.
    JournalFault,
    /// A line has no answer: the connection ended early.
    Short,
}

impl Verdict {
    /// The exit status.
    pub fn status(self) -> u8
        ensures { result ≡ status_of self }
    {
        match self {
            Verdict::Done => 0,
            Verdict::ScriptFault => 3,
            Verdict::Refused => 5,
            Verdict::JournalFault | Verdict::Short => 6,
        }
    }
}

impl From<AllocError> for LinesFault {
    ghost use Rattle.cli_drive.specs.declared.telling.LinesFault.TheVariants.{Memory};

    ghost from_gives = { λ _ fault. fault ≡ Memory };

    fn from(_error: AllocError) -> LinesFault {
        LinesFault::Memory
    }
}

/// The lines of a text. A last line needs no line feed.
pub fn lines_in<'t>(alloc: Global, text: &'t str) -> Result<Vec<&'t str>, AllocError>
    ensures { IfOk result (λ lines. map (λ line. line.now) lines.items ≡ whole_rows (rows text.now)) }
{
    let rows = parts(alloc, text, '\n')?;
    whole_rows_of(&rows).to_vec(alloc)
}

/// The bytes of lines, each with a line feed. Refused are lines with a control character, lines after `stop` or `stop
/// now`, and more than 65 536 bytes.
pub fn request_of(alloc: Global, lines: &[&str]) -> Result<Vec<u8>, LinesFault>
    ensures ok { IfOk result (λ bytes. bytes.items ≡ request (map (λ line. line.now) lines.now)) }
    ensures sendable { OnOk result (AreSendable (map (λ line. line.now) lines.now)) }
    ensures fault { IfErr result (IsFaultOf (map (λ line. line.now) lines.now)) }
{
    if let Some(i) = first_control(lines) {
        return Err(LinesFault::Control(i + 1));
    }
    if let Some(i) = first_stop(lines)
        && i + 1 < lines.len()
    {
        return Err(LinesFault::Stop(i + 1));
    }
    let bytes = joined(alloc, lines)?;
    if bytes.len() > MOST_BYTES {
        return Err(LinesFault::Long);
    }
    Ok(bytes)
}

// The lines, each with a line feed.
fn joined(alloc: Global, lines: &[&str]) -> Result<Vec<u8>, AllocError>
    ensures { IfOk result (λ bytes. bytes.items ≡ request (map (λ line. line.now) lines.now)) }
{
    let mut bytes = Vec::new(alloc);
    for line in lines {
        bytes.extend_from_slice(line.as_bytes())?;
        bytes.push(b'\n')?;
    }
    Ok(bytes)
}

// The place of the first line with a control character.
fn first_control(lines: &[&str]) -> Option<usize>
    ensures place { result ≡ position has_control (map (λ line. line.now) lines.now) }
    ensures range { IfSome result (λ i. i < length lines.now) }
{
    lines.iter().position(|line| has_control(line))
}

fn has_control(line: &str) -> bool
    ensures { result ≡ has_control line.now }
{
    line.as_bytes()
        .iter()
        .any(|byte| *byte < 32 || *byte == 127)
}

// The place of the first line that stops the centres.
fn first_stop(lines: &[&str]) -> Option<usize>
    ensures place { result ≡ position is_stop (map (λ line. line.now) lines.now) }
    ensures range { IfSome result (λ i. i < length lines.now) }
{
    lines.iter().position(|line| is_stop(line))
}

/// Whether a line stops the centres.
pub fn is_stop(line: &str) -> bool
    ensures { result ≡ is_stop line.now }
{
    line == "stop" || line == "stop now"
}

/// Prints all that the endpoint sends until it ends the connection, and returns it. If the connection fails, the bytes
/// before that are printed.
pub fn copy_answers<C: Read, O: Write>(
    alloc: Global,
    connection: &mut C,
    out: &mut O,
) -> Result<Vec<u8>, DriveFault>
    ensures copied { IfOk result (λ text. Appends (O.contents out.old) (O.contents out.new) text.items) }
    ensures all { IfOk result (λ text. IfSome (C.remaining connection.old) (λ all. text.items ≡ all)) }
{
    let mut text = Vec::new(alloc);
    let end = connection.read_to_end(&mut text);
    if out.write_all(&text).is_err() || out.flush().is_err() {
        return Err(DriveFault::Write);
    }
    end?;
    Ok(text)
}

/// The verdict on the answers to these lines. If they have several faults, it is the one with the greatest status. The
/// fault is `Socket` if the answers are not text, or their last line is not whole.
pub fn judge(alloc: Global, lines: &[&str], answers: &[u8]) -> Result<Verdict, DriveFault>
    ensures { IfOk result (λ verdict. verdict ≡ judged (map (λ line. line.now) lines.now) (rows answers.now)) }
{
    if !answers.is_empty() && answers.last() != Some(&b'\n') {
        return Err(DriveFault::Socket);
    }
    let Ok(answers) = from_utf8(answers) else {
        return Err(DriveFault::Socket);
    };
    let rows = parts(alloc, answers, '\n')?;
    Ok(judged(lines, &rows))
}
