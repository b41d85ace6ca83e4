ghost use Rattle.std.specs.Option.{option_map_or};
ghost use Rattle.std.specs.Prelude.{◌≡◌, option_map, IfOk, IfSome, OnErr};
ghost use Rattle.serve_line.specs.Commits.{IsAnswer, IsAnswerTo, IsShowAnswer, IsShowText, journal_fault};
ghost use Rattle.serve_line.specs.Commits.{MayBeDone, MayBeTaken};
ghost use Rattle.serve_control.specs.Answers.{IsCommitPrint};
ghost use Rattle.serve_line.specs.Journaling.Waiting.{awaited};

use crate::state::{CentreSink, Server, Slot};
use crate::status::{show, write_life};
use rbc_line::Line;
use rbc_node::{Share, ShareFault};
use serve_control::{Command, print_commit};
use serve_journal::{Opened, Sealed};
use serve_workers::writing::Release;
use std::alloc::{AllocError, Global};
use std::sync::Wait;
use text_script::status::{Fault, PrintFault};
use text_script::{Event, Outcome, WorldEvent};

/// The answer to a line that has no valid form.
pub(crate) const SCRIPT_FAULT: &str = "script fault\n";

/// The answer to a line if a journal can't be written. Either the event was not taken, or the line of centres ended
/// before the event was written.
const JOURNAL_FAULT: &str = "journal fault\n";

/// A connection at the control endpoint: the server, and the slot of the connection.
#[derive(Clone, Copy)]
pub(crate) struct Served<'a, 'h> {
    pub server: &'a Server<'h>,
    pub slot: &'a Slot,
}

/// Performs the command of a line at the control endpoint. The answer is the text that a run prints for it, once the
/// journals keep all that it shows. The answer to a refused commit is the number of the fault.
pub(crate) fn answer<R: Wait>(
    rt: &R,
    served: Served<'_, '_>,
    shares: &mut [Share],
    command: Command,
) -> Result<Opened<Vec<u8>>, Fault<'static>>
    ensures ok { IfOk result
        (λ opened. IsAnswerTo served.entry command shares.old shares.new opened.answer.items) }
    ensures err { OnErr result (MayBeDone served.entry.server.now.nodes.now command shares.old shares.new) }
{
    match command {
        Command::Nothing | Command::Stop | Command::StopNow => Ok(Opened::nothing(
            served.server.alloc,
        )),
        Command::Show => show_written(rt, served.server, served.slot),
        Command::Set { centre, section } => {
            let event = WorldEvent::Set { centre, section };
            commit(rt, served, shares, centre, Event::Set(section), &event)
        }
        Command::Unset { centre, section } => {
            let event = WorldEvent::Unset { centre, section };
            commit(rt, served, shares, centre, Event::Unset(section), &event)
        }
    }
}

/// A text that shows no event.
pub(crate) fn fixed(alloc: Global, text: &'static str) -> Result<Opened<Vec<u8>>, AllocError>
    ensures { IfOk result (λ opened. opened.answer.items ≡ text.entry.now) }
{
    let mut opened = Opened::nothing(alloc);
    opened.add_fixed(text)?;
    Ok(opened)
}

// Shows the line, after the journals have each event that it shows. If a journal can't be written, nothing is shown.
fn show_written<R: Wait>(
    rt: &R,
    server: &Server<'_>,
    slot: &Slot,
) -> Result<Opened<Vec<u8>>, Fault<'static>>
    ensures { IfOk result (λ opened. IsShowAnswer server.now opened.answer.items) }
{
    let text = show_text(rt, server)?;
    let is_waiting = slot.is_reserve && server.sinks.iter().any(|sink| sink.queue.is_long());
    if is_waiting {
        return Ok(fixed(server.alloc, JOURNAL_FAULT)?);
    }
    Ok(kept_or_fault(server.alloc, server.open_kept(rt, text))?)
}

// The line as the centres show it, and the usage of the centres if the options ask for it.
fn show_text<R: Wait>(rt: &R, server: &Server<'_>) -> Result<Vec<u8>, Fault<'static>>
    ensures { IfOk result (λ text. IsShowText server.now.line.now server.now.nodes.now
        server.now.options.shows_life text.items) }
{
    let (alloc, line, nodes) = (server.alloc, server.line, server.nodes);
    let mut text = Vec::new(alloc);
    show(rt, alloc, line, nodes, server.mentions, &mut text)?;
    if server.options.shows_life {
        write_life(rt, line, nodes, &mut text)?;
    }
    Ok(text)
}

// Commits an event of the interlocking at a centre.
fn commit<R: Wait>(
    rt: &R,
    served: Served<'_, '_>,
    shares: &mut [Share],
    centre: u8,
    event: Event,
    printed: &WorldEvent,
) -> Result<Opened<Vec<u8>>, Fault<'static>>
    ensures ok { IfOk result
        (λ opened. IsAnswer served.entry centre event printed.now shares.old shares.new opened.answer.items) }
    ensures err { OnErr result (MayBeTaken served.entry.server.now.nodes.now centre event shares.old shares.new) }
{
    let Served { server, slot } = served;
    let place = centre as usize;
    let Some(committer) = server.committer(centre) else {
        return Ok(Opened::nothing(server.alloc));
    };
    if place >= shares.len() {
        return Ok(Opened::nothing(server.alloc));
    }
    let sink = committer.sink;
    let is_waiting = slot.is_reserve && sink.queue.is_long();
    if is_waiting || server.is_stuck(rt, centre) {
        return Ok(fixed(server.alloc, JOURNAL_FAULT)?);
    }
    let answer = committer.commit(rt, &mut shares[place], event);
    let sealed = sealed_answer(server.alloc, server.line, sink, centre, printed, &answer)?;
    Ok(kept_or_fault(server.alloc, opened_by(rt, sink, sealed))?)
}

// Opens an answer once the journal keeps its event. `None` if the journal was given up first.
fn opened_by<R: Wait>(
    rt: &R,
    sink: &CentreSink<'_>,
    sealed: Sealed<Vec<u8>>,
) -> Option<Opened<Vec<u8>>>
    ensures { IfSome result (λ opened. opened.answer ≡ sealed.answer) }
{
    let kept = sink.reaches(rt, sealed.stamp())?;
    sealed.open(&kept)
}

// This answer; without one, that a journal can't be written.
fn kept_or_fault(
    alloc: Global,
    opened: Option<Opened<Vec<u8>>>,
) -> Result<Opened<Vec<u8>>, AllocError>
    ensures { IfOk result (λ answer. answer.answer.items
        ≡ option_map_or (λ kept. kept.answer.items) opened journal_fault) }
{
    match opened {
        Some(opened) => Ok(opened),
        None => fixed(alloc, JOURNAL_FAULT),
    }
}

// The answer to an event of the interlocking at a centre. If the event was committed, the answer waits for it.
fn sealed_answer(
    alloc: Global,
    line: &Line,
    sink: &CentreSink<'_>,
    centre: u8,
    event: &WorldEvent,
    answer: &Result<Outcome, ShareFault>,
) -> Result<Sealed<Vec<u8>>, PrintFault>
    ensures print { IfOk result (λ sealed. IsCommitPrint line.now centre event.now answer.now sealed.answer.items) }
    ensures centre { IfOk result (λ sealed. sealed.centre ≡ centre) }
    ensures stamp { IfOk result (λ sealed. IfOk answer.now
        (λ outcome. sealed.stamp ≡ awaited (option_map (λ j. j.now.begun) sink.now.journal) outcome.stamp)) }
{
    let mut text = Vec::new(alloc);
    print_commit(alloc, &mut text, line, centre, event, answer)?;
    let stamp = match answer {
        Ok(outcome) => sink.awaited(outcome.stamp),
        Err(_) => 0,
    };
    Ok(Sealed::new(text, centre, stamp))
}
