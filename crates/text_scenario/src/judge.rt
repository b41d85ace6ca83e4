//! Judges an expectation of the answer to an event.

ghost use Rattle.std.specs.Prelude.{◌≡◌, ◌==◌, ◌&&◌, ◌↔◌, IfOk, IsTrue, length, nat_lt, option_and_then, slice_get};
ghost use Rattle.std.specs.List.{find, list_any};
ghost use Rattle.rbc_spec.specs.Maps.{has};
ghost use Rattle.rbc_spec.specs.ReadOff.{read_off};
ghost use Rattle.rbc_world.specs.View.{mark_shown, seat_of};
ghost use Rattle.rbc_world.specs.Views.{answer_of};
ghost use Rattle.rbc_world.specs.World.{line_of, state_of};
ghost use Rattle.rbc_world.specs.rbc_centre.Views.{outcome_of, word_of};
ghost use Rattle.rbc_world.specs.rbc_train.Reasons.{reason_of};
ghost use Rattle.text_script.specs.Print.Answers.{SaysNothing};
ghost use Rattle.text_script.specs.Print.Rows.{reason_number};
ghost use Rattle.text_script.specs.Print.Shown.{seat_at};
ghost use Rattle.text_scenario.specs.Meets.{AnswerMeets, Meets, OutcomeMeets};
ghost use Rattle.text_scenario.specs.Meets.{fits, is_mark, is_or_any, is_reply, kind_number, kind_of};

use crate::expectation::{BodyKind, Expectation, Message};
use crate::fits::fits;
use rbc_line::Line;
use rbc_world::{Answer, LineView, Mark, Outcome, Reason, Word, World};
use std::alloc::{AllocError, Global};

/// The centre of the last event, and its answer.
#[derive(Drop)]
pub struct Last {
    pub centre: u8,
    pub answer: Answer,
}

/// Whether the answer to an event at a centre, or the line after it, meets the expectation.
pub fn meets(
    alloc: Global,
    world: &World,
    line: &Line,
    last: &Last,
    expectation: &Expectation,
) -> Result<bool, AllocError>
    requires { line.now ≡ line_of world.now }
    ensures { IfOk result (λ b. IsTrue b
        ↔ Meets line.now (state_of world.now) last.now.centre (answer_of last.now.answer) expectation.now) }
{
    match *expectation {
        Expectation::Section { section, mark } => section_meets(alloc, world, section, mark),
        Expectation::Train {
            nid_engine,
            supervisor,
        } => train_meets(alloc, world, nid_engine, supervisor),
        Expectation::Nothing
        | Expectation::Refused
        | Expectation::Silence(_)
        | Expectation::Message { .. }
        | Expectation::Frame { .. }
        | Expectation::Reply { .. } => Ok(answer_meets(
            line,
            last.centre,
            &last.answer,
            expectation,
        )),
    }
}

// Whether the line has the section, and it has this use.
#[tactic(auto, using(crate::proofs::Seen::use_found))]
fn section_meets(alloc: Global, world: &World, section: u16, mark: Mark) -> Result<bool, AllocError>
    ensures { IfOk result (λ b. b ≡ (nat_lt section (length (line_of world.now).sections)
        && is_mark mark ((read_off (line_of world.now) (state_of world.now)).mark section))) }
{
    let view = world.view(alloc)?;
    Ok(has_use(&view, section, mark))
}

fn has_use(view: &LineView, section: u16, mark: Mark) -> bool
    ensures { result ≡ has (λ p. is_mark mark (mark_shown p.mark)) (slice_get view.now.sections.items section) }
{
    match view.sections.get(section as usize) {
        Some(found) => is_mark(mark, found.mark),
        None => false,
    }
}

fn is_mark(wanted: Mark, found: Mark) -> bool
    ensures { result ≡ is_mark wanted (mark_shown found) }
{
    match (wanted, found) {
        (Mark::Shut, Mark::Shut) => true,
        (Mark::Open, Mark::Open) => true,
        (Mark::Kept { nid_engine: t }, Mark::Kept { nid_engine: u }) => t == u,
        (Mark::Given { nid_engine: t }, Mark::Given { nid_engine: u }) => t == u,
        _ => false,
    }
}

// Whether this centre supervises the train, or none does.
fn train_meets(
    alloc: Global,
    world: &World,
    nid_engine: u32,
    supervisor: Option<u8>,
) -> Result<bool, AllocError>
    ensures { IfOk result (λ b. IsTrue b
        ↔ (seat_at (line_of world.now) (read_off (line_of world.now) (state_of world.now)) nid_engine ≡ supervisor)) }
{
    let view = world.view(alloc)?;
    Ok(is_supervised(&view, nid_engine, supervisor))
}

fn is_supervised(view: &LineView, nid_engine: u32, supervisor: Option<u8>) -> bool
    ensures { IsTrue result
        ↔ (option_and_then seat_of (find (λ x. x.nid_engine == nid_engine) view.now.trains.items) ≡ supervisor) }
{
    match (supervisor_in(view, nid_engine), supervisor) {
        (Some(found), Some(wanted)) => found == wanted,
        (None, None) => true,
        _ => false,
    }
}

/// The centre that supervises a train, if one does.
pub fn supervisor_in(view: &LineView, nid_engine: u32) -> Option<u8>
    ensures { result ≡ option_and_then seat_of (find (λ x. x.nid_engine == nid_engine) view.now.trains.items) }
{
    for train in &view.trains {
        if train.nid_engine == nid_engine {
            return train.supervisor();
        }
    }
    None
}

// Whether the answer meets the expectation.
fn answer_meets(line: &Line, centre: u8, answer: &Answer, expectation: &Expectation) -> bool
    ensures { IsTrue result ↔ AnswerMeets line.now centre (answer_of answer.now) expectation.now }
{
    match answer {
        Answer::Outcome(outcome) => outcome_meets(line, centre, outcome, expectation),
        Answer::NoCentre | Answer::NotSent | Answer::Fault(_) => {
            matches!(expectation, Expectation::Refused)
        }
    }
}

fn outcome_meets(line: &Line, at: u8, outcome: &Outcome, expectation: &Expectation) -> bool
    ensures { IsTrue result ↔ OutcomeMeets line.now at (outcome_of outcome.now) expectation.now }
{
    match *expectation {
        Expectation::Nothing => sends_nothing(outcome),
        Expectation::Silence(reason) => is_silent(outcome.silence, reason),
        Expectation::Message {
            centre,
            nid_engine,
            message,
        } => centre == at && says(line, outcome, nid_engine, message),
        Expectation::Frame { from, to, body } => from == at && sends(outcome, to, body),
        Expectation::Reply { centre, word } => centre == at && replies(outcome, word),
        Expectation::Refused | Expectation::Section { .. } | Expectation::Train { .. } => false,
    }
}

// Whether the step was silent, for this reason if one is given.
fn is_silent(silence: Option<Reason>, reason: Option<u32>) -> bool
    ensures { result ≡ has (λ why. is_or_any reason (reason_number (reason_of why))) silence }
{
    match (silence, reason) {
        (Some(why), Some(wanted)) => wanted == u32::from(why.number()),
        (Some(_), None) => true,
        (None, _) => false,
    }
}

// Whether the train is sent the message.
fn says(line: &Line, outcome: &Outcome, nid_engine: u32, message: Message) -> bool
    ensures { result ≡ list_any (λ s. (s.nid_engine == nid_engine) && fits line.now message s.message)
        (outcome_of outcome.now).sayings }
{
    outcome.sayings.iter().any(|s| s.nid_engine == nid_engine && fits(line, message, &s.message))
}

// Whether the centre is sent a frame with the body.
fn sends(outcome: &Outcome, to: u8, body: BodyKind) -> bool
    ensures { result ≡ list_any (λ f. kind_number (kind_of f.body) == kind_number body)
        ((outcome_of outcome.now).frames to) }
{
    let number = body.number();
    outcome
        .frames
        .to(to)
        .iter()
        .any(|frame| BodyKind::of(frame.body()).number() == number)
}

// Whether the interlocking is replied to so.
fn replies(outcome: &Outcome, word: Word) -> bool
    ensures { result ≡ list_any (λ reply. is_reply word reply) (outcome_of outcome.now).words }
{
    outcome.words().iter().any(|reply| is_reply(word, *reply))
}

fn is_reply(wanted: Word, reply: Word) -> bool
    ensures { result ≡ is_reply wanted (word_of reply) }
{
    match (wanted, reply) {
        (Word::Done(s), Word::Done(t)) => s == t,
        (Word::Asked(s), Word::Asked(t)) => s == t,
        (Word::NotHome(s), Word::NotHome(t)) => s == t,
        (Word::Told(s), Word::Told(t)) => s == t,
        _ => false,
    }
}

// Whether a step sends nothing: to no train, to no other centre, and not to the interlocking.
fn sends_nothing(outcome: &Outcome) -> bool
    ensures { IsTrue result ↔ SaysNothing (outcome_of outcome.now) }
{
    outcome.sayings.is_empty() && outcome.frames.is_empty() && outcome.words().is_empty()
}
