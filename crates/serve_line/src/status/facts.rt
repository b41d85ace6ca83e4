//! The facts of a centre's log that notes report.

ghost use Rattle.std.specs.Prelude.{◌≡◌};
ghost use Rattle.rbc_msgs.specs.StepMessage.{step_body};
ghost use Rattle.serve_line.specs.Facts as spec;
ghost use Rattle.text_script.specs.rbc_centre.Views.{event_of, outcome_of, word_of};

use rbc_msgs::{TrackBody, TrainBody, TrainMsg};
use text_script::{Body, Event, Frame, LinkAnswer, Outcome, Saying, SentFrame, Word};

/// A fact of a centre's log. A train is named by its NID_ENGINE, another centre by its number.
#[derive(Clone, Copy)]
pub(crate) enum Fact {
    /// The start of mission of this train is accepted (SUBSET-026 5.4).
    Begun(u32),
    /// This train has ended its mission (5.5).
    Ended(u32),
    /// The supervision of this train is handed over to this centre (3.15.1).
    HandedOver(u32, u8),
    /// The supervision of this train is taken over from this centre (3.15.1).
    TakenOver(u32, u8),
    /// This section was wished back, and is shut now.
    Told(u16),
}

/// The fact of an event, if it has one: an answered end of mission, or a mission that arrives from another centre.
pub(crate) fn fact_of_event(event: &Event, outcome: &Outcome) -> Option<Fact>
    ensures { result ≡ spec.fact_of_event (event_of event.now) (outcome_of outcome.now) }
{
    match event {
        Event::Train(message) => match outcome.silence {
            None => ended_by(message),
            Some(_) => None,
        },
        Event::Deliver { from, frame } => match outcome.link {
            Some(LinkAnswer::Next) => taken_over(*from, frame),
            _ => None,
        },
        Event::Set(_) | Event::Unset(_) => None,
    }
}

fn ended_by(message: &TrainMsg) -> Option<Fact>
    ensures { result ≡ spec.ended_by message.now.nid_engine (step_body message.now.body) }
{
    match message.body() {
        TrainBody::EndOfMission { .. } => Some(Fact::Ended(message.nid_engine())),
        _ => None,
    }
}

fn taken_over(from: u8, frame: &Frame) -> Option<Fact>
    ensures { result ≡ spec.taken_over from frame.now.body }
{
    match frame.body() {
        Body::Yield { engine, .. } => Some(Fact::TakenOver(engine, from)),
        _ => None,
    }
}

/// The fact of a message to a train, if it has one: the start of mission is accepted.
pub(crate) fn fact_of_message(saying: &Saying) -> Option<Fact>
    ensures { result ≡ spec.fact_of_message saying.now.nid_engine saying.now.message.body }
{
    match saying.message.body() {
        TrackBody::TrainAccepted => Some(Fact::Begun(saying.nid_engine)),
        _ => None,
    }
}

/// The fact of a frame to another centre, if it has one: a mission leaves for that centre.
pub(crate) fn fact_of_frame(sent: &SentFrame) -> Option<Fact>
    ensures { result ≡ spec.fact_of_frame sent.now.to sent.now.frame.body }
{
    match sent.frame.body() {
        Body::Yield { engine, .. } => Some(Fact::HandedOver(engine, sent.to)),
        _ => None,
    }
}

/// The fact of a reply to the interlocking, if it has one: a section that was wished back is shut.
pub(crate) fn fact_of_word(word: &Word) -> Option<Fact>
    ensures { result ≡ spec.fact_of_word (word_of word.now) }
{
    match word {
        Word::Told(section) => Some(Fact::Told(*section)),
        _ => None,
    }
}
