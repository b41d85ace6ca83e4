//! The example of `rbc_world`: the centres of a line take two events.

use crate::codec::bytes::bytes_of;
use crate::line::INITIATION;
use rbc_line::Line;
use rbc_world::{Answer, World, WorldEvent};
use std::alloc::Global;
use std::test::*;

/// The messages to trains after a message that opens a session, and the sections of the line of this file.
pub fn answered(alloc: Global, text: &str) -> Result<(usize, usize), Fail> {
    let line = Line::from_toml(alloc, text)?;
    let mut world = World::new(alloc, &line)?;
    answered_by(alloc, &mut world)
}

fn answered_by(alloc: Global, world: &mut World) -> Result<(usize, usize), Fail> {
    let messages = messages_in(last_answer(alloc, world)?);
    let view = world.view(alloc)?;
    Ok((messages, view.sections.len()))
}

// The world takes a set, and then a message that opens a session. The result is the answer to the message.
fn last_answer(alloc: Global, world: &mut World) -> Result<Answer, Fail> {
    let bytes = bytes_of(alloc, INITIATION)?;
    let mut answer = Answer::nothing();
    world.step_to(
        &WorldEvent::Set {
            centre: 0,
            section: 1,
        },
        &mut answer,
    )?;
    world.step_to(&WorldEvent::Train { centre: 0, bytes }, &mut answer)?;
    Ok(answer)
}

fn messages_in(answer: Answer) -> usize {
    let messages = match &answer {
        Answer::Outcome(outcome) => outcome.sayings.len(),
        Answer::Fault(_) | Answer::NoCentre | Answer::NotSent => 0,
    };
    messages
}
