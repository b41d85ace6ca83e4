//! Plays a scenario, and finds the first expectation that does not hold.

ghost use Rattle.std.specs.Prelude.{◌≡◌, IfOk};
ghost use Rattle.rbc_spec.specs.World.{centre_of, world_step};
ghost use Rattle.rbc_world.specs.Answers.{Gives};
ghost use Rattle.rbc_world.specs.Views.{answer_of, event_of};
ghost use Rattle.rbc_world.specs.World.{line_of, state_of};
ghost use Rattle.text_scenario.specs.Holds.{IsMove, IsVerdict};

use crate::judge::{Last, meets};
use crate::statement::Said;
use rbc_line::Line;
use rbc_world::{StepFault, World, WorldEvent};
use std::alloc::{AllocError, Global};
use text_script::script::Entry;

/// A line of a scenario, by its number from 1.
#[derive(Drop)]
pub struct Step {
    pub row: usize,
    pub said: Said,
}

/// The end of a trial.
#[derive(Clone, Copy)]
pub enum Verdict {
    /// Each expectation holds.
    Passed,
    /// The expectation at this place of the list does not hold.
    Differs(usize),
    /// The event at this place of the list is refused.
    Refused(usize, StepFault),
}

/// The move of one line.
#[derive(Clone, Copy)]
pub enum Move {
    /// Its event was answered, or its expectation holds.
    On,
    /// Its expectation does not hold.
    Missed,
    /// The step of its event was refused.
    Refused(StepFault),
}

/// Plays the lines up to the first expectation that does not hold, or to the first event whose step is refused.
pub fn play(
    alloc: Global,
    world: &mut World,
    line: &Line,
    last: &mut Last,
    steps: &[Step],
) -> Result<Verdict, AllocError>
    requires { line.now ≡ line_of world.old }
    ensures line { line_of world.new ≡ line_of world.old }
    ensures verdict { IfOk result
        (IsVerdict line.now (state_of world.old) last.old.centre (answer_of last.old.answer) steps.now) }
{
    for (k, step) in steps.iter().enumerate() {
        match play_one(alloc, world, line, last, &step.said)? {
            Move::On => {}
            Move::Missed => return Ok(Verdict::Differs(k)),
            Move::Refused(fault) => return Ok(Verdict::Refused(k, fault)),
        }
    }
    Ok(Verdict::Passed)
}

fn play_one(
    alloc: Global,
    world: &mut World,
    line: &Line,
    last: &mut Last,
    said: &Said,
) -> Result<Move, AllocError>
    requires { line.now ≡ line_of world.old }
    ensures line { line_of world.new ≡ line_of world.old }
    ensures moved { IfOk result (λ m. IsMove line.now (state_of world.old) last.old.centre (answer_of last.old.answer)
        said.now m (state_of world.new) last.new.centre (answer_of last.new.answer)) }
{
    match said {
        Said::Entry(Entry::Show) => Ok(Move::On),
        Said::Entry(Entry::Event(event)) => Ok(match take(world, last, event) {
            Ok(()) => Move::On,
            Err(fault) => Move::Refused(fault),
        }),
        Said::Expect(expectation) => {
            if meets(alloc, world, line, last, expectation)? {
                Ok(Move::On)
            } else {
                Ok(Move::Missed)
            }
        }
    }
}

// Takes the step of an event.
fn take(world: &mut World, last: &mut Last, event: &WorldEvent) -> Result<(), StepFault>
    ensures line { line_of world.new ≡ line_of world.old }
    ensures step { Gives (λ u. (answer_of last.new.answer, state_of world.new)) result
        (world_step (line_of world.old) (state_of world.old) (event_of event.now)) }
    ensures centre { last.new.centre ≡ centre_of (event_of event.now) }
{
    last.centre = centre_of(event);
    world.step_to(event, &mut last.answer)
}

// The centre at which an event happens.
fn centre_of(event: &WorldEvent) -> u8
    ensures { result ≡ centre_of (event_of event.now) }
{
    match event {
        WorldEvent::Train { centre, .. } => *centre,
        WorldEvent::Set { centre, .. } => *centre,
        WorldEvent::Unset { centre, .. } => *centre,
        WorldEvent::Deliver { to, .. } => *to,
    }
}
