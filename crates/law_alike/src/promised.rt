//! A world's step has the contract that the laws require.

ghost use Rattle.rbc_world.specs.World.{line_of, state_of};
ghost use Rattle.rbc_world.specs.Views.{event_of};
ghost use Rattle.law_alike.specs.Alike.{IsStep};

use rbc_world::{Answer, StepFault, World, WorldEvent};

/// A world's step is such a step. The only known fact of it here is the contract of `World::step`, so each program that
/// keeps that contract has such steps.
pub fn step_as_promised(world: &mut World, event: &WorldEvent) -> Result<Answer, StepFault>
    ensures { IsStep (line_of world.old) (state_of world.old) (event_of event.now) result (line_of world.new)
        (state_of world.new) }
{
    world.step(event)
}
