ghost use Rattle.std.specs.Prelude.{◌≡◌, ℕ, [], map, IfOk, IfErr};
ghost use Rattle.rbc_spec.specs.World.{new_world, world_run, all_named};
ghost use Rattle.rbc_spec.specs.LineCentre.{line_beginning};
ghost use Rattle.rbc_spec.specs.Run as line_run;
ghost use Rattle.rbc_spec.specs.ReadOff.{IsLineRun, read_off};
ghost use Rattle.rbc_spec.specs.Promises.{IsSound};
ghost use Rattle.rbc_spec.specs.Theorems.{IsOneCentreLine, IsOneCentreRun, ForcedRun};
ghost use Rattle.law_outside.specs.Outside.{IsSafeOutside, sees_all, nothing_seen};
ghost use Rattle.rbc_world.specs.World.{state_of};
ghost use Rattle.rbc_world.specs.Views.{event_of, answer_of, spoken_by};
ghost use Rattle.rbc_world.specs.Answers.{Gives, IsRefusedRun};

use crate::event::{Answer, WorldEvent};
use crate::world::{World, known_line};
use indexmap::IndexSet;
use rbc_centre::StepFault;
use rbc_line::Line;
use std::alloc::Global;

/// The result of a list of events.
#[derive(Drop)]
pub struct Outputs {
    /// The answer to each event.
    pub answers: Vec<Answer>,
    /// The world that the events left.
    pub world: World,
}

impl Outputs {
    /// The trains of the line that messages have named, in the order of first mention.
    pub fn trains(&self) -> &IndexSet<u32>
        ensures { result.now.keys ≡ (state_of self.now.world).trains }
    {
        self.world.trains()
    }
}

impl World {
    /// Runs the events in order, from the line's initial state, and stops at the first refusal.
    pub fn run(alloc: Global, line: &Line, events: &[WorldEvent]) -> Result<Outputs, StepFault>
        // The answers and states of the centres are a run of the one line centre.
        ensures run { IfOk result
            (λ o. IsLineRun line.now (map event_of events.now) (map answer_of o.answers.items) (state_of o.world)) }
        // By the messages to trains, no two trains may run over one section. None may run over one that the
        // interlocking has not released, or has taken back.
        ensures outside { IfOk result (λ o. IsSafeOutside line.now
            (sees_all line.now (map event_of events.now) (map spoken_by o.answers.items) nothing_seen)) }
        // It ends in the state that is read off them.
        ensures last { IfOk result
            (λ o. line_run.Run line.now line_beginning (map event_of events.now) (map answer_of o.answers.items)
            (read_off line.now (state_of o.world))) }
        // So each train has at most one supervisor, and each section at most one train. No section in use and no right
        // is lost or in two places.
        ensures sound { IfOk result (λ o. IsSound line.now (state_of o.world)) }
        // On a one-centre line the run leaves no choice.
        ensures one_centre { (c : ℕ) → IsOneCentreLine line.now c
            → IfOk result (λ o. IsOneCentreRun line.now (map event_of events.now) (map answer_of o.answers.items)
            (state_of o.world)) }
        ensures one_centre_last { (c : ℕ) → IsOneCentreLine line.now c
            → IfOk result (λ o. ForcedRun line.now line_beginning (map event_of events.now)
            (map answer_of o.answers.items) (read_off line.now (state_of o.world))) }
        // The trains are those that messages at centres of the line named, each once, by first mention.
        ensures trains { IfOk result
            (λ o. (state_of o.world).trains ≡ all_named line.now (map event_of events.now) []) }
        // While memory suffices, a run is refused if and only if one of its steps is.
        ensures refused { IfErr result (IsRefusedRun line.now (map event_of events.now)) }
        ensures exact { Gives (λ o. (map answer_of o.answers.items, state_of o.world)) result
            (world_run line.now (new_world line.now) (map event_of events.now)) }
    {
        known_line(line);
        World::outputs(alloc, line, events)
    }

    fn outputs(alloc: Global, line: &Line, events: &[WorldEvent]) -> Result<Outputs, StepFault>
        ensures { Gives (λ o. (map answer_of o.answers.items, state_of o.world)) result
            (world_run line.now (new_world line.now) (map event_of events.now)) }
    {
        let mut world = World::new(alloc, line)?;
        let mut answers = Vec::with_capacity(alloc, events.len())?;
        for event in events {
            answers.push(world.step(event)?)?;
        }
        Ok(Outputs { answers, world })
    }
}
