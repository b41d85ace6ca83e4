ghost use Rattle.std.specs.Prelude.{◌≡◌};
ghost use Rattle.law_trains.specs.Trains.{TrainsTheorem};
ghost use Rattle.rbc_spec.specs.Line.{IsLine};
ghost use Rattle.rbc_world.specs.World.{line_of, state_of};
ghost use Rattle.rbc_railway.specs.History.{AreOfCentres, HaveOwnNames, WasLed};

use crate::answer::CentreAnswer;
use crate::fleet::Fleet;
use crate::train::RunningTrain;
use law_trains::trains_that_obey_never_meet;
use rbc_line::Line;
use rbc_world::{World, WorldEvent};
use std::alloc::{AllocError, Global};

/// The centres of a line, and the trains that obey on it.
#[derive(Drop)]
pub struct Railway {
    pub(crate) alloc: Global,
    pub(crate) line: Line,
    pub(crate) world: World,
    pub(crate) trains: Vec<RunningTrain>,
    /// The messages that trains have sent, as the events of their arrival.
    pub(crate) sent: Vec<WorldEvent>,
    /// The answers of centres, with their messages to trains.
    pub(crate) told: Vec<CentreAnswer>,
    ghost one_line: { line_of world ≡ line },
    ghost own_names: { HaveOwnNames trains.items },
    ghost of_centres: { AreOfCentres line told.items },
    ghost led: { ∥ WasLed line (state_of world) trains.items sent.items told.items ∥₁ },
}

impl Railway {
    ghost use Rattle.std.specs.Prelude.{IfOk, []};
    ghost use Rattle.rbc_railway.specs.Railways.{HasRun, IsSafeRailway};
    ghost use Rattle.rbc_railway.specs.History.{first_of};

    /// The centres of the line in their initial state, with these trains. A copy of the line is kept.
    pub fn new(alloc: Global, line: &Line, fleet: Fleet) -> Result<Railway, AllocError>
        ensures line { IfOk result (λ r. r.line ≡ line.now) }
        ensures trains { IfOk result (λ r. r.trains.items ≡ fleet.trains.items) }
        // It is the initial state of the closed loop: no moment leads to it.
        ensures beginning { IfOk result (λ r. HasRun r (first_of fleet.trains.items) []) }
        ensures safe { IfOk result IsSafeRailway }
    {
        known(line);
        Ok(Railway {
            alloc,
            line: line.copied(alloc)?,
            world: World::new(alloc, line)?,
            trains: fleet.trains,
            sent: Vec::new(alloc),
            told: Vec::new(alloc),
        })
    }

    /// The line.
    pub fn line(&self) -> &Line
        ensures { result.now ≡ self.now.line }
    {
        &self.line
    }

    /// The trains, by their indices.
    pub fn trains(&self) -> &[RunningTrain]
        ensures { result.now ≡ self.now.trains.items }
    {
        self.trains.as_slice()
    }

    /// All messages that trains have sent, by their indices, as the events of their arrival.
    pub fn sent(&self) -> &[WorldEvent]
        ensures { result.now ≡ self.now.sent.items }
    {
        self.sent.as_slice()
    }

    /// All answers of the centres, by their indices.
    pub fn answers(&self) -> &[CentreAnswer]
        ensures { result.now ≡ self.now.told.items }
    {
        self.told.as_slice()
    }

    /// The centres.
    pub fn world(&self) -> &World
        ensures { result.now ≡ self.now.world }
    {
        &self.world
    }
}

// Every rule of a line holds of each line, and trains that obey never meet.
pub(crate) fn known(line: &Line)
    ensures line { IsLine line.now }
    ensures theorem { TrainsTheorem }
{
    line.centre_count();
    trains_that_obey_never_meet();
}
