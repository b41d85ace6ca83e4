ghost use Rattle.std.specs.Prelude.{◌≡◌, IfOk};

use crate::fault::{DemoFault, happened};
use crate::interlocking::Interlocking;
use crate::links::Links;
use crate::radio::Radio;
use crate::report::{Tally, print_event};
use crate::settings::Settings;
use cli_storm::Draws;
use rbc_line::{Line, Section};
use rbc_msgs::TrackBody;
use rbc_railway::{Fleet, Railway, RunningTrain};
use std::alloc::Global;
use std::io::Write;
use text_script::{Answer, Saying, WorldEvent};
use train_unit::driving::{Driver, Place, placed_on};

/// A line that lives.
#[derive(Drop)]
pub struct Demo {
    pub(crate) alloc: Global,
    pub(crate) settings: Settings,
    pub(crate) railway: Railway,
    /// A driver for each train of the railway.
    pub(crate) drivers: Vec<Driver>,
    pub(crate) interlocking: Interlocking,
    pub(crate) radio: Radio,
    pub(crate) links: Links,
    pub(crate) draws: Draws,
    /// The time, in units of 10 ms.
    pub(crate) now: u32,
    pub(crate) tally: Tally,
}

impl Demo {
    /// A line before its first second, with trains on it.
    pub fn new(alloc: Global, line: &Line, settings: Settings) -> Result<Demo, DemoFault>
        ensures settings { IfOk result (λ demo. (demo.settings ≡ settings) × (demo.draws.x ≡ settings.seed)) }
        ensures time { IfOk result (λ demo. demo.now ≡ 1000) }
        ensures line { IfOk result (λ demo. demo.railway.line ≡ line.now) }
    {
        let links = Links::new(alloc, line)?;
        let interlocking = Interlocking::new(alloc, line)?;
        let (fleet, drivers) = placed(alloc, line, &interlocking.sections, settings.trains)?;
        Ok(Demo {
            alloc,
            settings,
            railway: Railway::new(alloc, line, fleet)?,
            drivers,
            interlocking,
            radio: Radio::new(alloc, settings.loss),
            links,
            draws: Draws { x: settings.seed },
            now: 1_000,
            tally: Tally::new(),
        })
    }

    /// A message of a train arrives at its centre.
    pub(crate) fn arrive<W: Write>(
        &mut self,
        message: usize,
        out: &mut W,
    ) -> Result<(), DemoFault> {
        if !happened(self.railway.arrive(message))? {
            return Ok(());
        }
        if self.settings.is_script
            && let Some(event) = self.railway.sent().get(message)
        {
            print_event(self.alloc, self.railway.line(), event, out)?;
        }
        self.answered(None)
    }

    /// An event of the interlocking or of a link happens.
    pub(crate) fn happen<W: Write>(
        &mut self,
        event: &WorldEvent,
        out: &mut W,
    ) -> Result<(), DemoFault> {
        if !happened(self.railway.happen(event))? {
            return Ok(());
        }
        if self.settings.is_script {
            print_event(self.alloc, self.railway.line(), event, out)?;
        }
        self.answered(Some(event))
    }

    // The centres answered an event: their messages and frames are on the way.
    fn answered(&mut self, event: Option<&WorldEvent>) -> Result<(), DemoFault>
        ensures { self.new.railway ≡ self.old.railway }
    {
        self.tally.happen();
        let Some(number) = self.railway.answers().len().checked_sub(1) else {
            return Ok(());
        };
        self.send_on(number)?;
        if let Some(event) = event {
            self.note_answer(number, event);
        }
        Ok(())
    }

    // The messages and frames of the answer of this number are on the way.
    fn send_on(&mut self, number: usize) -> Result<(), DemoFault>
        ensures { self.new.railway ≡ self.old.railway }
    {
        let Some(last) = self.railway.answers().get(number) else {
            return Ok(());
        };
        let Answer::Outcome(outcome) = &last.answer else {
            return Ok(());
        };
        let sayings = outcome.sayings.as_slice();
        self.links.send(last.centre, &outcome.frames);
        self.radio.answer(&mut self.draws, number, sayings.len())?;
        accept(&mut self.drivers, self.railway.trains(), sayings);
        Ok(())
    }

    // The answer of this number is that to an event of the interlocking or of a link.
    fn note_answer(&mut self, number: usize, event: &WorldEvent)
        ensures { self.new.railway ≡ self.old.railway }
    {
        if let Some(last) = self.railway.answers().get(number)
            && let Answer::Outcome(outcome) = &last.answer
        {
            self.interlocking.replied(event, outcome);
            self.links.answered(event, outcome.link);
        }
    }
}

// The trains of a demo on these sections, at most this many, and their drivers.
fn placed(
    alloc: Global,
    line: &Line,
    sections: &[Section],
    most: u8,
) -> Result<(Fleet, Vec<Driver>), DemoFault> {
    let mut fleet = Fleet::new(alloc);
    let mut drivers = Vec::new(alloc);
    for place in placed_on(alloc, line, sections, most)? {
        place_one(&mut fleet, &mut drivers, place)?;
    }
    Ok((fleet, drivers))
}

// Adds a train at this place, and its driver.
fn place_one(fleet: &mut Fleet, drivers: &mut Vec<Driver>, place: Place) -> Result<(), DemoFault> {
    if happened(fleet.add(place.nid_engine, place.ends))? {
        drivers.push(Driver::new(place.goal))?;
    }
    Ok(())
}

// Each train that was sent message 41 is accepted from now on.
fn accept(drivers: &mut [Driver], trains: &[RunningTrain], sayings: &[Saying]) {
    for saying in sayings {
        if saying.message.body() == TrackBody::TrainAccepted {
            for i in 0..trains.len() {
                if trains[i].nid_engine() == saying.nid_engine
                    && let Some(driver) = drivers.get_mut(i)
                {
                    driver.is_accepted = true;
                }
            }
        }
    }
}
