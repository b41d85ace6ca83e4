//! The seconds of a demo.

ghost use Rattle.std.specs.Prelude.{◌&&◌, ◌≡◌, ◌≤◌, false, IfOk, IfSome, length, OnOk};
ghost use Rattle.cli_demo.specs.Running.{next_front};
ghost use Rattle.cli_demo.specs.Trains.{asked_ends, ends_among, ends_of, is_safe_now};
ghost use Rattle.rbc_railway.specs.Railways.{IsSafeRailway};

use crate::check::is_safe;
use crate::demo::Demo;
use crate::fault::{DemoFault, happened};
use crate::interlocking::Interlocking;
use crate::radio::Flight;
use cli_storm::below;
use rbc_railway::{Railway, each_railway_is_safe};
use std::alloc::AllocError;
use std::io::Write;
use text_script::{Answer, Saying};
use train_unit::Ends;
use train_unit::driving::{Driver, LENGTH, MARGIN, section_of};

impl Demo {
    /// Seconds pass until each train has arrived, or there are enough events. Returns whether the check of the true
    /// places never failed.
    pub fn run<W: Write>(&mut self, out: &mut W) -> Result<bool, DemoFault>
        // Whatever was drawn, no two accepted trains are on one section, and none is on a section that is not released.
        ensures safe { OnOk result (IsSafeRailway self.new.railway) }
        ensures told { IfOk result (λ was_safe. was_safe ≡ self.new.tally.is_safe) }
    {
        self.begin(out)?;
        for _ in 0..self.settings.events {
            if self.tally.events >= self.settings.events || self.have_all_arrived() {
                break;
            }
            self.second(out)?;
        }
        self.end(out)?;
        each_railway_is_safe(&self.railway);
        Ok(self.tally.is_safe)
    }

    // A second: the interlocking acts, trains run and send, and messages and frames arrive.
    fn second<W: Write>(&mut self, out: &mut W) -> Result<(), DemoFault> {
        self.now = self.now.saturating_add(100);
        self.release(out)?;
        self.take_back(out)?;
        self.move_all()?;
        self.deliver_all(out)?;
        self.check()?;
        self.show_often(out)
    }

    // Each train runs, and sends its messages.
    fn move_all(&mut self) -> Result<(), DemoFault> {
        for train in 0..self.drivers.len() {
            self.drive(train)?;
            self.speak(train)?;
        }
        Ok(())
    }

    // Messages and frames arrive, by lot.
    fn deliver_all<W: Write>(&mut self, out: &mut W) -> Result<(), DemoFault> {
        for _ in 0..self.radio.count() {
            self.receive(out)?;
        }
        for link in 0..self.links.count() {
            self.deliver(link, out)?;
        }
        Ok(())
    }

    // The next frame of a link arrives, by lot.
    fn deliver<W: Write>(&mut self, link: usize, out: &mut W) -> Result<(), DemoFault> {
        match self
            .links
            .delivery(&mut self.draws, self.settings.loss, link)
        {
            Some(event) => self.happen(&event, out),
            None => Ok(()),
        }
    }

    // The true ends of a train.
    pub(crate) fn ends(&self, train: usize) -> Option<Ends>
        ensures { result ≡ ends_of self.entry.now train }
    {
        Some(self.railway.trains().get(train)?.ends())
    }

    fn have_all_arrived(&self) -> bool {
        for train in 0..self.drivers.len() {
            if !self.has_arrived(train) {
                return false;
            }
        }
        true
    }

    pub(crate) fn has_arrived(&self, train: usize) -> bool
        ensures { length self.entry.now.drivers.items ≤ train → result ≡ false }
    {
        match (self.drivers.get(train), self.ends(train)) {
            (Some(driver), Some(ends)) => driver.has_arrived(ends),
            _ => false,
        }
    }

    // The section of a train's front end.
    pub(crate) fn section_of(&self, train: usize) -> Option<usize> {
        section_of(&self.interlocking.sections, self.ends(train)?)
    }

    // A train runs as far as it may, at a speed by lot.
    fn drive(&mut self, train: usize) -> Result<(), DemoFault> {
        let Some((front, limit, goal)) = self.limits(train) else {
            return Ok(());
        };
        let speed = below(&mut self.draws, 400) as u32 + 200;
        if let Some(front) = next_front(front, limit, goal, speed) {
            let rear = front as i32 - LENGTH as i32;
            happened(self.railway.run_to(train, front, rear))?;
        }
        Ok(())
    }

    // The front end of a train, how far it may run, and its goal. None if it may not run.
    fn limits(&self, train: usize) -> Option<(u32, u64, u32)> {
        let running = self.railway.trains().get(train)?;
        let goal = self.drivers.get(train)?.goal;
        let front = running.ends().front;
        Some((front, running.unit().may_reach(front)?, goal))
    }

    // A message arrives, by lot.
    fn receive<W: Write>(&mut self, out: &mut W) -> Result<(), DemoFault> {
        match self.radio.arrival(&mut self.draws) {
            Some(Flight::Up { message }) => self.arrive(message, out),
            Some(Flight::Down { answer, which }) => self.hear(answer, which, out),
            None => Ok(()),
        }
    }

    // A train receives a message, and its driver learns from it.
    fn hear<W: Write>(
        &mut self,
        answer: usize,
        which: usize,
        out: &mut W,
    ) -> Result<(), DemoFault> {
        if !happened(self.railway.hear(answer, which))? {
            return Ok(());
        }
        match self.learn(answer, which) {
            Some((train, is_first)) => self.follows_other(train, is_first, out),
            None => Ok(()),
        }
    }

    // The driver of the train that received a message learns from it. If the train follows another centre since then,
    // it returns the train, and whether it followed none before.
    fn learn(&mut self, answer: usize, which: usize) -> Option<(usize, bool)>
        ensures { self.new.railway ≡ self.old.railway }
    {
        let told = self.railway.answers().get(answer)?;
        let Answer::Outcome(outcome) = &told.answer else {
            return None;
        };
        let saying = outcome.sayings.as_slice().get(which)?;
        learned(
            &mut self.drivers,
            &self.railway,
            told.centre,
            saying,
            self.now,
        )
    }

    // Looks at the true places of all trains.
    fn check(&mut self) -> Result<(), DemoFault>
        ensures { OnOk result (self.new.tally.is_safe ≡ (self.old.tally.is_safe && is_safe_now self.old)) }
    {
        let was_safe = self.is_safe_now()?;
        self.tally.check(was_safe);
        Ok(())
    }

    // Whether no two trains are on one section, and each section under an accepted one is released.
    fn is_safe_now(&self) -> Result<bool, AllocError>
        ensures { IfOk result (λ was_safe. was_safe ≡ is_safe_now self.entry.now) }
    {
        let all = self.asked_ends(true)?;
        let accepted = self.asked_ends(false)?;
        let Interlocking { sections, released } = &self.interlocking;
        Ok(is_safe(sections, released, &all, &accepted))
    }

    // The true ends of all trains, or of those that a centre has accepted.
    fn asked_ends(&self, is_for_all: bool) -> Result<Vec<Ends>, AllocError>
        ensures { IfOk result (λ ends. ends.items
            ≡ ends_among self.entry.now is_for_all (length self.entry.now.drivers.items)) }
    {
        let mut asked = Vec::new(self.alloc);
        for train in 0..self.drivers.len() {
            if let Some(ends) = self.asked_end(is_for_all, train) {
                asked.push(ends)?;
            }
        }
        Ok(asked)
    }

    fn asked_end(&self, is_for_all: bool, train: usize) -> Option<Ends>
        ensures { result ≡ asked_ends self.entry.now is_for_all train }
    {
        let ends = self.ends(train)?;
        if is_for_all || self.is_accepted(train) {
            Some(ends)
        } else {
            None
        }
    }
}

// The place of a front end after a second at this speed, in decimetres. None if the train stays.
fn next_front(front: u32, limit: u64, goal: u32, speed: u32) -> Option<u32>
    ensures exact { result ≡ next_front front limit goal speed }
    ensures range { IfSome result (λ next. next ≤ 20000000) }
{
    let most = (limit.min(20_000_000) as u32)
        .min(goal)
        .saturating_sub(MARGIN);
    let next = front.saturating_add(speed).min(most);
    if next > front { Some(next) } else { None }
}

// The driver of the train of a message of a centre learns from it. If the train follows another centre since then, it
// returns the train, and whether it followed none before.
fn learned(
    drivers: &mut [Driver],
    railway: &Railway,
    centre: u8,
    saying: &Saying,
    now: u32,
) -> Option<(usize, bool)> {
    for train in 0..drivers.len() {
        if let Some(running) = railway.trains().get(train)
            && running.nid_engine() == saying.nid_engine
            && let Some(driver) = drivers.get_mut(train)
        {
            let is_first = driver.followed.is_none();
            if driver.hears(railway.line(), centre, &saying.message, now) {
                return Some((train, is_first));
            }
        }
    }
    None
}
