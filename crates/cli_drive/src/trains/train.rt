//! A train on the line.

ghost use Rattle.std.specs.Prelude.{◌≡◌, ◌≢◌, ◌<◌, ◌≤◌, false, IfOk, IfSome, length, None, OnErr, position, true};
ghost use Rattle.rbc_msgs.specs.StepMessage.{step_message};
ghost use Rattle.rbc_spec.specs.Message.{TrainAccepted};
ghost use Rattle.rbc_msgs.specs.TrainSpelling.{SpellsTrain};
ghost use Rattle.rbc_msgs.specs.TrainText.{TrainText};
ghost use Rattle.train_unit.specs.Standing.{has_front};
ghost use Rattle.train_unit.specs.Trains as rules;

use rand::RngExt;
use rand_pcg::Pcg32;
use rbc_line::{Line, Section};
use rbc_msgs::{TrackBody, TrackMsg, TrainMsg, encode_train};
use std::alloc::{AllocError, Global};
use train_unit::driving::{Driver, LENGTH, MARGIN, Place, Speech, message, position, section_of};
use train_unit::{Ends, OnBoardUnit};

/// A train with its true ends, its on-board unit and its driver.
#[derive(Drop)]
pub(crate) struct Train {
    pub(crate) ends: Ends,
    pub(crate) unit: OnBoardUnit,
    pub(crate) driver: Driver,
}

impl Train {
    ghost use Rattle.cli_drive.specs.Obedience.{HasRun, train_at};

    /// A train that has sent and received nothing.
    pub(crate) fn new(place: Place) -> Train
        ensures { result.ends ≡ place.ends }
    {
        Train {
            ends: place.ends,
            unit: OnBoardUnit::new(place.nid_engine),
            driver: Driver::new(place.goal),
        }
    }

    /// It runs as far as it may, at a speed by lot.
    pub(crate) fn run(&mut self, draws: &mut Pcg32)
        ensures { HasRun self.old self.new }
    {
        let speed = draws.random_range(200..600u32);
        if let Some(front) = self.next_front(speed) {
            self.run_to(front);
        }
    }

    // The next place of its front end at this speed, in decimetres a second. `None` if it stays.
    fn next_front(&self, speed: u32) -> Option<u32>
        ensures range { IfSome result (λ front. front ≤ 20000000) }
        ensures ahead { IfSome result (λ front. self.now.ends.front < front) }
        ensures may { IfSome result (λ front. rules.may_reach front (train_at self.now) ≡ true) }
    {
        let limit = self.unit.may_reach(self.ends.front)?.min(20_000_000) as u32;
        let most = limit.min(self.driver.goal).saturating_sub(MARGIN);
        let front = self.ends.front.saturating_add(speed).min(most);
        (front > self.ends.front).then_some(front)
    }

    // Its front end runs to this place. It does not run if its rear end would run back.
    fn run_to(&mut self, front: u32)
        requires range { front ≤ 20000000 }
        requires ahead { self.old.ends.front < front }
        requires may { rules.may_reach front (train_at self.old) ≡ true }
        ensures { HasRun self.old self.new }
    {
        let rear = front as i32 - LENGTH as i32;
        if self.ends.rear <= rear {
            self.ends.front = front;
            self.ends.rear = rear;
        }
    }

    /// The section of its front end.
    pub(crate) fn section(&self, sections: &[Section]) -> Option<usize>
        ensures { result ≡ position (λ section. has_front section self.now.ends) sections.now }
    {
        section_of(sections, self.ends)
    }

    /// Whether it has arrived, and sent the end of its mission.
    pub(crate) fn has_ended(&self) -> bool {
        self.driver.has_arrived(self.ends) && self.driver.is_done()
    }

    /// The bytes of its next message to a centre, if one is due. The train is then the one after that message.
    pub(crate) fn speak(
        &mut self,
        alloc: Global,
        line: &Line,
        centre: u8,
        section: Section,
        now: u32,
    ) -> Result<Option<Vec<u8>>, AllocError>
        ensures sent { IfOk result (λ said. IfSome said (λ bytes. (m : TrainText) × SpellsTrain bytes.items m
            × (rules.may_say line.now centre (step_message m) (train_at self.old) ≡ true)
            × (train_at self.new ≡ rules.says centre (step_message m) (train_at self.old)))) }
        ensures silent { IfOk result (λ said. said ≡ None → train_at self.new ≡ train_at self.old) }
        ensures err { OnErr result (train_at self.new ≡ train_at self.old) }
        ensures ends { self.new.ends ≡ self.old.ends }
    {
        self.driver.engage(section.home, now);
        self.driver.reopen(centre, now);
        let stamp = now.max(self.driver.clock.saturating_add(1));
        let Some(speech) = self
            .driver
            .speech(&self.unit, centre, section.home, stamp, self.ends)
        else {
            return Ok(None);
        };
        let is_still = matches!(speech, Speech::EndOfMission);
        let position = position(line.nid_c(), section, self.ends.front, is_still);
        let message = message(alloc, stamp, self.unit.nid_engine(), speech, position)?;
        let Ok(bytes) = encode_train(alloc, &message) else {
            return Err(AllocError);
        };
        if !self.say(line, centre, &message) {
            return Ok(None);
        }
        self.driver.has_sent(centre, speech, stamp);
        Ok(Some(bytes))
    }

    // Sends a message to a centre, if the rules allow it.
    fn say(&mut self, line: &Line, centre: u8, message: &TrainMsg) -> bool
        ensures may { result ≡ true
            → rules.may_say line.now centre (step_message message.now) (train_at self.old) ≡ true }
        ensures sent { result ≡ true → train_at self.new
            ≡ rules.says centre (step_message message.now) (train_at self.old) }
        ensures silent { result ≡ false → train_at self.new ≡ train_at self.old }
    {
        match self.unit.say(line, centre, message, self.ends) {
            Ok(()) => true,
            Err(_) => false,
        }
    }

    /// A message of a centre has come over a connection: by 41 the centre has accepted the train.
    pub(crate) fn came(&mut self, message: &TrackMsg)
        ensures accepted { message.now.body ≡ TrainAccepted → self.new.driver.is_accepted ≡ true }
        ensures other { message.now.body ≢ TrainAccepted → self.new ≡ self.old }
        ensures train { train_at self.new ≡ train_at self.old }
    {
        if matches!(message.body(), TrackBody::TrainAccepted) {
            self.driver.is_accepted = true;
        }
    }

    /// It receives a message of a centre. Returns whether it follows another centre since then.
    pub(crate) fn hear(&mut self, line: &Line, centre: u8, message: &TrackMsg, now: u32) -> bool
        ensures hears { centre < length line.now.centres → train_at self.new
            ≡ rules.hears line.now centre message.now message.now.body (train_at self.old) }
        ensures ends { self.new.ends ≡ self.old.ends }
    {
        if centre >= line.centre_count() {
            return false;
        }
        self.unit.hears(line, centre, message);
        self.driver.hears(line, centre, message, now)
    }
}
