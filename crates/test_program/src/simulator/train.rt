//! The trains of a run. They run as their authority allows, and follow the orders of centres, as `law_trains` asks. One
//! engine is not of the line, and does not listen.

use crate::simulator::judge::Said;
use crate::simulator::run::{MEMORY, Run};
use rbc_line::Section;
use rbc_msgs::{TrainMsg, encode_train};
use std::alloc::Global;
use train_unit::driving::{
    Driver, LENGTH, MARGIN, Place, Speech, message, placed_on, position, section_of,
};
use train_unit::{Ends, NextMessage, OnBoardUnit};

/// An engine that the line does not have.
const STRANGER: u32 = 99;

/// The greatest place of a front end, in decimetres.
const MOST_FRONT: u32 = 20_000_000;

/// A train with its true ends, its on-board unit and its driver.
#[derive(Drop)]
pub struct Train {
    pub nid_engine: u32,
    ends: Ends,
    unit: Box<OnBoardUnit, Global>,
    driver: Box<Driver, Global>,
    listens: bool,
    /// The bytes of its last message.
    pub last: Vec<u8>,
    /// By the centres' numbers: the connection that it uses.
    pub calls: Vec<Option<usize>>,
}

/// Which message a train sends.
#[derive(Clone, Copy, PartialEq, Eq)]
pub enum Manner {
    /// The one that is due.
    Due,
    /// The one that is due, or else its last message again.
    DueOrLast,
    /// The first message of a session, though it is not due.
    Initiation,
}

impl Train {
    // A train that has sent and received nothing.
    fn new(run: &Run, place: &Place, listens: bool) -> Option<Train> {
        let unit = Box::new(run.alloc, OnBoardUnit::new(place.nid_engine)).ok()?;
        let driver = Box::new(run.alloc, Driver::new(place.goal)).ok()?;
        Some(Train {
            nid_engine: place.nid_engine,
            ends: place.ends,
            unit,
            driver,
            listens,
            last: Vec::new(run.alloc),
            calls: vec![in run.alloc; None; run.platters.len()].ok()?,
        })
    }

    /// It runs as far as it may, at most 200 metres.
    pub fn run(&mut self, run: &Run) {
        let limit = self.unit.may_reach(self.ends.front).unwrap_or(0);
        let limit = limit.min(u64::from(MOST_FRONT)) as u32;
        let most = limit.min(self.driver.goal).saturating_sub(MARGIN);
        let far = self.ends.front.saturating_add(run.some_below(2_000));
        let front = far.min(most);
        if front > self.ends.front && front <= MOST_FRONT {
            self.ends.front = front;
            self.ends.rear = front as i32 - LENGTH as i32;
        }
    }

    /// It uses no connection any more.
    pub fn hang_up(&mut self) {
        for call in &mut self.calls {
            *call = None;
        }
    }

    /// Makes its next message to a centre, if it sends one.
    pub fn speak(&mut self, run: &Run, centre: u8, manner: Manner) -> bool {
        let at = section_of(&run.sections, self.ends).unwrap_or(usize::MAX);
        let Some(section) = run.sections.get(at) else {
            return false;
        };
        let stamp = run.now.get().max(self.driver.clock.saturating_add(1));
        match self.speech(run, centre, section.home, manner) {
            Some(speech) => {
                let is_still = matches!(speech, Speech::EndOfMission);
                let position = position(run.line.nid_c(), *section, self.ends.front, is_still);
                match message(run.alloc, stamp, self.nid_engine, speech, position) {
                    Ok(message) => {
                        let is_sent = self.say(run, centre, &message, manner);
                        if is_sent {
                            self.driver.has_sent(centre, speech, stamp);
                        }
                        is_sent
                    }
                    Err(_) => false,
                }
            }
            None => manner == Manner::DueOrLast && !self.last.is_empty(),
        }
    }

    fn speech(&mut self, run: &Run, centre: u8, home: u8, manner: Manner) -> Option<Speech> {
        let now = run.now.get();
        let stamp = now.max(self.driver.clock.saturating_add(1));
        self.driver.engage(home, now);
        self.driver.reopen(centre, now);
        if manner == Manner::Initiation {
            return Some(Speech::Next(NextMessage::InitiationOfSession));
        }
        self.driver
            .speech(&self.unit, centre, home, stamp, self.ends)
    }

    // Its unit may send the message. An initiation is sent though it may not.
    fn say(&mut self, run: &Run, centre: u8, message: &TrainMsg, manner: Manner) -> bool {
        let said = self.unit.say(&run.line, centre, message, self.ends);
        if said.is_err() && manner != Manner::Initiation {
            return false;
        }
        match encode_train(run.alloc, message) {
            Ok(bytes) => self.last = bytes,
            Err(_) => run.note(MEMORY),
        }
        true
    }

    /// It receives a message of a centre, or it does not, by lot.
    pub fn hear(&mut self, run: &Run, said: &Said) {
        let line = &*run.line;
        if self.listens && !run.in_hundred(5) && said.centre < line.centre_count() {
            self.unit.hears(line, said.centre, &said.message);
            self.driver
                .hears(line, said.centre, &said.message, run.now.get());
        }
    }
}

/// A drawn number of the trains of the line, as far as there is a place for them. The last engine is not of the line.
pub fn trains_on(run: &Run) -> Vec<Train> {
    let mut trains = Vec::new(run.alloc);
    let count = run
        .below(usize::from(run.line.train_count()))
        .saturating_add(1);
    let places = placed_on(
        run.alloc,
        &run.line,
        &run.sections,
        u8::try_from(count).unwrap_or(1),
    );
    let places = places.unwrap_or(Vec::new(run.alloc));
    for place in &places {
        add_train(run, &mut trains, place, true);
    }
    if let Some(first) = places.first() {
        let mut stranger = *first;
        stranger.nid_engine = STRANGER;
        add_train(run, &mut trains, &stranger, false);
    }
    trains
}

fn add_train(run: &Run, trains: &mut Vec<Train>, place: &Place, listens: bool) {
    match Train::new(run, place, listens) {
        Some(train) => run.add(trains, train),
        None => run.note(MEMORY),
    }
}
