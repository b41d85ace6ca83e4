ghost use Rattle.std.specs.Prelude.{◌≡◌, ◌+◌, ◌*◌, ℕ, None, IfErr, IfOk, OnErr, OnOk, nat_eq};
ghost use Rattle.std.specs.HashMap.{get};
ghost use Rattle.rbc_world.specs.declared.event.WorldEvent.TheVariants.{Deliver};
ghost use Rattle.text_scenario.specs.Defaults.{known_after, known_of, last_time, number_or_next};
ghost use Rattle.text_scenario.specs.Defaults.{last_after, last_frame};
ghost use Rattle.text_scenario.specs.Sent.{IsUnsent, Sends};

use crate::fault::SentFault;
use crate::report::Report;
use crate::sent::Sent;
use rbc_world::WorldEvent;
use std::alloc::{AllocError, Global};
use std::collections::HashMap;

/// The last message of a train.
#[derive(Clone, Copy)]
pub struct Known {
    pub t_train: u32,
    pub centre: u8,
    pub report: Option<Report>,
}

/// The values of earlier lines, for the fields that a line leaves out.
#[derive(Drop)]
pub struct Defaults {
    alloc: Global,
    trains: HashMap<u32, Known>,
    /// The frames of a link that are delivered in order, by the numbers of its centres.
    frames: HashMap<u32, u32>,
}

impl Defaults {
    /// No line was read.
    pub fn new(alloc: Global) -> Defaults
        ensures trains { (t : ℕ) → known_of result t ≡ None }
        ensures frames { (from to : ℕ) → last_frame result from to ≡ 0 }
    {
        Defaults {
            alloc,
            trains: HashMap::new(alloc),
            frames: HashMap::new(alloc),
        }
    }

    /// The last message of a train.
    pub fn known(&self, nid_engine: u32) -> Option<Known>
        ensures { result ≡ known_of self.now nid_engine }
    {
        self.trains.get(&nid_engine).copied()
    }

    /// The event of a train's message. Without a T_TRAIN it has the one after the train's last, from 1.
    pub fn send(&mut self, sent: &Sent, t_train: Option<u32>) -> Result<WorldEvent, SentFault>
        ensures sent { IfOk result (Sends sent.now (number_or_next t_train (last_time self.old sent.now.nid_engine))) }
        ensures fault { IfErr result
            (IsUnsent sent.now (number_or_next t_train (last_time self.old sent.now.nid_engine))) }
        ensures known { OnOk result ((t : ℕ) → known_of self.new t
            ≡ known_after sent.now (number_or_next t_train (last_time self.old sent.now.nid_engine)) self.old t) }
        ensures err { OnErr result ((t : ℕ) → known_of self.new t ≡ known_of self.old t) }
        ensures frames { self.new.frames ≡ self.old.frames }
    {
        let nid_engine = sent.nid_engine.value() as u32;
        let t_train = number_or_next(t_train, self.last_of(nid_engine));
        let event = sent.event(self.alloc, t_train)?;
        let known = Known {
            t_train,
            centre: sent.centre,
            report: sent.report,
        };
        match self.trains.insert(nid_engine, known) {
            Ok(_) => Ok(event),
            Err(_) => Err(SentFault::Memory),
        }
    }

    // T_TRAIN of the train's last message, or 0.
    fn last_of(&self, nid_engine: u32) -> u32
        ensures { result ≡ last_time self.now nid_engine }
    {
        match self.trains.get(&nid_engine) {
            Some(known) => known.t_train,
            None => 0,
        }
    }

    /// The delivery of a frame. Without a number it is the next of its link that is not yet delivered in order.
    pub fn deliver(
        &mut self,
        from: u8,
        to: u8,
        number: Option<u32>,
    ) -> Result<WorldEvent, AllocError>
        ensures event { IfOk result
            (λ e. e ≡ Deliver from to (number_or_next number (last_frame self.old from to))) }
        ensures frames { OnOk result (last_frame self.new from to
            ≡ last_after (number_or_next number (last_frame self.old from to)) (last_frame self.old from to)) }
        ensures trains { self.new.trains ≡ self.old.trains }
    {
        let link = link_of(from, to);
        let last = match self.frames.get(&link) {
            Some(last) => *last,
            None => 0,
        };
        let next = number_or_next(None, last);
        let number = number_or_next(number, last);
        if number == next && self.frames.insert(link, number).is_err() {
            return Err(AllocError);
        }
        Ok(WorldEvent::Deliver { from, to, number })
    }
}

// The number, or the one after the last.
fn number_or_next(number: Option<u32>, last: u32) -> u32
    ensures { result ≡ number_or_next number last }
{
    match number {
        Some(number) => number,
        None => last.saturating_add(1),
    }
}

// The key of a link.
fn link_of(from: u8, to: u8) -> u32
    ensures { result ≡ from * 256 + to }
{
    u32::from(from) * 256 + u32::from(to)
}
