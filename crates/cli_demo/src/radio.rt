//! The radio: messages between trains and centres are on the way for any time. They arrive in any order, some twice.

ghost use Rattle.std.specs.Prelude.{[], ◌+◌, ◌++◌, ◌-◌, ◌≡◌, ◌≤◌, ◌^◌, ◌∷◌, length, min, OnErr, OnOk};
ghost use Rattle.cli_demo.specs.Flights.{Arrives, sent_down};

use cli_storm::{Draws, below, in_hundred};
use std::alloc::{AllocError, Global};

/// A message on the way, by its place in the railway.
#[derive(Clone, Copy)]
pub(crate) enum Flight {
    /// A message of a train to a centre.
    Up { message: usize },
    /// A message of a centre to a train: the answer that has it, and which one of the answer it is.
    Down { answer: usize, which: usize },
}

/// The messages on the way.
#[derive(Drop)]
pub(crate) struct Radio {
    flights: Vec<Flight>,
    loss: u8,
    /// How many messages were sent.
    pub(crate) sent: u64,
    /// How many of them were lost.
    pub(crate) lost: u64,
}

impl Radio {
    pub(crate) fn new(alloc: Global, loss: u8) -> Radio
        ensures { (result.flights.items ≡ []) × (result.loss ≡ loss) }
    {
        Radio {
            flights: Vec::new(alloc),
            loss,
            sent: 0,
            lost: 0,
        }
    }

    /// How many messages are on the way.
    pub(crate) fn count(&self) -> usize
        ensures { result ≡ length self.now.flights.items }
    {
        self.flights.len()
    }

    /// A message is sent. It is lost by lot.
    pub(crate) fn send(&mut self, draws: &mut Draws, flight: Flight) -> Result<(), AllocError>
        ensures kept { self.old.loss ≡ 0
            → OnOk result (self.new.flights.items ≡ self.old.flights.items ++ flight ∷ []) }
        ensures lost { 100 ≤ self.old.loss → self.new.flights.items ≡ self.old.flights.items }
        ensures sent { self.new.sent ≡ min (self.old.sent + 1) (2 ^ 64 - 1) }
        ensures loss { self.new.loss ≡ self.old.loss }
        ensures err { OnErr result (self.new.flights.items ≡ self.old.flights.items) }
    {
        self.sent = self.sent.saturating_add(1);
        if in_hundred(draws, self.loss) {
            self.lost = self.lost.saturating_add(1);
            return Ok(());
        }
        self.flights.push(flight)?;
        Ok(())
    }

    /// The messages of the centre's answer of this number are sent.
    pub(crate) fn answer(
        &mut self,
        draws: &mut Draws,
        answer: usize,
        count: usize,
    ) -> Result<(), AllocError>
        ensures kept { self.old.loss ≡ 0 → OnOk result (self.new.flights.items
            ≡ self.old.flights.items ++ sent_down answer count) }
        ensures sent { OnOk result (self.new.sent ≡ min (self.old.sent + count) (2 ^ 64 - 1)) }
    {
        for which in 0..count {
            self.send(draws, Flight::Down { answer, which })?;
        }
        Ok(())
    }

    /// A message on the way that arrives now, by lot. One in eight that arrive will arrive again.
    pub(crate) fn arrival(&mut self, draws: &mut Draws) -> Option<Flight>
        ensures { Arrives self.old.flights.items self.new.flights.items result }
    {
        let count = self.flights.len();
        if count == 0 {
            return None;
        }
        if in_hundred(draws, 50) {
            return None;
        }
        let place = below(draws, count);
        if in_hundred(draws, 12) {
            return Some(self.flights[place]);
        }
        Some(self.flights.swap_remove(place))
    }
}
