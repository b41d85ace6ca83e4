ghost use Rattle.std.specs.Prelude.{◌≡◌, ◌↔◌, [], IsTrue, IfOk, IfErr, OnErr};
ghost use Rattle.rbc_centre.specs.Views.{outcome_of};
ghost use Rattle.rbc_log.specs.Log.{IsReplaying, IsUnchanged};
ghost use Rattle.rbc_node.specs.Commit.{Fits, Commits, Refuses};

use crate::fault::ShareFault;
use crate::receipt::Receipt;
use rbc_centre::{Event, FrameRoom, Outcome};
use rbc_log::CentreLog;
use std::alloc::Global;
use std::marker::Model;

/// The commits of one thread to the log of one centre: a receipt of each event, in the order of its commits.
#[derive(Debug, Drop)]
pub struct Share {
    centre: u8,
    receipts: Vec<Receipt>,
    /// Room for the frames of a receipt.
    room: FrameRoom,
}

impl Model for Share {
    ghost use Rattle.rbc_node.specs.Receipts.{ShareValue};

    ghost Value = { ShareValue };

    ghost view = { λ s. record { centre = s.centre; receipts = s.receipts.items } };
}

impl Share {
    /// A share of the centre without a commit.
    pub(crate) fn new(alloc: Global, centre: u8) -> Share
        ensures { result ≡ record { centre = centre; receipts = [] } }
    {
        Share {
            centre,
            receipts: Vec::new(alloc),
            room: FrameRoom::new(alloc),
        }
    }

    /// The number of its centre.
    pub fn centre(&self) -> u8
        ensures { result ≡ self.now.centre }
    {
        self.centre
    }

    /// Its receipts, in the order of its commits.
    pub fn receipts(&self) -> &[Receipt]
        ensures { result.now ≡ self.now.receipts }
    {
        self.receipts.as_slice()
    }

    /// Whether the log is of the share's centre and has the share's last receipt at its position. It reads only that
    /// entry.
    fn fits(&self, log: &CentreLog) -> bool
        ensures fits { IsTrue result ↔ Fits self.now log.now }
        ensures replays { IsReplaying log.now }
    {
        if log.core().number() != self.centre {
            return false;
        }
        match self.receipts.last() {
            Some(last) => last.is_in(log.entries()),
            None => true,
        }
    }

    /// The log takes the event, and the share gets its receipt. Room for the receipt is made first.
    pub fn commit(&mut self, log: &mut CentreLog, event: Event) -> Result<Outcome, ShareFault>
        ensures commits { IfOk result (λ o. Commits self.old self.new log.old log.new event (outcome_of o)) }
        ensures refused { IfErr result (Refuses self.old log.old event) }
        ensures share { OnErr result (self.new ≡ self.old) }
        ensures log { OnErr result (IsUnchanged log.old log.new) }
        ensures replayed { IsReplaying log.old }
        ensures replays { IsReplaying log.new }
    {
        if !self.fits(log) {
            return Err(ShareFault::Stray);
        }
        log.may_commit(&event)?;
        self.receipts.reserve(1)?;
        self.room.reserve()?;
        let given = event.copied(*self.receipts.allocator())?;
        let place = log.entries().len();
        let mut outcome = Outcome::nothing();
        log.commit_allowed(event, &mut outcome)?;
        let receipt = Receipt {
            event: given,
            outcome: outcome.copied(&mut self.room),
            place,
        };
        self.receipts.push_reserved(receipt);
        Ok(outcome)
    }
}
