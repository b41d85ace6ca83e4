ghost use Rattle.std.specs.Prelude.{◌≡◌, true, [], IfOk, IfErr, OnErr};
ghost use Rattle.std.specs.Sync.Mutex.{mutex_guard_value};
ghost use Rattle.rbc_spec.specs.Line.{is_centre};
ghost use Rattle.rbc_centre.specs.States.{number_of};
ghost use Rattle.rbc_centre.specs.Views.{outcome_of};
ghost use Rattle.rbc_log.specs.Log.{IsReplaying};
ghost use Rattle.rbc_node.specs.Node.{centre_of, CommitsAt, RefusesAt, IsFrameOf, IsLogOf};
ghost use Rattle.rbc_node.specs.Look.{log_seen};

use crate::fault::ShareFault;
use crate::gate::Gate;
use crate::look::Look;
use crate::share::Share;
use rbc_centre::{Event, Frame, Outcome};
use rbc_line::Line;
use rbc_log::CentreLog;
use std::alloc::{AllocError, Global};
use std::sync::{Mutex, MutexGuard, Wait};

/// A centre that many threads commit to: its log under a lock.
#[derive(Drop)]
pub struct Node {
    centre: u8,
    alloc: Global,
    log: Mutex<CentreLog>,
}

impl Node {
    /// A node of a centre of the line, whose log begins with no entry.
    pub fn new(alloc: Global, line: &Line, centre: u8) -> Result<Node, AllocError>
        requires { is_centre line.now centre ≡ true }
        ensures { IfOk result (λ node. centre_of node ≡ centre) }
    {
        let log = CentreLog::new(alloc, line, centre)?;
        Ok(Node {
            centre: log.core().number(),
            alloc,
            log: Mutex::new(log),
        })
    }

    /// A share of its centre, which has committed nothing. It takes no memory.
    pub fn share(&self) -> Share
        ensures { result ≡ record { centre = centre_of self.now; receipts = [] } }
    {
        Share::new(self.alloc, self.centre)
    }

    /// Takes the lock of the log once, and makes one commit of the share under it. The gate is notified while the lock
    /// is held, and again once it is free. No clause can name the log under the lock: the commit is one to some log of
    /// the centre that replays. So the fault is `Stray` only if the share is of another centre, or has a receipt that
    /// the log lacks.
    pub fn commit<R: Wait, G: Gate>(
        &self,
        rt: &R,
        gate: &G,
        share: &mut Share,
        event: Event,
    ) -> Result<Outcome, ShareFault>
        ensures commits { IfOk result (λ o. CommitsAt (centre_of self.now) share.old share.new event (outcome_of o)) }
        ensures refused { IfErr result (RefusesAt (centre_of self.now) share.old event) }
        ensures err { OnErr result (share.new ≡ share.old) }
    {
        let mut log = self.locked(rt);
        gate.inside(self.centre);
        let answer = share.commit(&mut log, event);
        drop(log);
        gate.after(self.centre);
        answer
    }

    /// The frame of this number that the centre has sent to another, of some log of the centre that replays. `None` if
    /// that log has not sent it yet. It takes the lock once.
    pub fn frame<R: Wait>(&self, rt: &R, to: u8, number: u32) -> Option<Frame>
        ensures { IsFrameOf (centre_of self.now) to number result }
    {
        let log = self.locked(rt);
        log.frame(to, number)
    }

    /// Takes the lock of the log once, until the result is dropped, and lends the log: one of the centre that replays.
    pub fn look<R: Wait>(&self, rt: &R) -> Look<'_>
        ensures { IsLogOf (centre_of self.now) (log_seen result) }
    {
        Look::at(self.locked(rt))
    }

    /// The log that it held.
    pub(crate) fn into_log(self) -> CentreLog
        ensures { IsReplaying result }
    {
        let Node {
            centre: _,
            alloc: _,
            log,
        } = self;
        let log = log.into_inner();
        known_log(&log);
        log
    }

    // Takes the lock of the log. No fact spans the lock and the number beside it, so the number is tested under the
    // lock. It is that of the node, and the first turn is the last.
    fn locked<R: Wait>(&self, rt: &R) -> MutexGuard<'_, CentreLog>
        ensures { number_of (mutex_guard_value result).core ≡ centre_of self.now }
    {
        for _ in rt.forever() {
            let log = self.log.lock(rt);
            if log.number() == self.centre {
                return log;
            }
        }
        unreachable!()
    }
}

// Each log replays.
fn known_log(log: &CentreLog)
    ensures { IsReplaying log.now }
{
    log.entries();
}
