ghost use Rattle.std.specs.Prelude.{◌≡◌};
ghost use Rattle.std.specs.Sync.Mutex.{mutex_guard_value};
ghost use Rattle.rbc_log.specs.Log.{IsReplaying};
ghost use Rattle.rbc_node.specs.Look.{log_seen};

use rbc_log::CentreLog;
use std::sync::MutexGuard;

/// The log of a node that is looked at. The node takes no commit for as long as this is kept.
#[derive(Drop)]
pub struct Look<'a> {
    log: MutexGuard<'a, CentreLog>,
}

impl<'a> Look<'a> {
    /// A look at a log whose lock was taken.
    pub(crate) fn at(log: MutexGuard<'a, CentreLog>) -> Look<'a>
        ensures value { log_seen result ≡ mutex_guard_value log.entry }
        ensures replays { IsReplaying (log_seen result) }
    {
        log.entries();
        Look { log }
    }

    /// The log, as it is for as long as this is kept.
    pub fn log(&self) -> &CentreLog
        ensures { result.now ≡ log_seen self.now }
    {
        &self.log
    }
}
