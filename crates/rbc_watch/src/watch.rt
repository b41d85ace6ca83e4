ghost use Rattle.std.specs.Prelude.{◌≡◌, IfErr, IfOk};
ghost use Rattle.law_outside.specs.Outside as spec;
ghost use Rattle.rbc_watch.specs.Events.{sees_exchange};
ghost use Rattle.rbc_watch.specs.Seen.{line_of, seen_by};
ghost use Rattle.rbc_watch.specs.Verdicts.{IsBreach, IsBroken, IsVerdict};

use crate::event::Exchange;
use crate::fault::{Breach, WatchFault};
use crate::view::View;
use rbc_line::Line;
use std::alloc::{AllocError, Global};

/// A monitor of a line. It ends with the first event after which the promise is broken.
#[derive(Drop)]
pub struct Watch {
    line: Line,
    view: View,
}

impl Watch {
    /// A monitor that has seen nothing. It keeps a copy of the line.
    pub fn new(alloc: Global, line: &Line) -> Result<Watch, AllocError>
        ensures line { IfOk result (λ w. line_of w ≡ line.now) }
        ensures seen { IfOk result (λ w. seen_by w ≡ spec.nothing_seen) }
    {
        Ok(Watch {
            line: line.copied(alloc)?,
            view: View::new(alloc),
        })
    }

    /// Takes the next event, with the messages and replies after it. The monitor goes on if and only if the promise
    /// holds then, and memory suffices.
    pub fn next(self, exchange: &Exchange) -> Result<Watch, WatchFault>
        ensures line { IfOk result (λ w. line_of w ≡ line_of self) }
        ensures seen { IfOk result (λ w. seen_by w ≡ sees_exchange (line_of self) exchange.now (seen_by self)) }
        ensures safe { IfOk result (λ w. spec.IsSafeOutside (line_of w) (seen_by w)) }
        // The danger of an error is there, unless memory ran out.
        ensures broken { IfErr result
            (IsBroken (line_of self) (sees_exchange (line_of self) exchange.now (seen_by self))) }
    {
        let mut watch = self;
        watch.view.see(&watch.line, exchange)?;
        watch.view.check(&watch.line)?;
        Ok(watch)
    }

    // The next event; `before` is the number of events before it.
    fn next_after(self, exchange: &Exchange, before: usize) -> Result<Watch, Breach>
        ensures line { IfOk result (λ w. line_of w ≡ line_of self) }
        ensures seen { IfOk result (λ w. seen_by w ≡ sees_exchange (line_of self) exchange.now (seen_by self)) }
        ensures safe { IfOk result (λ w. spec.IsSafeOutside (line_of w) (seen_by w)) }
        ensures broken { IfErr result (IsBreach (line_of self) before
            (sees_exchange (line_of self) exchange.now (seen_by self))) }
    {
        match self.next(exchange) {
            Ok(watch) => Ok(watch),
            Err(WatchFault::Memory) => Err(Breach::Memory),
            Err(WatchFault::Broken(danger)) => Err(Breach::Broken { before, danger }),
        }
    }
}

/// Watches a list of events, each with the messages and replies after it.
pub fn watch_all(alloc: Global, line: &Line, exchanges: &[Exchange]) -> Result<(), Breach>
    // It is Ok if and only if the promise holds after each event. Else it names the first event after which the promise
    // does not hold, and a danger that is there then; or memory ran out.
    ensures { IsVerdict line.now exchanges.now result }
{
    let mut watch = Watch::new(alloc, line)?;
    let mut before = 0;
    for exchange in exchanges {
        match watch.next_after(exchange, before) {
            Ok(next) => watch = next,
            Err(breach) => return Err(breach),
        }
        before += 1;
    }
    Ok(())
}
