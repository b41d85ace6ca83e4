//! The promise to the outside: no two trains may run over one section, and none over one that is not released.

use crate::simulator::run::Run;
use rbc_watch::{Exchange, Watch};
use std::str::from_utf8;
use text_prints::Reader;

/// The promise so far: a monitor that has seen each event. It is gone after a fault.
#[derive(Drop)]
pub struct Promise {
    watch: Vec<Watch>,
}

impl Promise {
    /// Before the first event.
    pub fn new(run: &Run) -> Promise {
        let mut watch = Vec::new(run.alloc);
        if let Ok(first) = Watch::new(run.alloc, &run.line) {
            run.add(&mut watch, first);
        }
        Promise { watch }
    }

    /// The promise holds after the next event, whose print is given.
    pub fn holds_after(&mut self, run: &Run, text: &[u8]) {
        let exchange = exchange_in(run, from_utf8(text).unwrap_or(""));
        if let Some(exchange) = exchange
            && let Some(watch) = self.watch.pop()
            && let Ok(next) = watch.next(&exchange)
        {
            run.add(&mut self.watch, next);
        } else {
            run.note("the promise to the outside is broken");
        }
    }
}

// The event of a print, with the messages and replies after it.
fn exchange_in(run: &Run, text: &str) -> Option<Exchange> {
    let mut reader = Reader::new(run.alloc, &run.line);
    for row in text.lines() {
        if reader.row(row).is_err() {
            return None;
        }
    }
    reader.end()
}
