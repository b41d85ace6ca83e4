//! A gate that holds a commit back.

use crate::line::A;
use rbc_node::Gate;
use std::sync::atomic::{AtomicBool, AtomicU32, Ordering};
use std::thread;

/// Holds the commit of A back under its lock until the commit of B is answered. Holds it back again after the lock
/// until another commit of A is answered. Each wait gives up after `TURNS` turns. Counts the commits that are over.
#[derive(Drop)]
pub struct Held {
    pub is_begun: AtomicBool,
    pub is_other_answered: AtomicBool,
    pub is_next_answered: AtomicBool,
    pub gave_up: AtomicBool,
    pub over: AtomicU32,
}

const TURNS: u32 = 10_000_000;

impl Held {
    pub fn new() -> Held {
        Held {
            is_begun: AtomicBool::new(false),
            is_other_answered: AtomicBool::new(false),
            is_next_answered: AtomicBool::new(false),
            gave_up: AtomicBool::new(false),
            over: AtomicU32::new(0),
        }
    }

    /// Waits until the flag is set, or gives up.
    pub fn wait_for(&self, flag: &AtomicBool) {
        for _ in 0..TURNS {
            if flag.load(Ordering::SeqCst) {
                return;
            }
            thread::yield_now();
        }
        self.gave_up.store(true, Ordering::SeqCst);
    }
}

impl Gate for Held {
    fn inside(&self, centre: u8) {
        if centre == A {
            self.is_begun.store(true, Ordering::SeqCst);
            self.wait_for(&self.is_other_answered);
        }
    }

    fn after(&self, centre: u8) {
        self.over.fetch_add(1, Ordering::SeqCst);
        if centre == A {
            self.wait_for(&self.is_next_answered);
        }
    }
}
