//! An order that keeps to none.

use serve_workers::Order;
use std::sync::atomic::{AtomicBool, Ordering};

/// How many numbers it asks for.
pub const ASKED: usize = 8;

/// Asks for the numbers of its list, whatever comes of them, and says before the last that nothing new comes.
#[derive(Drop)]
pub struct Unruly<'a> {
    numbers: [u32; ASKED],
    next: usize,
    is_over: &'a AtomicBool,
}

impl<'a> Unruly<'a> {
    /// An order that asks for these numbers, one in each turn.
    pub fn new(numbers: [u32; ASKED], is_over: &'a AtomicBool) -> Unruly<'a> {
        Unruly {
            numbers,
            next: 0,
            is_over,
        }
    }

    /// The number of turns that were taken.
    pub fn turns(&self) -> usize {
        self.next
    }
}

impl Order for Unruly<'_> {
    ghost use Rattle.std.specs.Prelude.{slice_get};
    ghost use Rattle.std.specs.Option.{option_map_or};

    ghost asks = { λ o. option_map_or (λ n. n) (slice_get o.numbers o.next) 0 };

    ghost follows = { λ o is_committed n. Unit {0} };

    fn number(&self) -> u32 {
        match self.numbers.get(self.next) {
            Some(number) => *number,
            None => 0,
        }
    }

    fn go_on(&mut self, _is_committed: bool) {
        self.next = self.next.saturating_add(1);
        if self.next.saturating_add(1) >= ASKED {
            self.is_over.store(true, Ordering::SeqCst);
        }
    }
}
