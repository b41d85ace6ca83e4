//! The values that all parts of a run share: its line, its disks, its time, its lots, and its first fault.

use crate::simulator::disk::Platter;
use crate::simulator::lines::LINES;
use rbc_line::{Line, Section};
use std::alloc::Global;
use std::cell::Cell;
use std::rc::Rc;

/// Memory ran out.
pub const MEMORY: &str = "memory ran out";

/// The run of a seed.
#[derive(Drop)]
pub struct Run {
    pub alloc: Global,
    /// The text of the line.
    pub text: &'static str,
    pub line: Box<Line, Global>,
    pub sections: Vec<Section>,
    /// The disks of the journals, by the centres' numbers.
    pub platters: Vec<Rc<Platter, Global>>,
    /// The time, in units of 10 ms.
    pub now: Cell<u32>,
    // Of the numbers that are drawn (splitmix64).
    state: Cell<u64>,
    // The first fault.
    fault: Cell<Option<&'static str>>,
}

impl Run {
    /// The run of a seed, before its first step. `None` if memory runs out.
    pub fn new(alloc: Global, seed: u64) -> Option<Run> {
        let text = LINES.get((seed % 2) as usize).copied()?;
        let line = Line::from_toml(alloc, text).ok()?;
        let mut run = Run {
            alloc,
            text,
            line: Box::new(alloc, line).ok()?,
            sections: Vec::new(alloc),
            platters: Vec::new(alloc),
            now: Cell::new(1_000),
            state: Cell::new(seed),
            fault: Cell::new(None),
        };
        run.add_sections();
        run.add_platters();
        Some(run)
    }

    fn add_sections(&mut self) {
        for s in 0..self.line.section_count() {
            if let Some(section) = self.line.section(s) {
                let _ = self.sections.push(section);
            }
        }
    }

    fn add_platters(&mut self) {
        for _ in 0..self.line.centre_count() {
            if let Ok(platter) = Rc::new(self.alloc, Platter::new(self.alloc)) {
                let _ = self.platters.push(platter);
            }
        }
    }

    /// A number below the bound, by lot; 0 if there is none.
    pub fn below(&self, bound: usize) -> usize {
        let state = self.state.get().wrapping_add(0x9E37_79B9_7F4A_7C15);
        self.state.set(state);
        let mixed = (state ^ (state >> 30)).wrapping_mul(0xBF58_476D_1CE4_E5B9);
        let mixed = (mixed ^ (mixed >> 27)).wrapping_mul(0x94D0_49BB_1331_11EB);
        if bound == 0 {
            return 0;
        }
        (mixed >> 32) as usize % bound
    }

    /// The same, of 32 bits.
    pub fn some_below(&self, bound: u32) -> u32 {
        u32::try_from(self.below(bound as usize)).unwrap_or(0)
    }

    /// True with this chance, in per cent.
    pub fn in_hundred(&self, chance: usize) -> bool {
        self.below(100) < chance
    }

    /// Time passes.
    pub fn pass(&self, time: u32) {
        self.now.set(self.now.get().saturating_add(time));
    }

    /// The time in milliseconds.
    pub fn now_ms(&self) -> u64 {
        u64::from(self.now.get()) * 10
    }

    /// The first fault.
    pub fn fault(&self) -> Option<&'static str> {
        self.fault.get()
    }

    /// Notes a fault: the centres broke a rule, or the run can't go on. The first fault counts.
    pub fn note(&self, why: &'static str) {
        if self.fault.get().is_none() {
            self.fault.set(Some(why));
        }
    }

    /// Notes a fault unless this rule holds.
    pub fn must(&self, holds: bool, why: &'static str) {
        if !holds {
            self.note(why);
        }
    }

    /// Adds to a list.
    pub fn add<T: Drop>(&self, to: &mut Vec<T>, it: T) {
        let is_added = to.push(it).is_ok();
        self.must(is_added, MEMORY);
    }

    /// Adds bytes to others.
    pub fn extend(&self, to: &mut Vec<u8>, bytes: &[u8]) {
        let is_added = to.extend_from_slice(bytes).is_ok();
        self.must(is_added, MEMORY);
    }
}
