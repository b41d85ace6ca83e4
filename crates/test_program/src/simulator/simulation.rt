//! A run: the centres, their disks, the trains and the interlocking. The order of the steps and the faults are drawn.

use crate::simulator::auditor::Auditor;
use crate::simulator::disk::Fate;
use crate::simulator::judge::Judge;
use crate::simulator::program::{BROWSER, Program};
use crate::simulator::run::Run;
use crate::simulator::train::{Train, trains_on};

/// The most steps of a run, before its end.
const MOST_STEPS: u32 = 200_000;

/// How many threads of a kind are asked in turn whether they can take a step.
const FEW: usize = 8;

/// The number of kinds of threads. Those of trains read a connection, or write it. Those of a link put a frame on it,
/// or take one off. The others write a journal, or answer a control connection. Each one that commits events also hands
/// the answers in.
pub const KINDS: usize = 6;

/// How often each kind is drawn.
static WEIGHTS: [usize; 13] = [0, 0, 0, 0, 1, 1, 2, 3, 3, 4, 4, 5, 5];

/// In how many of a hundred steps something happens outside though the centres are busy: a run draws one of these.
static SHARES: [usize; 4] = [1, 5, 15, 40];

/// The most faults of a hundred happenings.
const MOST_TROUBLES: usize = 20;

/// The state of a run.
#[derive(Drop)]
pub struct Simulation {
    pub program: Program,
    /// A start has locked the journals.
    pub has_lock: bool,
    /// The bytes of the journals that a start has read.
    pub found: Vec<Vec<u8>>,
    /// The interlocking has released all sections once.
    pub has_released: bool,
    pub trains: Vec<Train>,
    pub judge: Judge,
    pub auditor: Auditor,
    /// No fault is drawn.
    pub is_calm: bool,
    /// No write succeeds any more.
    pub is_full: bool,
    // In how many of a hundred steps something happens outside though the centres are busy.
    share: usize,
    // How many of a hundred happenings are faults.
    troubles: usize,
    /// The kind of threads that take a step only if it is drawn.
    pub lazy: usize,
    // How many times something is to happen outside.
    happenings: usize,
}

impl Simulation {
    /// Before the first start of the centres.
    pub fn new(run: &Run) -> Simulation {
        let share = run.below(SHARES.len());
        Simulation {
            program: Program::none(run.alloc),
            has_lock: false,
            found: Vec::new(run.alloc),
            has_released: false,
            trains: trains_on(run),
            judge: Judge::new(run),
            auditor: Auditor::new(run.alloc),
            is_calm: false,
            is_full: false,
            share: SHARES.get(share).copied().unwrap_or(0),
            troubles: run.below(MOST_TROUBLES),
            lazy: KINDS,
            happenings: run.below(240).saturating_add(60),
        }
    }

    /// Plays the run to its end, or to its first fault.
    pub fn play(&mut self, run: &Run) {
        for _ in 0..MOST_STEPS {
            if self.happenings == 0 || run.fault().is_some() {
                break;
            }
            self.take_step(run);
        }
        self.end(run);
    }

    // A drawn thread takes a step. If none can, and sometimes besides, something happens outside.
    fn take_step(&mut self, run: &Run) {
        if run.in_hundred(self.share) || !self.take_turn(run) {
            self.happenings = self.happenings.saturating_sub(1);
            self.happen(run);
        }
        if self.program.is_stopped {
            self.start_or_end(run);
        }
    }

    fn happen(&mut self, run: &Run) {
        let lot = run.below(100);
        if lot < self.troubles {
            self.trouble(run);
        } else if lot < 28 {
            self.command(run);
        } else if lot < 36 {
            self.auditor.step(run);
        } else {
            self.speak(run);
        }
    }

    // A thread of a drawn kind takes a step; if none of it can, one of the next kind. The result is whether one did.
    fn take_turn(&mut self, run: &Run) -> bool {
        let lot = run.below(WEIGHTS.len());
        let first = WEIGHTS.get(lot).copied().unwrap_or(0);
        for more in 0..KINDS {
            let what = first.saturating_add(more) % KINDS;
            if (more == 0 || what != self.lazy) && self.take_turn_of(run, what) {
                return true;
            }
        }
        false
    }

    // A thread of this kind takes a step: one of the last of its kind, or of all.
    fn take_turn_of(&mut self, run: &Run, what: usize) -> bool {
        let count = self.count(what);
        let few = count.min(FEW);
        let places = if run.in_hundred(50) { few } else { count };
        let first = count.saturating_sub(run.below(places).saturating_add(1));
        for more in 0..few {
            if self.turn(run, what, first.saturating_add(more) % count.max(1)) {
                return true;
            }
        }
        false
    }

    /// How many threads take steps of this kind.
    pub fn count(&self, what: usize) -> usize {
        match what {
            0 | 1 => self.program.connections.len(),
            2 | 3 => self.program.links.len(),
            4 => self.program.sites.len(),
            _ => self.program.controls.len(),
        }
    }

    /// A thread of the centres takes a step. The result is whether it could. Each message that leaves is judged.
    pub fn turn(&mut self, run: &Run, what: usize, which: usize) -> bool {
        match what {
            0 => self.program.read(run, which),
            1 => self.write(run, which),
            2 => self.program.send(which),
            3 => self.program.receive(run, which),
            4 => self.keep(run, which),
            _ => self.answer(run, which),
        }
    }

    // The thread that writes the journal of a centre takes a step.
    fn keep(&mut self, run: &Run, centre: usize) -> bool {
        if let Some(site) = self.program.sites.get_mut(centre)
            && let Some(platter) = run.platters.get(centre)
        {
            platter.fate.set(fate(run, self.is_calm, self.is_full));
            return site.journal.step(run, &site.own.log);
        }
        false
    }

    // The thread that writes a connection takes a step.
    fn write(&mut self, run: &Run, number: usize) -> bool {
        let Some(leaving) = self.program.write(number) else {
            return false;
        };
        self.judge.to_train(run, &leaving);
        for train in &mut self.trains {
            if train.nid_engine == leaving.said.nid_engine {
                train.hear(run, &leaving.said);
            }
        }
        true
    }

    // The thread of a control connection takes a step.
    fn answer(&mut self, run: &Run, number: usize) -> bool {
        let mut text = Vec::new(run.alloc);
        let did = self.program.answer(run, number, &mut text);
        if !text.is_empty() {
            run.must(number != BROWSER, "a request of a browser was answered");
            self.judge.to_control(run, &text);
        }
        did
    }
}

// The fate of the next write.
fn fate(run: &Run, is_calm: bool, is_full: bool) -> Fate {
    match run.below(100) {
        _ if is_full => Fate::Torn(0),
        _ if is_calm => Fate::Good,
        0..=9 => Fate::Torn(run.below(200)),
        10..=14 => Fate::Unsynced,
        _ => Fate::Good,
    }
}
