//! The lives of the centres in a run: their starts and ends. A start locks all journals, reads them, and resumes from
//! them.

use crate::simulator::disk::{Fate, lock_all, set_locked};
use crate::simulator::program::Program;
use crate::simulator::run::Run;
use crate::simulator::simulation::Simulation;

impl Simulation {
    // A start locks the journals, reads them, or resumes from them. It can't lock them while another program has them.
    // The result is whether it took a step.
    fn start(&mut self, run: &Run) -> bool {
        if !self.found.is_empty() {
            if self.program.runs() {
                return false;
            }
            self.resume(run);
        } else if self.has_lock {
            for platter in &run.platters {
                run.add(&mut self.found, platter.read(run, usize::MAX));
            }
        } else {
            self.has_lock = lock_all(run);
            return self.has_lock;
        }
        true
    }

    // The centres resume. They have the events of their journals then, and no others.
    fn resume(&mut self, run: &Run) {
        self.judge.catch_up(run);
        self.program.resume(run, &self.found);
        self.forget_start();
        self.judge.catch_up(run);
        let has_events = self.judge.has_events_of(&self.program.sites);
        run.must(has_events, "the centres lack events of their journals");
        self.judge.begin(run);
        self.release_all(run);
    }

    fn forget_start(&mut self) {
        self.has_lock = false;
        self.found.clear();
    }

    /// The machine crashes, perhaps while a journal is written.
    pub fn kill(&mut self, run: &Run) {
        self.write_torn(run);
        self.judge.catch_up(run);
        for platter in &run.platters {
            platter.crash(run);
        }
        self.forget_start();
        self.hang_up_all(run);
    }

    // Each journal is written once more, perhaps in part.
    fn write_torn(&mut self, run: &Run) {
        for (site, platter) in self.program.sites.iter_mut().zip(&run.platters) {
            platter.fate.set(Fate::Torn(run.below(600)));
            site.journal.step(run, &site.own.log);
        }
    }

    // The program has ended. No train is connected any more.
    fn hang_up_all(&mut self, run: &Run) {
        self.program = Program::none(run.alloc);
        self.auditor.forget();
        for train in &mut self.trains {
            train.hang_up();
        }
    }

    /// The centres go on to their end after `stop`, and then with the next start. The result is whether a step was
    /// taken.
    pub fn start_or_end(&mut self, run: &Run) -> bool {
        if self.program.runs() {
            if !self.program.is_stopped {
                return false;
            }
            if self.is_calm || run.in_hundred(5) {
                self.program.shut_all();
            }
            if self.program.ends() {
                self.finish(run);
                return true;
            }
        }
        self.start(run)
    }

    // The centres have ended: the journals have all events, unless one was given up.
    fn finish(&mut self, run: &Run) {
        self.judge.catch_up(run);
        let mut is_kept = self.judge.has_events_of(&self.program.sites);
        for site in &self.program.sites {
            is_kept |= site.journal.reach.is_closed;
        }
        run.must(is_kept, "the journals lack events of the centres");
        self.hang_up_all(run);
        set_locked(run, false);
    }
}
