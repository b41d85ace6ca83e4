//! The end of a run. No fault is drawn any more: the threads finish their work, and the centres end after `stop`.

use crate::simulator::program::CONTROLS;
use crate::simulator::run::Run;
use crate::simulator::simulation::{KINDS, Simulation};
use crate::simulator::train::Manner;

impl Simulation {
    /// No fault is drawn any more. The centres rest, and each question is answered. Then `stop` ends them, though a
    /// client of the interlocking reads nothing. Perhaps no disk has room, or no further thread can be made.
    pub fn end(&mut self, run: &Run) {
        self.is_calm = true;
        self.program.calm_down();
        self.settle(run, true);
        self.judge.catch_up(run);
        self.judge_rest(run);
        self.judge_reading(run);
        self.is_full = run.in_hundred(50);
        self.program.is_short = run.in_hundred(50);
        self.send_row(run, 0, "set A 0");
        if let Some(control) = self.program.controls.first_mut() {
            control.is_slow = true;
        }
        if self.program.open_control(CONTROLS - 1) {
            self.send_row(run, CONTROLS - 1, "stop");
        }
        self.settle(run, false);
        run.must(!self.program.runs(), "the centres do not end after stop");
    }

    // Nothing is left at rest: no event, no frame, no line of the interlocking, and no message to a train.
    fn judge_rest(&self, run: &Run) {
        let is_at_rest = !self.program.is_stopped && self.program.is_at_rest();
        run.must(is_at_rest, "an event, a frame or a line is left");
        run.must(
            self.judge.has_all_frames(),
            "a frame was sent and not taken",
        );
        for connection in &self.program.connections {
            let is_open = connection.is_read && !connection.is_shut;
            let is_complete = !is_open || self.judge.is_complete(connection);
            run.must(is_complete, "a train lacks the last answers");
        }
    }

    // Each train sends two messages over each of its connections. Both are committed, though no journal is written
    // meanwhile.
    fn judge_reading(&mut self, run: &Run) {
        run.pass(1_000);
        for train in 0..self.trains.len() {
            for centre in 0..run.platters.len() {
                self.speak_to(run, train, centre, Manner::DueOrLast);
                self.speak_to(run, train, centre, Manner::DueOrLast);
            }
        }
        for _ in 0..24 {
            for number in 0..self.count(0) {
                self.turn(run, 0, number);
            }
        }
        for connection in &self.program.connections {
            run.must(connection.has_read_all(), "a message waits for a journal");
        }
    }

    // Lets each thread take steps in turn until none can for three seconds.
    fn settle(&mut self, run: &Run, starts: bool) {
        let mut rests = 0u32;
        for _ in 0..4_000 {
            run.pass(100);
            rests = if self.take_turns(run, starts) {
                0
            } else {
                rests.saturating_add(1)
            };
            if rests >= 3 || run.fault().is_some() {
                return;
            }
        }
        run.note("the centres do not come to rest");
    }

    // Each thread takes a step, if it can. The result is whether one did.
    fn take_turns(&mut self, run: &Run, starts: bool) -> bool {
        let mut did = (starts || self.program.runs()) && self.start_or_end(run);
        for what in 0..KINDS {
            for which in 0..self.count(what) {
                did |= self.turn(run, what, which);
            }
        }
        did
    }
}
