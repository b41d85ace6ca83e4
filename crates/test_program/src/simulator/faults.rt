//! Faults by lot: of connections, machines, links and threads.

use crate::simulator::connection::Connection;
use crate::simulator::run::Run;
use crate::simulator::simulation::{KINDS, Simulation};
use crate::simulator::train::Manner;

impl Simulation {
    /// A fault by lot. A train loses a connection, reads nothing, calls or begins again, or sends too much. A browser
    /// calls the control endpoint. The machine crashes, or the centres are stopped. A frame comes late or early.
    /// Threads wait, or no further thread can be made. Nothing happens for long.
    pub fn trouble(&mut self, run: &Run) {
        match run.below(100) {
            0..=55 => self.trouble_of_train(run),
            56..=58 => self.browse(run),
            59..=61 => pause(run),
            62..=63 => self.program.is_short = !self.program.is_short,
            64..=68 => self.kill(run),
            69..=72 => self.say_row(run, "stop"),
            73..=75 => self.say_row(run, "stop now"),
            76..=89 => self.stray(run),
            _ => self.hold(run),
        }
    }

    fn trouble_of_train(&mut self, run: &Run) {
        let train = run.below(self.trains.len());
        let centre = run.below(run.platters.len());
        match run.below(59) {
            0..=14 => self.lose(run, train, centre),
            15..=26 => self.turn_deaf(train, centre),
            27..=41 => self.speak_often(run, train, centre, 2),
            42..=46 => self.speak_often(run, train, centre, 14),
            47..=50 => self.speak_much(run, train, centre),
            _ => {
                self.speak_to(run, train, centre, Manner::Initiation);
            }
        }
    }

    // From now on a kind of threads is seldom drawn. One worker of a link or of the interlocking hands no answer in.
    // Perhaps nothing happens for long then.
    fn hold(&mut self, run: &Run) {
        self.lazy = run.below(KINDS + 1);
        if !self.program.is_stopped {
            self.program.hold(run);
        }
        if run.in_hundred(50) {
            pause(run);
        }
    }

    // A train begins this many sessions at once, each over a connection of its own.
    fn speak_often(&mut self, run: &Run, train: usize, centre: usize, count: u32) {
        for _ in 0..count {
            self.hang_up(train, centre);
            self.speak_to(run, train, centre, Manner::Initiation);
        }
    }

    // A train sends messages at once over one connection.
    fn speak_much(&mut self, run: &Run, train: usize, centre: usize) {
        for _ in 0..14 {
            self.speak_to(run, train, centre, Manner::DueOrLast);
        }
    }

    // A link gives its next frame only after a drawn one, which came before or comes early.
    fn stray(&mut self, run: &Run) {
        let at = run.below(self.program.links.len());
        if !self.program.is_stopped
            && let Some(link) = self.program.links.get_mut(at)
        {
            link.stray(run);
        }
    }

    // A train uses its connection to a centre no more.
    fn hang_up(&mut self, train: usize, centre: usize) -> Option<usize> {
        self.trains.get_mut(train)?.calls.get_mut(centre)?.take()
    }

    // The connection of a train to a centre.
    fn call(&mut self, train: usize, centre: usize) -> Option<&mut Connection> {
        let number = (*self.trains.get(train)?.calls.get(centre)?)?;
        self.program.connections.get_mut(number)
    }

    // A train reads nothing over its connection to a centre, or reads again.
    fn turn_deaf(&mut self, train: usize, centre: usize) {
        if let Some(connection) = self.call(train, centre) {
            connection.is_slow = !connection.is_slow;
        }
    }

    // A train loses its connection to a centre, perhaps in the middle of a message, and perhaps without an end.
    fn lose(&mut self, run: &Run, train: usize, centre: usize) {
        let is_closed = run.in_hundred(70);
        let rest = run.below(200);
        if let Some(connection) = self.call(train, centre) {
            connection.lose(rest, is_closed);
        }
        self.hang_up(train, centre);
    }
}

// Nothing happens for 31 seconds.
fn pause(run: &Run) {
    run.pass(3_100);
}
