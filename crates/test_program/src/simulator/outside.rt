//! The outside of the centres: trains call and speak, and the interlocking sends lines.

use crate::simulator::program::{BROWSER, CONTROLS};
use crate::simulator::run::Run;
use crate::simulator::simulation::Simulation;
use crate::simulator::train::Manner;
use text_script::print::name_of;

impl Simulation {
    /// A drawn train runs, and speaks to the first centre from a drawn one on that a message is due to. It calls the
    /// centre first, if it has no connection.
    pub fn speak(&mut self, run: &Run) {
        let number = run.below(self.trains.len());
        let first = run.below(run.platters.len());
        run.pass(run.some_below(400));
        if let Some(train) = self.trains.get_mut(number) {
            train.run(run);
        }
        let centres = run.platters.len().max(1);
        for turn in 0..centres {
            let centre = first.saturating_add(turn) % centres;
            if self.speak_to(run, number, centre, Manner::Due) {
                break;
            }
        }
    }

    /// A train sends a message to a centre. It calls the centre first, if it has no connection. The result is whether
    /// it sends one.
    pub fn speak_to(&mut self, run: &Run, number: usize, centre: usize, manner: Manner) -> bool {
        if let Some(train) = self.trains.get_mut(number)
            && let Some(call) = train.calls.get_mut(centre)
        {
            if call.is_none() {
                *call = self.program.accept(run, centre, train.nid_engine);
            }
            if let Some(called) = *call
                && let Some(connection) = self.program.connections.get_mut(called)
                && train.speak(run, connection.centre, manner)
            {
                connection.send(run, &train.last);
                return true;
            }
        }
        false
    }

    /// The interlocking releases all sections, once.
    pub fn release_all(&mut self, run: &Run) {
        if !self.has_released {
            self.has_released = true;
            for section in 0..run.sections.len() {
                self.say_for(run, "set", section);
            }
        }
    }

    /// The interlocking sends a drawn line.
    pub fn command(&mut self, run: &Run) {
        let section = run.below(run.sections.len());
        match run.below(24) {
            0..=12 => self.say_for(run, "set", section),
            13..=18 => self.say_for(run, "unset", section),
            19..=22 => self.say_row(run, "show"),
            _ => self.say_row(run, "set"),
        }
    }

    // A command for a section, to its home.
    fn say_for(&mut self, run: &Run, command: &str, section: usize) {
        if let Some(it) = run.sections.get(section) {
            let name = name_of(&run.line, it.home);
            let row = format!(in run.alloc; "{command} {name} {section}");
            if let Ok(row) = row {
                self.say_row(run, row.as_str());
            }
        }
    }

    /// A page in a browser sends a request to the control endpoint. Its body is a line of the interlocking.
    pub fn browse(&mut self, run: &Run) {
        if self.program.open_control(BROWSER) {
            for row in ["POST / HTTP/1.1\r", "Host: localhost\r", "\r", "set A 0"] {
                self.send_row(run, BROWSER, row);
            }
        }
    }

    /// A line is sent over a drawn control connection of the interlocking.
    pub fn say_row(&mut self, run: &Run, row: &str) {
        self.send_row(run, run.below(CONTROLS), row);
    }

    /// A line is sent over a control connection, if the centres run.
    pub fn send_row(&mut self, run: &Run, number: usize, row: &str) {
        if let Some(control) = self.program.controls.get_mut(number)
            && let Ok(row) = String::from_str(run.alloc, row)
        {
            run.add(&mut control.rows, row);
        }
    }
}
