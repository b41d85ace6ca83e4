//! The thread that serves a control connection.

use crate::simulator::journal::last_stamp;
use crate::simulator::judge::add_sections;
use crate::simulator::program::Program;
use crate::simulator::run::{MEMORY, Run};
use crate::simulator::site::Site;
use rbc_centre::{Event, Outcome};
use rbc_node::ShareFault;
use serve_control::{Command, Meaning, meaning_of, print_commit};
use std::alloc::Global;
use text_script::WorldEvent;

/// The answer to a line if a journal can't be written.
pub const JOURNAL_FAULT: &str = "journal fault\n";

/// The answer to a line that has no valid form.
pub const SCRIPT_FAULT: &str = "script fault\n";

/// A control connection.
#[derive(Drop)]
pub struct Control {
    /// The lines that were not read.
    pub rows: Vec<String>,
    // The answer that waits.
    answer: Option<Answer>,
    /// Whether its client reads nothing now.
    pub is_slow: bool,
    /// Whether the thread of the endpoint serves it, since no other could be made.
    pub is_reserve: bool,
}

// An answer that waits: for the stamps of the centres from the first one on.
#[derive(Drop)]
struct Answer {
    text: Vec<u8>,
    first: usize,
    stamps: Vec<u32>,
    is_show: bool,
}

impl Control {
    /// A connection over which nothing has come.
    pub fn new(alloc: Global) -> Control {
        Control {
            rows: Vec::new(alloc),
            answer: None,
            is_slow: false,
            is_reserve: false,
        }
    }

    /// Whether each line is answered.
    pub fn is_idle(&self) -> bool {
        self.rows.is_empty() && self.answer.is_none()
    }

    /// The centre ends the connection. The lines that were not read are lost.
    pub fn end(&mut self) {
        self.rows.clear();
        self.answer = None;
        self.is_reserve = false;
    }

    // The answer leaves once the journals have the events that it waits for. It is a fault if one was given up; that to
    // `show` also if one can't be written now.
    fn open(&mut self, run: &Run, sites: &[Site], out: &mut Vec<u8>) -> bool {
        let Some(answer) = &self.answer else {
            return false;
        };
        let (waits, fails) = answer.waits(sites);
        if self.is_slow || waits && !fails {
            return false;
        }
        if fails {
            run.extend(out, JOURNAL_FAULT.as_bytes());
        } else {
            run.extend(out, &answer.text);
        }
        self.answer = None;
        true
    }
}

impl Answer {
    // Whether an event is not in its journal, and whether this is a fault.
    fn waits(&self, sites: &[Site]) -> (bool, bool) {
        let (mut waits, mut fails) = (false, false);
        for (site, stamp) in sites.iter().skip(self.first).zip(self.stamps.iter()) {
            let reach = &site.journal.reach;
            if reach.kept.stamp() < *stamp {
                waits = true;
                fails |= reach.is_closed || self.is_show && reach.is_stuck;
            }
        }
        (waits, fails)
    }
}

impl Program {
    /// A control connection hands an answer in, or reads the next line, or its answer leaves. The text that leaves is
    /// added to `out`. The result is whether it took a step.
    pub fn answer(&mut self, run: &Run, number: usize, out: &mut Vec<u8>) -> bool {
        for site in &mut self.sites {
            if let Some(desk) = site.desks.get_mut(number)
                && !desk.is_idle()
            {
                let part = desk.hand_in(&site.journal.reach);
                return site.go_on(run, &mut self.connections, part, None);
            }
        }
        let Some(control) = self.controls.get_mut(number) else {
            return false;
        };
        if control.answer.is_some() {
            return control.open(run, &self.sites, out);
        }
        if control.rows.is_empty() {
            return false;
        }
        let row = control.rows.remove(0);
        self.obey(run, number, row.as_str(), out);
        true
    }

    fn obey(&mut self, run: &Run, number: usize, row: &str, out: &mut Vec<u8>) {
        match meaning_of(run.alloc, &run.line, row.as_bytes()) {
            Meaning::Command(command) => self.perform(run, number, command, out),
            Meaning::NoForm => run.extend(out, SCRIPT_FAULT.as_bytes()),
            Meaning::Foreign => self.end_control(number),
            Meaning::NoMemory => run.note(MEMORY),
        }
    }

    fn perform(&mut self, run: &Run, number: usize, command: Command, out: &mut Vec<u8>) {
        match command {
            Command::Nothing => {}
            Command::Stop => self.stop(false),
            Command::StopNow => self.stop(true),
            Command::Show => self.show(run, number),
            Command::Set { centre, section } => {
                self.commit(run, number, &WorldEvent::Set { centre, section }, out);
            }
            Command::Unset { centre, section } => {
                self.commit(run, number, &WorldEvent::Unset { centre, section }, out);
            }
        }
    }

    // Ends a control connection.
    fn end_control(&mut self, number: usize) {
        if let Some(control) = self.controls.get_mut(number) {
            control.end();
        }
    }

    // No further connection is accepted. Perhaps all sessions end at once.
    fn stop(&mut self, ends_sessions: bool) {
        self.is_stopped = true;
        self.let_go();
        for site in &mut self.sites {
            site.journal.is_ending = true;
        }
        if ends_sessions {
            self.shut_all();
        }
    }

    // Looks at all centres. The text waits for the events that they have taken.
    fn show(&mut self, run: &Run, number: usize) {
        let mut answer = Answer {
            text: Vec::new(run.alloc),
            first: 0,
            stamps: Vec::new(run.alloc),
            is_show: true,
        };
        run.extend(&mut answer.text, b"> show\n");
        for site in &self.sites {
            add_sections(run, &site.own.log, &mut answer.text);
            let stamp = site.journal.reach.awaited(last_stamp(&site.own.log));
            run.add(&mut answer.stamps, stamp);
        }
        self.keep(number, answer);
    }

    fn keep(&mut self, number: usize, answer: Answer) {
        if let Some(control) = self.controls.get_mut(number) {
            control.answer = Some(answer);
        }
    }

    // Commits an event of the interlocking. The answer waits for it.
    fn commit(&mut self, run: &Run, number: usize, printed: &WorldEvent, out: &mut Vec<u8>) {
        let first = event_of(printed).0;
        let Some(site) = self.sites.get_mut(first) else {
            return;
        };
        if site.journal.reach.is_stuck {
            return run.extend(out, JOURNAL_FAULT.as_bytes());
        }
        if let Some(answer) = site.commit(run, number, printed) {
            self.keep(number, answer);
        }
    }
}

impl Site {
    // Commits an event of the interlocking.
    fn commit(&mut self, run: &Run, number: usize, printed: &WorldEvent) -> Option<Answer> {
        let (first, event) = event_of(printed);
        let desk = self.desks.get_mut(number)?;
        let answer = desk.share.commit(&mut self.own.log, event);
        let stamp = match &answer {
            Ok(outcome) => self.journal.reach.awaited(outcome.stamp),
            Err(_) => 0,
        };
        let mut stamps = Vec::new(run.alloc);
        run.add(&mut stamps, stamp);
        Some(Answer {
            text: text_of(run, printed, &answer),
            first,
            stamps,
            is_show: false,
        })
    }
}

/// An event of a journal and its answer, as the interlocking gets it.
pub fn text_of(run: &Run, event: &WorldEvent, answer: &Result<Outcome, ShareFault>) -> Vec<u8> {
    let mut text = Vec::new(run.alloc);
    let centre = centre_of(event);
    let is_done = print_commit(run.alloc, &mut text, &run.line, centre, event, answer).is_ok();
    run.must(is_done, MEMORY);
    text
}

// The centre at which an event happens.
fn centre_of(event: &WorldEvent) -> u8 {
    match event {
        WorldEvent::Train { centre, .. } => *centre,
        WorldEvent::Set { centre, .. } => *centre,
        WorldEvent::Unset { centre, .. } => *centre,
        WorldEvent::Deliver { to, .. } => *to,
    }
}

// The number of the centre of an event of the interlocking, and the event as the centre takes it.
fn event_of(event: &WorldEvent) -> (usize, Event) {
    match event {
        WorldEvent::Set { centre, section } => (usize::from(*centre), Event::Set(*section)),
        WorldEvent::Unset { centre, section } => (usize::from(*centre), Event::Unset(*section)),
        _ => (usize::MAX, Event::Set(0)),
    }
}
