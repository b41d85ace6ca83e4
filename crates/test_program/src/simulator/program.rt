//! The running centres: the values that their threads share.

use crate::simulator::connection::{Connection, Leaving};
use crate::simulator::control::Control;
use crate::simulator::link::Link;
use crate::simulator::resumed::taken_up;
use crate::simulator::run::Run;
use crate::simulator::site::Site;
use crate::simulator::worker::Worker;
use std::alloc::Global;
use text_journal::whole_length;

/// How many control connections the interlocking has.
pub const CONTROLS: usize = 2;

/// The number of the control connection that a browser opens.
pub const BROWSER: usize = CONTROLS;

// How many control connections there are.
const ALL_CONTROLS: usize = CONTROLS + 1;

/// The centres that run in one process. Without a centre no program runs.
#[derive(Drop)]
pub struct Program {
    /// By the centres' numbers.
    pub sites: Vec<Site>,
    pub connections: Vec<Connection>,
    pub links: Vec<Link>,
    pub controls: Vec<Control>,
    /// Whether no further connection is accepted.
    pub is_stopped: bool,
    /// Whether no further thread can be made.
    pub is_short: bool,
}

impl Program {
    /// No program runs.
    pub fn none(alloc: Global) -> Program {
        Program {
            sites: Vec::new(alloc),
            connections: Vec::new(alloc),
            links: Vec::new(alloc),
            controls: Vec::new(alloc),
            is_stopped: true,
            is_short: false,
        }
    }

    /// Whether a program runs.
    pub fn runs(&self) -> bool {
        !self.sites.is_empty()
    }

    /// The centres resume from the bytes of the journals, and go on.
    pub fn resume(&mut self, run: &Run, found: &[Vec<u8>]) {
        let centres = taken_up(run, found);
        for (own, bytes) in centres.into_iter().zip(found) {
            match Site::open(run, own, whole_length(bytes)) {
                Some(site) => run.add(&mut self.sites, site),
                None => run.note("a journal can't be opened"),
            }
        }
        add_links(run, &mut self.links, &self.sites);
        for _ in 0..ALL_CONTROLS {
            run.add(&mut self.controls, Control::new(run.alloc));
            add_desks(run, &mut self.sites);
        }
        self.is_stopped = false;
    }

    /// Accepts a connection of the train of this engine, and returns its number. `None` if it is refused.
    pub fn accept(&mut self, run: &Run, centre: usize, nid_engine: u32) -> Option<usize> {
        let site = self.sites.get(centre)?;
        if self.is_stopped || self.is_short || site.journal.reach.is_stuck {
            return None;
        }
        let number = self.connections.len();
        let connection = Connection::new(run.alloc, site.own.new_share(), nid_engine);
        run.add(&mut self.connections, connection);
        Some(number)
    }

    /// A client opens a control connection. If no further thread can be made, the thread of the endpoint serves
    /// the connection, unless it serves another. The result is whether the connection is served.
    pub fn open_control(&mut self, number: usize) -> bool {
        if self.is_short && has_reserve(&self.controls) {
            return false;
        }
        if let Some(control) = self.controls.get_mut(number) {
            control.end();
            control.is_reserve = self.is_short;
        }
        true
    }

    /// The thread that reads a connection hands an answer in, or reads the next message. The result is whether it took
    /// a step, as of the other threads.
    pub fn read(&mut self, run: &Run, number: usize) -> bool {
        if let Some(connection) = self.connections.get_mut(number)
            && let Some(site) = self.sites.get_mut(usize::from(connection.centre))
        {
            if !connection.worker.is_idle() {
                let part = connection.worker.hand_in(&site.journal.reach);
                return site.go_on(run, &mut self.connections, part, Some(number));
            }
            return connection.is_read && site.read(run, connection, number);
        }
        false
    }

    /// The thread that writes a connection writes the next reply, once the journal has its event. The result is the
    /// message that leaves.
    pub fn write(&mut self, number: usize) -> Option<Leaving> {
        let connection = self.connections.get_mut(number)?;
        let site = self.sites.get(usize::from(connection.centre))?;
        connection.write(&site.journal.reach)
    }

    /// The sending thread of a link puts the next frame on it.
    pub fn send(&mut self, at: usize) -> bool {
        if let Some(link) = self.links.get_mut(at)
            && let Some(site) = self.sites.get(usize::from(link.from))
        {
            return link.send(site);
        }
        false
    }

    /// The receiving thread of a link hands an answer in, or takes the next frame.
    pub fn receive(&mut self, run: &Run, at: usize) -> bool {
        if let Some(link) = self.links.get_mut(at)
            && let Some(site) = self.sites.get_mut(usize::from(link.to))
        {
            if link.worker.is_idle() {
                return link.receive(site);
            }
            let part = link.worker.hand_in(&site.journal.reach);
            return site.go_on(run, &mut self.connections, part, None);
        }
        false
    }

    /// The thread of a drawn link, or else of a drawn control connection at a centre, hands no answer in.
    pub fn hold(&mut self, run: &Run) {
        self.let_go();
        let lot = run.below(12);
        let after = lot.saturating_sub(self.links.len());
        match self.links.get_mut(lot) {
            Some(link) => link.worker.is_held = true,
            None => hold_desk(&mut self.sites, after / CONTROLS, after % CONTROLS),
        }
    }

    /// No thread is held any more, and no frame comes late or early.
    pub fn let_go(&mut self) {
        let_links_go(&mut self.links);
        for site in &mut self.sites {
            let_desks_go(&mut site.desks);
        }
    }

    /// Each train reads again, and threads can be made.
    pub fn calm_down(&mut self) {
        self.let_go();
        self.is_short = false;
        for connection in &mut self.connections {
            connection.is_slow = false;
        }
    }

    /// All sessions end.
    pub fn shut_all(&mut self) {
        for connection in &mut self.connections {
            connection.is_shut = true;
        }
    }

    /// Whether each answer was handed in, each line of the interlocking is answered, and no frame is on its way. The
    /// journals have all events, too. A journal that was given up holds nothing up.
    pub fn is_at_rest(&self) -> bool {
        for link in &self.links {
            if let Some(site) = self.sites.get(usize::from(link.from))
                && link.is_busy(site)
            {
                return false;
            }
        }
        self.has_no_answer() && self.has_no_command()
    }

    // Whether the journals have all events, and each answer to a train was handed in.
    fn has_no_answer(&self) -> bool {
        self.sites
            .iter()
            .all(|it| it.journal.has_ended(&it.own.log))
            && self.connections.iter().all(|it| it.worker.is_idle())
    }

    // Whether each line of the interlocking is answered.
    fn has_no_command(&self) -> bool {
        self.sites
            .iter()
            .all(|site| site.desks.iter().all(|it| it.is_idle()))
            && self.controls.iter().all(|it| it.is_idle())
    }

    /// After `stop`, whether the centres have ended. Once no train is connected, no answer waits for a client of the
    /// interlocking that reads nothing.
    pub fn ends(&mut self) -> bool {
        if self.connections.iter().any(|it| it.is_read) {
            return false;
        }
        end_slow(&mut self.controls);
        self.is_at_rest()
    }
}

fn add_links(run: &Run, links: &mut Vec<Link>, sites: &[Site]) {
    for from in 0..run.line.centre_count() {
        for site in sites {
            if run.line.linked(from, site.own.number) {
                run.add(links, Link::new(site, from));
            }
        }
    }
}

// Adds the threads that commit the commands of one more control connection.
fn add_desks(run: &Run, sites: &mut [Site]) {
    for site in sites {
        let desk = Worker::new(site.own.new_share());
        run.add(&mut site.desks, desk);
    }
}

// The thread of a control connection at a centre hands no answer in.
fn hold_desk(sites: &mut [Site], site: usize, desk: usize) {
    if let Some(site) = sites.get_mut(site)
        && let Some(desk) = site.desks.get_mut(desk)
    {
        desk.is_held = true;
    }
}

fn let_links_go(links: &mut [Link]) {
    for link in links {
        link.stray = None;
        link.worker.is_held = false;
    }
}

fn let_desks_go(desks: &mut [Worker]) {
    for desk in desks {
        desk.is_held = false;
    }
}

// Whether the thread of the endpoint serves one of these connections.
fn has_reserve(controls: &[Control]) -> bool {
    controls.iter().any(|it| it.is_reserve)
}

// Ends the control connections whose clients read nothing.
fn end_slow(controls: &mut [Control]) {
    for control in controls {
        if control.is_slow {
            control.end();
        }
    }
}
