//! Judges the messages and texts that left the centres by the durable bytes of the journals, and by nothing else.

use crate::simulator::control::text_of;
use crate::simulator::resumed::{Resumed, commit_entry, entries_in, is_same, resumed_of};
use crate::simulator::run::{MEMORY, Run};
use crate::simulator::site::{RATE, Site};
use crate::simulator::watching::Promise;
use rbc_centre::{Event, Outcome};
use rbc_log::CentreLog;
use rbc_msgs::TrackMsg;
use rbc_node::ShareFault;
use text_journal::{Entry, in_order};
use text_script::print::print_section;
use text_script::{SectionView, WorldEvent, mark_of};

/// A message of a centre to a train.
#[derive(Clone, Copy, PartialEq, Eq)]
pub struct Said {
    pub centre: u8,
    pub nid_engine: u32,
    pub message: TrackMsg,
}

/// The judge's knowledge of a centre.
#[derive(Drop)]
pub struct Known {
    // The number of the events of its journal that the judge has taken.
    taken: usize,
    // That number when the centres started.
    begun: usize,
    /// The use of the centre's sections at the first, and after each event.
    pub shown: Vec<Vec<u8>>,
}

/// The centres as their journals have them, and the messages that may leave.
#[derive(Drop)]
pub struct Judge {
    /// By the centres' numbers, as `known`.
    centres: Vec<Resumed>,
    pub known: Vec<Known>,
    promise: Promise,
    /// The messages to trains, in order.
    pub said: Vec<Said>,
    /// The answers to events of the interlocking that have not left.
    pub answers: Vec<Vec<u8>>,
    // When the centres started, in milliseconds.
    since: u64,
}

impl Judge {
    /// No event has happened.
    pub fn new(run: &Run) -> Judge {
        let mut judge = Judge {
            centres: resumed_of(run),
            known: Vec::new(run.alloc),
            promise: Promise::new(run),
            said: Vec::new(run.alloc),
            answers: Vec::new(run.alloc),
            since: 0,
        };
        judge.add_known(run);
        judge
    }

    fn add_known(&mut self, run: &Run) {
        for centre in &self.centres {
            let mut known = Known {
                taken: 0,
                begun: 0,
                shown: Vec::new(run.alloc),
            };
            known.show(run, &centre.log);
            run.add(&mut self.known, known);
        }
    }

    /// The centres have started now.
    pub fn begin(&mut self, run: &Run) {
        self.answers.clear();
        self.since = run.now_ms();
        for known in &mut self.known {
            known.begun = known.taken;
        }
    }

    /// Takes the new events of the journals.
    pub fn catch_up(&mut self, run: &Run) {
        let mut entries = Vec::new(run.alloc);
        for (centre, known) in self.centres.iter().zip(&mut self.known) {
            run.add(&mut entries, known.new_entries(run, centre.number));
        }
        match in_order(run.alloc, entries) {
            Ok(entries) => {
                for entry in &entries {
                    self.take(run, entry);
                }
            }
            Err(_) => run.note(MEMORY),
        }
    }

    // Takes an event of a journal. The promise holds after it, and its engine keeps to its rate.
    fn take(&mut self, run: &Run, entry: &Entry) {
        let at = usize::from(entry.centre());
        let answer = commit_entry(run, &mut self.centres, entry);
        let text = text_of(run, &entry.event, &answer);
        self.promise.holds_after(run, &text);
        self.expect(run, entry, &answer);
        if let WorldEvent::Set { .. } | WorldEvent::Unset { .. } = &entry.event {
            run.add(&mut self.answers, text);
        }
        if let Some(known) = self.known.get_mut(at)
            && let Some(centre) = self.centres.get(at)
        {
            let time_ms = entry.time_ms.unwrap_or(0).saturating_sub(self.since);
            known.judge_rate(run, &centre.log, time_ms);
            known.show(run, &centre.log);
        }
    }

    // The messages of an answer may leave now.
    fn expect(&mut self, run: &Run, entry: &Entry, answer: &Result<Outcome, ShareFault>) {
        let Ok(outcome) = answer else {
            return;
        };
        for saying in outcome.sayings.as_slice() {
            let said = Said {
                centre: entry.centre(),
                nid_engine: saying.nid_engine,
                message: saying.message,
            };
            run.add(&mut self.said, said);
        }
    }

    /// Whether each centre has taken all frames to it.
    pub fn has_all_frames(&self) -> bool {
        for to in &self.centres {
            for from in &self.centres {
                let taken = to.log.core().taken(from.number);
                if from.log.frame(to.number, taken.saturating_add(1)).is_some() {
                    return false;
                }
            }
        }
        true
    }

    /// Whether the running centres have the events of the journals, and no others.
    pub fn has_events_of(&self, sites: &[Site]) -> bool {
        for (ours, site) in self.centres.iter().zip(sites) {
            if !is_same(&ours.log, &site.own.log) {
                return false;
            }
        }
        true
    }
}

impl Known {
    // The durable events of the centre's journal that were not taken.
    fn new_entries(&mut self, run: &Run, centre: u8) -> Vec<Entry> {
        if let Some(platter) = run.platters.get(usize::from(centre)) {
            let bytes = platter.read(run, platter.durable.get());
            let mut all = entries_in(run, centre, &bytes);
            let (count, taken) = (all.len(), self.taken);
            if taken <= count
                && let Ok(new) = all.split_off(taken)
            {
                self.taken = count;
                return new;
            }
        }
        run.note("durable events of a journal were cut off");
        Vec::new(run.alloc)
    }

    // The engine of the last event does not have more messages than its rate allows in this time.
    fn judge_rate(&self, run: &Run, log: &CentreLog, time_ms: u64) {
        let gained = time_ms.saturating_mul(u64::from(RATE.per_second)) / 1_000;
        let most = gained.saturating_add(u64::from(RATE.burst) + 1);
        let is_kept = messages_of_last(log, self.begun) <= most;
        run.must(is_kept, "an engine sends faster than its rate");
    }

    // Notes the use of the centre's sections.
    fn show(&mut self, run: &Run, log: &CentreLog) {
        let mut text = Vec::new(run.alloc);
        add_sections(run, log, &mut text);
        if self.shown.last().is_none_or(|last| *last != text) {
            run.add(&mut self.shown, text);
        }
    }
}

// The number of messages of the engine whose message is the last event, after the first `begun` events; 0 if that is
// not a message.
fn messages_of_last(log: &CentreLog, begun: usize) -> u64 {
    let entries = log.entries().get(begun..).unwrap_or_default();
    let Some(last) = entries.last().and_then(engine_of) else {
        return 0;
    };
    let mut count = 0u64;
    for entry in entries {
        if engine_of(entry) == Some(last) {
            count = count.saturating_add(1);
        }
    }
    count
}

fn engine_of(entry: &rbc_log::Entry) -> Option<u32> {
    match &entry.event {
        Event::Train(message) => Some(message.nid_engine()),
        _ => None,
    }
}

/// Adds the use of the sections of a centre's home to a text, as its log has it. A section in use is shown as kept.
pub fn add_sections(run: &Run, log: &CentreLog, text: &mut Vec<u8>) {
    for s in 0..run.line.section_count() {
        if run.line.is_home(log.number(), s) {
            let page = log.core().page(s);
            let section = SectionView {
                mark: mark_of(page.entry, false),
                is_wished: page.is_wished,
            };
            let is_done = print_section(text, &run.line, usize::from(s), &section).is_ok();
            run.must(is_done, MEMORY);
        }
    }
}
