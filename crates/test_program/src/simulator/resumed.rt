//! Centres that take the events of their journals.

use crate::simulator::run::{MEMORY, Run};
use rbc_centre::{Event, Outcome};
use rbc_log::CentreLog;
use rbc_msgs::decode_train;
use rbc_node::{Node, Share, ShareFault};
use std::alloc::Global;
use std::str::from_utf8;
use text_journal::{Entry, first_fallen, in_order, read_journal, whole_length};
use text_script::WorldEvent;

/// A centre with its log, and the receipts of the events that it took from a journal.
#[derive(Drop)]
pub struct Resumed {
    pub number: u8,
    pub log: Box<CentreLog, Global>,
    // Makes the shares of its threads, and takes no event.
    node: Box<Node, Global>,
    share: Share,
}

impl Resumed {
    // A centre of the line before its first event. `None` if memory runs out.
    fn new(run: &Run, number: u8) -> Option<Resumed> {
        let log = new_log(run, number)?;
        let node = new_node(run, number)?;
        let share = node.share();
        Some(Resumed {
            number,
            log,
            node,
            share,
        })
    }

    /// The share of one more thread.
    pub fn new_share(&self) -> Share {
        self.node.share()
    }
}

fn new_log(run: &Run, number: u8) -> Option<Box<CentreLog, Global>> {
    let line = &*run.line;
    if number >= line.centre_count() {
        return None;
    }
    let log = CentreLog::new(run.alloc, line, number).ok()?;
    Box::new(run.alloc, log).ok()
}

fn new_node(run: &Run, number: u8) -> Option<Box<Node, Global>> {
    let line = &*run.line;
    if number >= line.centre_count() {
        return None;
    }
    let node = Node::new(run.alloc, line, number).ok()?;
    Box::new(run.alloc, node).ok()
}

/// The centres of the line, before their first events.
pub fn resumed_of(run: &Run) -> Vec<Resumed> {
    let mut all = Vec::new(run.alloc);
    for number in 0..run.line.centre_count() {
        if let Some(one) = Resumed::new(run, number) {
            run.add(&mut all, one);
        }
    }
    all
}

/// The centres that have taken the events of the journals.
pub fn taken_up(run: &Run, found: &[Vec<u8>]) -> Vec<Resumed> {
    let mut centres = resumed_of(run);
    let mut entries = Vec::new(run.alloc);
    for (centre, bytes) in centres.iter().zip(found) {
        let whole = bytes.get(..whole_length(bytes)).unwrap_or_default();
        run.add(&mut entries, entries_in(run, centre.number, whole));
    }
    match in_order(run.alloc, entries) {
        Ok(entries) => {
            for entry in &entries {
                let _ = commit_entry(run, &mut centres, entry);
            }
        }
        Err(_) => run.note(MEMORY),
    }
    centres
}

/// The entries of the whole lines of a journal.
pub fn entries_in(run: &Run, centre: u8, whole: &[u8]) -> Vec<Entry> {
    let text = from_utf8(whole).unwrap_or("no text");
    let line = &*run.line;
    if centre < line.centre_count()
        && let Ok(entries) = read_journal(run.alloc, line, centre, "", text)
        && first_fallen(&entries).is_none()
    {
        return entries;
    }
    run.note("a journal can't be read, or its stamps do not rise");
    Vec::new(run.alloc)
}

/// Commits an event of a journal at its centre. Its answer must have the stamp of the entry.
pub fn commit_entry(run: &Run, all: &mut [Resumed], entry: &Entry) -> Result<Outcome, ShareFault> {
    let event = event_of(run, all, &entry.event);
    if let Some(event) = event
        && let Some(centre) = all.get_mut(usize::from(entry.centre()))
    {
        let answer = centre.share.commit(&mut centre.log, event);
        let is_same = answer.as_ref().is_ok_and(|it| it.stamp == entry.stamp);
        run.must(is_same, "a journal has an event that does not fit");
        return answer;
    }
    run.note("a journal has an event that no centre can take");
    Err(ShareFault::Stray)
}

// The event in the form in which its centre takes it. `None` if its bytes are not a message, or its frame was not sent.
fn event_of(run: &Run, all: &[Resumed], event: &WorldEvent) -> Option<Event> {
    match event {
        WorldEvent::Train { bytes, .. } => decode_train(run.alloc, bytes).ok().map(Event::Train),
        WorldEvent::Set { section, .. } => Some(Event::Set(*section)),
        WorldEvent::Unset { section, .. } => Some(Event::Unset(*section)),
        WorldEvent::Deliver { from, to, number } => {
            let frame = all.get(usize::from(*from))?.log.frame(*to, *number)?;
            Some(Event::Deliver { from: *from, frame })
        }
    }
}

/// Whether two logs have the same events, with the same outcomes.
pub fn is_same(one: &CentreLog, other: &CentreLog) -> bool {
    let (ours, theirs) = (one.entries(), other.entries());
    if ours.len() != theirs.len() {
        return false;
    }
    for (one, other) in ours.iter().zip(theirs.iter()) {
        if !one.event.is_same(&other.event) || !one.outcome.is_same(&other.outcome) {
            return false;
        }
    }
    true
}
