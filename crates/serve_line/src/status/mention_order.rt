ghost use Rattle.std.specs.Prelude.{◌≡◌, IfOk, length, map, replicate};
ghost use Rattle.text_script.specs.rbc_centre.Views.{event_of};
ghost use Rattle.serve_line.specs.Mentions as spec;

use crate::status::silences::next_piece;
use rbc_line::Line;
use rbc_log::{CentreLog, Entry};
use std::alloc::{AllocError, Global};
use text_script::Event;

/// The trains that messages to the centres have named, and the first such message of each.
#[derive(Drop)]
pub struct MentionOrder {
    // In the order of the trains in the line file.
    first: Vec<Option<Mention>>,
    // Indexed by the centres' numbers: the number of log entries read so far.
    looked: Vec<usize>,
}

/// A message that named a train: the stamp of its step, and the centre.
#[derive(Clone, Copy)]
struct Mention {
    stamp: u32,
    centre: u8,
}

impl Mention {
    // Its place in the order of all messages: by the stamp, and then by the centre's number.
    fn place(self) -> u64
        ensures { result ≡ spec.place_of self }
    {
        u64::from(self.stamp) * 256 + u64::from(self.centre)
    }
}

impl MentionOrder {
    /// No train has been named.
    pub fn new(alloc: Global, line: &Line) -> Result<MentionOrder, AllocError>
        ensures first { IfOk result (λ order. order.first.items ≡ replicate (length line.now.trains) None) }
        ensures looked { IfOk result (λ order. order.looked.items ≡ replicate (length line.now.centres) 0) }
    {
        Ok(MentionOrder {
            first: vec![in alloc; None; line.train_count() as usize]?,
            looked: vec![in alloc; 0usize; line.centre_count() as usize]?,
        })
    }

    /// Reads a piece of the new log entries of a centre, and returns whether more are left.
    pub fn read_on(&mut self, line: &Line, log: &CentreLog) -> bool
        ensures first { self.new.first.items ≡ spec.named_in line.now self.old.first.items
            (spec.new_entries self.old.looked.items log.now) }
    {
        let centre = log.number() as usize;
        let Some(looked) = self.looked.get_mut(centre) else {
            return false;
        };
        let piece = next_piece(log.entries(), *looked);
        let read = looked.saturating_add(piece.len());
        *looked = read;
        for entry in piece {
            self.read(line, entry);
        }
        read < log.entries().len()
    }

    fn read(&mut self, line: &Line, entry: &Entry)
        ensures first { self.new.first.items ≡ spec.named_after line.now self.old.first.items entry.now }
        ensures looked { self.new.looked.items ≡ self.old.looked.items }
    {
        let Some(train) = named_by(line, entry) else {
            return;
        };
        let mention = Mention {
            stamp: entry.outcome.stamp,
            centre: entry.centre,
        };
        if let Some(place) = self.first.get_mut(train as usize) {
            *place = Some(earlier(*place, mention));
        }
    }

    /// The named trains, by their places in the line file, in the order of their first messages.
    pub fn order(&self, alloc: Global) -> Result<Vec<usize>, AllocError>
        ensures { IfOk result (λ trains. spec.AreInOrder self.now.first.items trains.items) }
    {
        let mut heard = self.heard(alloc)?;
        heard.sort_by_key(|item| item.0.place())?;
        trains_of(alloc, &heard)
    }

    // The first message of each named train, with the train's place in the line file.
    fn heard(&self, alloc: Global) -> Result<Vec<(Mention, usize)>, AllocError>
        ensures { IfOk result (λ heard. heard.items ≡ spec.heard_from 0 self.now.first.items) }
    {
        let mut heard = Vec::new(alloc);
        for (train, first) in self.first.iter().enumerate() {
            if let Some(first) = first {
                heard.push((*first, train))?;
            }
        }
        Ok(heard)
    }
}

// The trains of these messages.
fn trains_of(alloc: Global, heard: &[(Mention, usize)]) -> Result<Vec<usize>, AllocError>
    ensures { IfOk result (λ trains. trains.items ≡ map (λ item. item.1) heard.now) }
{
    heard.iter().map(|item| item.1).collect(alloc)
}

// The place in the line file of the train that a message to a centre names.
fn named_by(line: &Line, entry: &Entry) -> Option<u8>
    ensures { result ≡ spec.named_by line.now (event_of entry.now.event) }
{
    match &entry.event {
        Event::Train(message) => line.train_number(message.nid_engine()),
        Event::Set(_) | Event::Unset(_) | Event::Deliver { .. } => None,
    }
}

// The earlier one of two messages.
fn earlier(first: Option<Mention>, next: Mention) -> Mention
    ensures { result ≡ spec.earlier first next }
{
    match first {
        Some(first) if first.place() <= next.place() => first,
        _ => next,
    }
}
