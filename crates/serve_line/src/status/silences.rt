ghost use Rattle.std.specs.Prelude.{◌≡◌, ◌<◌, ◌+◌, ◌-◌, ◌^◌, ◌↔◌, count_by, drop, IsTrue, length, min, replicate, take};
ghost use Rattle.serve_line.specs.Silences.{HasCounted, is_silent_for};

use rbc_log::{CentreLog, Entry, MOST_ENTRIES};
use rbc_node::Node;
use std::sync::Wait;

/// The most entries of a log that are read in one piece. The log's centre takes no step meanwhile.
const PIECE: usize = 4_096;

/// The number of reasons why a message is left without an answer.
const REASONS: usize = 10;

/// The messages of trains that a centre left without an answer, among the first entries of its log.
#[derive(Clone, Copy)]
pub(crate) struct Silences {
    // The number of log entries that were read.
    read: usize,
    // For each reason the number of messages, at the printed number of the reason less 1.
    counts: [u64; REASONS],
}

impl Silences {
    /// No entry was read.
    pub fn new() -> Silences
        ensures { result ≡ record { read = 0; counts = replicate 10 0 } }
    {
        Silences {
            read: 0,
            counts: [0; REASONS],
        }
    }

    /// For each reason the number of messages, at the printed number of the reason less 1.
    pub fn counts(&self) -> [u64; REASONS]
        ensures { result ≡ self.now.counts }
    {
        self.counts
    }

    /// Reads the new entries of a centre's log, in pieces. Between two pieces the centre may take steps.
    pub fn catch_up<R: Wait>(&mut self, rt: &R, node: &Node) {
        for _ in 0..MOST_ENTRIES {
            let look = node.look(rt);
            if !self.read_on(look.log()) {
                return;
            }
        }
    }

    // Reads a piece of the new entries, and returns whether more are left.
    fn read_on(&mut self, log: &CentreLog) -> bool
        ensures counts { HasCounted (take 4096 (drop self.old.read log.now.entries)) self.old.counts self.new.counts }
        ensures read { self.new.read
            ≡ min (self.old.read + length (take 4096 (drop self.old.read log.now.entries))) (2 ^ 64 - 1) }
        ensures more { IsTrue result ↔ (self.new.read < length log.now.entries) }
    {
        let entries = log.entries();
        let piece = next_piece(entries, self.read);
        self.read = self.read.saturating_add(piece.len());
        add_silent(&mut self.counts, piece);
        self.read < entries.len()
    }
}

/// The entries after the first `read`, at most 4096.
pub(crate) fn next_piece(entries: &[Entry], read: usize) -> &[Entry]
    ensures { result.now ≡ take 4096 (drop read entries.now) }
{
    let Some(left) = entries.get(read..) else {
        return &[];
    };
    match left.get(..PIECE) {
        Some(first) => first,
        None => left,
    }
}

// Adds to the count of each reason the messages among these events that are silent for it.
fn add_silent(counts: &mut [u64; REASONS], entries: &[Entry])
    ensures { HasCounted entries.now counts.old counts.new }
{
    for place in 0..REASONS {
        counts[place] = counts[place].saturating_add(silent_in(entries, place as u8 + 1));
    }
}

// How many of these events are messages that are silent for the reason with this printed number.
fn silent_in(entries: &[Entry], number: u8) -> u64
    ensures { result ≡ count_by (λ entry. is_silent_for number entry) entries.now }
{
    entries
        .iter()
        .filter(|entry| is_silent_for(entry, number))
        .count() as u64
}

// Whether an event is a message that is silent for the reason with this printed number.
fn is_silent_for(entry: &Entry, number: u8) -> bool
    ensures { result ≡ is_silent_for number entry.now }
{
    match entry.outcome.silence {
        Some(reason) => reason.number() == number,
        None => false,
    }
}
