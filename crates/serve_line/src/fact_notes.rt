//! Notes of the missions, of the handovers and of the sections that are given back, read off the centres' logs.

ghost use Rattle.std.specs.List.{flat_map};
ghost use Rattle.std.specs.Option.{option_map_or};
ghost use Rattle.std.specs.Prelude.{[], ◌<◌, ◌≡◌, ◌≤◌, ℕ, drop, length, map, slice_get, slice_index, take};
ghost use Rattle.rbc_log.specs.Log.{LogValue};
ghost use Rattle.rbc_node.specs.Node.{centre_of, IsLogOf};
ghost use Rattle.text_script.specs.rbc_centre.Views.{word_of};
ghost use Rattle.serve_line.specs.Facts as spec;
ghost use Rattle.serve_line.specs.Facts.{Adds, fact_list, facts_of};

use crate::journaling::{Journal, next_of};
use crate::state::Server;
use crate::status::{Fact, fact_of_event, fact_of_frame, fact_of_message, fact_of_word};
use rbc_line::Line;
use rbc_log::{Entry, MOST_ENTRIES};
use rbc_node::Node;
use serve_notes::{About, Kind, Notes};
use std::sync::Wait;
use text_script::print::name_of;
use text_script::{Saying, SentFrame, Word};

/// The most centres of a line.
const MOST_CENTRES: usize = 8;

/// Reads the new entries of the centres' logs once a second, and notes their facts. It ends when nothing more is
/// committed and all is read. The events that journals had at the start are not noted.
pub(crate) fn note_facts<R: Wait, N: Notes>(rt: &R, server: &Server<'_>, notes: &N) {
    let mut read = begins_of(server.journals);
    let mut facts = Facts {
        line: server.line,
        found: Vec::new(server.alloc),
        lost: 0,
    };
    for _ in rt.forever() {
        let is_done = server.state.is_done();
        for (count, node) in read.iter_mut().zip(server.nodes.iter()) {
            *count = facts.catch_up(rt, notes, node, *count);
        }
        if is_done {
            break;
        }
        server.state.rest_until_done(rt);
    }
}

// The numbers of events that the journals had at the start, by the centres' numbers.
fn begins_of(journals: &[Journal]) -> [usize; MOST_CENTRES]
    ensures { (c : ℕ) → c < 8
        → slice_index result c ≡ option_map_or (λ journal. journal.begins) (slice_get journals.now c) 0 }
{
    let mut begins = [0usize; MOST_CENTRES];
    for c in 0..MOST_CENTRES {
        begins[c] = begins_at(journals, c);
    }
    begins
}

// The number of events that a centre's journal had at the start; 0 without a journal.
fn begins_at(journals: &[Journal], centre: usize) -> usize
    ensures { result ≡ option_map_or (λ journal. journal.begins) (slice_get journals.now centre) 0 }
{
    match journals.get(centre) {
        Some(journal) => journal.begins(),
        None => 0,
    }
}

/// The facts of a piece of a log.
#[derive(Drop)]
struct Facts<'a> {
    line: &'a Line,
    found: Vec<Fact>,
    // The number of facts for which memory ran out.
    lost: u64,
}

impl Facts<'_> {
    // Notes the facts of a log after its first `read` entries, in pieces, and returns the number of entries. No lock is
    // held while notes are sent, and between two pieces the centre may take steps.
    fn catch_up<R: Wait, N: Notes>(&mut self, rt: &R, notes: &N, node: &Node, read: usize) -> usize
        ensures { read ≤ result }
    {
        let mut read = read;
        for _ in 0..MOST_ENTRIES {
            let count = self.read_piece(rt, node, read);
            if count == 0 {
                break;
            }
            read = read.saturating_add(count);
            self.note_all(notes, node.share().centre());
        }
        read
    }

    // Copies the facts of the next piece, and returns the number of its entries.
    fn read_piece<R: Wait>(&mut self, rt: &R, node: &Node, read: usize) -> usize
        ensures { (log : LogValue) × IsLogOf (centre_of node.now) log
            × (result ≡ length (take 256 (drop read log.entries)))
            × Adds (flat_map facts_of (take 256 (drop read log.entries))) self.old self.new }
    {
        let look = node.look(rt);
        let piece = next_of(look.log().entries(), read);
        self.add_piece(piece);
        piece.len()
    }

    // Adds the facts of these entries.
    fn add_piece(&mut self, piece: &[Entry])
        ensures { Adds (flat_map facts_of piece.now) self.old self.new }
    {
        for entry in piece {
            self.add_all(entry);
        }
    }

    // Adds the facts of an entry.
    fn add_all(&mut self, entry: &Entry)
        ensures { Adds (facts_of entry.now) self.old self.new }
    {
        let outcome = &entry.outcome;
        self.add(fact_of_event(&entry.event, outcome));
        self.add_messages(outcome.sayings.as_slice());
        self.add_frames(outcome.frames.as_slice());
        self.add_words(outcome.words().as_slice());
    }

    fn add_messages(&mut self, sayings: &[Saying])
        ensures { Adds (flat_map (λ s. fact_list (spec.fact_of_message s.nid_engine s.message.body)) sayings.now)
            self.old self.new }
    {
        for saying in sayings {
            self.add(fact_of_message(saying));
        }
    }

    fn add_frames(&mut self, frames: &[SentFrame])
        ensures { Adds (flat_map (λ f. fact_list (spec.fact_of_frame f.to f.frame.body)) frames.now)
            self.old self.new }
    {
        for sent in frames {
            self.add(fact_of_frame(sent));
        }
    }

    fn add_words(&mut self, words: &[Word])
        ensures { Adds (flat_map (λ w. fact_list (spec.fact_of_word w)) (map word_of words.now)) self.old self.new }
    {
        for word in words {
            self.add(fact_of_word(word));
        }
    }

    fn add(&mut self, fact: Option<Fact>)
        ensures { Adds (fact_list fact) self.old self.new }
    {
        if let Some(fact) = fact {
            if self.found.push(fact).is_err() {
                self.lost = self.lost.saturating_add(1);
            }
        }
    }

    // Notes the facts of the centre of this number, and forgets them.
    fn note_all<N: Notes>(&mut self, notes: &N, centre: u8)
        ensures { (self.new.found.items ≡ []) × (self.new.lost ≡ 0) }
    {
        let line = self.line;
        let name = name_of(line, centre);
        for fact in self.found.iter() {
            note_fact(notes, line, name, *fact);
        }
        self.found.clear();
        if self.lost > 0 {
            notes.lose(self.lost);
            self.lost = 0;
        }
    }
}

// The text of the note of a fact, after the name of the centre.
#[derive(Clone, Copy)]
struct FactText<'a> {
    // The thing that the fact is about, and its number.
    thing: &'static str,
    number: u32,
    told: &'static str,
    // The name of the other centre of a handover.
    other: Option<&'a str>,
}

// Notes a fact of the centre of this name.
fn note_fact<N: Notes>(notes: &N, line: &Line, name: &str, fact: Fact) {
    let about = about_fact(name, fact);
    let FactText {
        thing,
        number,
        told,
        other,
    } = text_of(line, fact);
    match other {
        Some(other) => notes.note(
            about,
            format_args!("{name}: {thing} {number} {told} {other}"),
        ),
        None => notes.note(about, format_args!("{name}: {thing} {number} {told}")),
    }
}

// The subject of the note of a fact of the centre of this name.
fn about_fact(name: &str, fact: Fact) -> About<'_>
    ensures { result ≡ record {
      kind = spec.kind_of fact;
      centre = Some name.entry;
      engine = spec.engine_of fact;
      peer = None;
    } }
{
    match fact {
        Fact::Begun(train) => About::centre(Kind::MissionBegin, name).train(train),
        Fact::Ended(train) => About::centre(Kind::MissionEnd, name).train(train),
        Fact::HandedOver(train, _) | Fact::TakenOver(train, _) => {
            About::centre(Kind::Handover, name).train(train)
        }
        Fact::Told(_) => About::centre(Kind::Section, name),
    }
}

fn text_of(line: &Line, fact: Fact) -> FactText<'_>
    ensures { spec.parts_of result ≡ spec.text_of line.now fact }
{
    match fact {
        Fact::Begun(train) => FactText {
            thing: "train",
            number: train,
            told: "begins its mission",
            other: None,
        },
        Fact::Ended(train) => FactText {
            thing: "train",
            number: train,
            told: "ends its mission",
            other: None,
        },
        Fact::HandedOver(train, to) => FactText {
            thing: "train",
            number: train,
            told: "is handed over to",
            other: Some(name_of(line, to)),
        },
        Fact::TakenOver(train, from) => FactText {
            thing: "train",
            number: train,
            told: "is taken over from",
            other: Some(name_of(line, from)),
        },
        Fact::Told(section) => FactText {
            thing: "section",
            number: u32::from(section),
            told: "was wished back, and is shut now",
            other: None,
        },
    }
}
