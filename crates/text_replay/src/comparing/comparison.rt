ghost use Rattle.std.specs.Prelude.{◌≡◌, ℕ, ◌+◌, ◌<◌, ◌^◌, List, [], ◌∷◌, true, false};
ghost use Rattle.text_replay.specs.Comparing.Lines.{lines_of};
ghost use Rattle.text_replay.specs.Comparing.Blocks.{Block, blocks_from, differs_in};
ghost use Rattle.text_replay.specs.Comparing.Told.{told, wants_ending};

use crate::comparing::part::Part;
use std::alloc::Global;

/// Compares a print with its due lines, while both arrive, part by part. A part begins with the line of an event. The
/// lines that end a print follow those of the last event.
#[derive(Drop)]
pub struct Comparison {
    /// The number of the next line.
    next: u64,
    part: Part,
    /// Compares the lines after the part with the lines that end a print.
    ending: Option<Part>,
    /// The number of the first line that differs in earlier parts.
    differs: Option<u64>,
}

impl Comparison {
    /// Starts a comparison without lines. No line is due before the first event.
    pub fn new(alloc: Global) -> Comparison
        ensures { (rows ending : List (List ℕ)) (blocks : List Block)
            → told result rows ending blocks ≡ differs_in 1 (blocks_from [] rows ending blocks) }
    {
        Comparison {
            next: 1,
            part: Part::of(Vec::new(alloc)),
            ending: None,
            differs: None,
        }
    }

    /// Begins the part of an event. The lines of this text are due in it.
    pub fn begin(&mut self, text: Vec<u8>)
        ensures { (last rows ending : List (List ℕ)) (blocks : List Block)
            → told self.old [] last (blocks_from (lines_of text.items) rows ending blocks)
            ≡ told self.new rows ending blocks }
    {
        self.differs = self.differs.or(self.part.end(self.next));
        self.part = Part::of(text);
        self.ending = None;
    }

    /// Whether all lines of the part have arrived, and the lines that end the print are not known yet.
    pub fn wants_ending(&self) -> bool
        ensures { result ≡ wants_ending self.now }
    {
        self.differs.is_none() && self.ending.is_none() && self.part.is_over()
    }

    /// Gives the lines that end the print if no more events follow.
    pub fn end_with(&mut self, text: Vec<u8>)
        ensures ending { (rows other : List (List ℕ)) (blocks : List Block) → wants_ending self.old ≡ true
            → told self.old rows (lines_of text.items) blocks ≡ told self.new rows other blocks }
        ensures known { wants_ending self.new ≡ false }
    {
        self.ending = Some(Part::of(text));
    }

    /// Takes the next line of the print. If all lines of the part have arrived, the lines that end the print must be
    /// known.
    pub fn row(&mut self, row: &str)
        ensures { (rows ending : List (List ℕ)) (blocks : List Block) → wants_ending self.old ≡ false
            → self.old.next + 1 < 2 ^ 64
            → told self.old (row.now ∷ rows) ending blocks ≡ told self.new rows ending blocks }
    {
        self.part.row(self.next, row);
        if let Some(ending) = &mut self.ending {
            ending.row(self.next, row);
        }
        self.next = self.next.saturating_add(1);
    }

    /// The number of the first line that differs, if no more lines arrive.
    pub fn verdict(&self) -> Option<u64>
        ensures { (ending : List (List ℕ)) → wants_ending self.now ≡ false → result ≡ told self.now [] ending [] }
    {
        let last = match &self.ending {
            Some(ending) => ending.end(self.next),
            None => self.part.end(self.next),
        };
        self.differs.or(last)
    }
}
