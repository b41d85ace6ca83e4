ghost use Rattle.std.specs.Prelude.{◌≡◌, ℕ, ◌+◌, ◌&&◌, List, [], ◌∷◌, is_none};
ghost use Rattle.text_replay.specs.Comparing.Lines.{is_over, lines_of};
ghost use Rattle.text_replay.specs.Comparing.Part.{differs_after, due_after, found, fresh};

use crate::comparing::due::Due;

/// Compares a part of a print with its due lines, line by line.
#[derive(Drop)]
pub struct Part {
    due: Due,
    /// The number of the first line that differs.
    differs: Option<u64>,
}

impl Part {
    /// Starts a part without lines, in which the lines of this text are due.
    pub fn of(text: Vec<u8>) -> Part
        ensures { result ≡ fresh (lines_of text.items) }
    {
        Part {
            due: Due::of(text),
            differs: None,
        }
    }

    /// Whether all due lines have arrived, and no other line.
    pub fn is_over(&self) -> bool
        ensures { result ≡ is_none self.now.differs && is_over self.now.due }
    {
        self.differs.is_none() && self.due.is_over()
    }

    /// Takes the next line of the print; `number` is the line's number.
    pub fn row(&mut self, number: u64, row: &str)
        ensures told { (rows : List (List ℕ))
            → found self.old number (row.now ∷ rows) ≡ found self.new (number + 1) rows }
        ensures differs { self.new.differs ≡ differs_after number row.now self.old.differs self.old.due }
        ensures due { self.new.due ≡ due_after row.now self.old.differs self.old.due }
    {
        if self.differs.is_none() && !self.due.takes(row) {
            self.differs = Some(number);
        }
    }

    /// The number of the first line that differs, if no more lines arrive. `number` is the number that the next line
    /// would have.
    pub fn end(&self, number: u64) -> Option<u64>
        ensures { result ≡ found self.now number [] }
    {
        match self.differs {
            Some(earlier) => Some(earlier),
            None if self.due.is_over() => None,
            None => Some(number),
        }
    }
}
