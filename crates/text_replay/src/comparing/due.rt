ghost use Rattle.std.specs.Prelude.{◌≡◌, ◌≤◌, ℕ, List, drop, length};
ghost use Rattle.text_replay.specs.Comparing.Lines.{Ends, is_next, is_over, left_after, lines_of};

use std::marker::Model;

/// The lines that a print must contain next.
#[derive(Drop)]
pub struct Due {
    text: Vec<u8>,
    /// The number of bytes of the text that have arrived.
    come: usize,
}

impl Model for Due {
    ghost Value = { List (List ℕ) };

    ghost view = { λ due. lines_of (drop due.come due.text.items) };

    ghost invariant = { λ due. due.come ≤ length due.text.items };
}

impl Due {
    /// All lines of a text; a line feed ends each.
    pub fn of(text: Vec<u8>) -> Due
        ensures { result ≡ lines_of text.items }
    {
        Due { text, come: 0 }
    }

    /// Whether no more lines are due.
    pub fn is_over(&self) -> bool
        ensures { result ≡ is_over self.now }
    {
        let rest = &self.text[self.come..];
        line_end(rest).is_none()
    }

    /// Takes the next line of a print, and returns whether it is the due one. After another line the due lines are as
    /// before.
    pub fn takes(&mut self, row: &str) -> bool
        ensures answer { result ≡ is_next row.now self.old }
        ensures left { self.new ≡ left_after row.now self.old }
    {
        let rest = &self.text[self.come..];
        let Some(end) = line_end(rest) else {
            return false;
        };
        if &rest[..end] != row.as_bytes() {
            return false;
        }
        self.come += end + 1;
        true
    }
}

// The end of the first line of a text, if a line feed ends it.
fn line_end(text: &[u8]) -> Option<usize>
    ensures { Ends text.now result }
{
    text.iter().position(|byte| *byte == b'\n')
}
