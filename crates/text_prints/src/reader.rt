ghost use Rattle.std.specs.Prelude.{◌≡◌, ◌≢◌, ◌++◌, ◌∷◌, [], codes, IfOk, List, MatchOption, None, ℕ};
ghost use Rattle.text_prints.specs.Exchanges.{IsAdded, IsBegun, IsRead};
ghost use Rattle.text_prints.specs.Readers.{last_of, line_of};

use crate::event::event_in;
use crate::fault::RowFault;
use crate::row::is_state;
use crate::spoken::with_row;
use rbc_line::Line;
use rbc_watch::Exchange;
use std::alloc::Global;

/// Reads a print line by line. It has only the last event, with the messages and replies after it so far.
#[derive(Drop)]
pub struct Reader<'a> {
    alloc: Global,
    line: &'a Line,
    last: Option<Exchange>,
}

impl<'a> Reader<'a> {
    /// No line was read.
    pub fn new(alloc: Global, line: &'a Line) -> Reader<'a>
        ensures line { line_of result ≡ line.now }
        ensures last { last_of result ≡ None }
    {
        Reader {
            alloc,
            line,
            last: None,
        }
    }

    /// Takes the next line, without its line feed. Returns the exchange that is complete before it, if one is. Nothing
    /// may be read after an error.
    pub fn row(&mut self, row: &str) -> Result<Option<Exchange>, RowFault>
        ensures { IfOk result (λ complete.
            IsRead (line_of self.old) (last_of self.old) row.now complete (last_of self.new)) }
    {
        match event_text(row) {
            Some(text) => {
                let next = begun(self.alloc, self.line, text)?;
                let complete = self.last.take();
                self.last = next;
                Ok(complete)
            }
            None => {
                let before = self.last.take();
                self.last = with_line(self.alloc, self.line, before, row)?;
                Ok(None)
            }
        }
    }

    /// The last exchange, after all lines.
    pub fn end(&mut self) -> Option<Exchange>
        ensures { result ≡ last_of self.old }
    {
        self.last.take()
    }
}

// The text of a line of a script, if the line of the print has one.
fn event_text(row: &str) -> Option<&str>
    ensures { MatchOption result ((text : List ℕ) → row.now ≢ codes "> " ++ text)
        (λ text. row.now ≡ codes "> " ++ text.now) }
{
    match row.strip_prefix('>') {
        Some(rest) => rest.strip_prefix(' '),
        None => None,
    }
}

// The exchange of an event, which begins. After `show` there is none.
fn begun(alloc: Global, line: &Line, text: &str) -> Result<Option<Exchange>, RowFault>
    ensures { IfOk result (IsBegun line.now text.now) }
{
    match event_in(alloc, line, text)? {
        Some(event) => Ok(Some(Exchange {
            event,
            spoken: None,
        })),
        None => Ok(None),
    }
}

// The exchange with one more line.
fn with_line(
    alloc: Global,
    line: &Line,
    last: Option<Exchange>,
    row: &str,
) -> Result<Option<Exchange>, RowFault>
    ensures { IfOk result (IsAdded line.now last (row.now ++ 10 ∷ [])) }
{
    match last {
        Some(exchange) => Ok(Some(with_row(alloc, line, exchange, row)?)),
        None => {
            if is_state(alloc, line, row)? {
                Ok(None)
            } else {
                Err(RowFault::NoEvent)
            }
        }
    }
}
