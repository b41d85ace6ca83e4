//! Writes tables as JSON for a program or as HTML for a person. As JSON a table is a list of lists. The first list
//! has the names of the columns. As HTML the columns are named in words.

use crate::heads::{title_of, words_of};
use crate::utc::Utc;
use std::alloc::{AllocError, Global};

#[derive(Clone, Copy)]
pub(crate) enum Form {
    Json,
    Html,
}

/// The content of one cell of a table.
#[derive(Clone, Copy)]
pub(crate) enum Cell<'a> {
    Nothing,
    Number(u64),
    /// A number of tenths.
    Tenths(u64),
    /// Whether a thing is so.
    Flag(bool),
    /// A time in milliseconds since 1970 in UTC.
    Time(u64),
    Text(&'a str),
}

/// A text that collects tables.
#[derive(Drop)]
pub(crate) struct Sheet {
    form: Form,
    text: String,
}

impl Sheet {
    pub fn new(alloc: Global, form: Form) -> Sheet {
        Sheet {
            form,
            text: String::new(alloc),
        }
    }

    /// Begins a table.
    pub fn begin(&mut self, name: &str, columns: &[&str]) -> Result<(), AllocError> {
        self.name(name)?;
        self.heads(0, columns)?;
        self.end_row()
    }

    /// Begins a table whose lines each start with the number of an event.
    pub fn begin_at(&mut self, name: &str, columns: &[&str]) -> Result<(), AllocError> {
        self.name(name)?;
        self.heads(0, &["event"])?;
        self.heads(1, columns)?;
        self.end_row()
    }

    /// Writes a line of a table.
    pub fn row(&mut self, cells: &[Cell<'_>]) -> Result<(), AllocError> {
        self.begin_row()?;
        self.cells(0, cells)?;
        self.end_row()
    }

    /// Writes a line of a table that starts with the number of an event.
    pub fn row_at(&mut self, event: u64, cells: &[Cell<'_>]) -> Result<(), AllocError> {
        self.begin_row()?;
        self.cells(0, &[Cell::Number(event)])?;
        self.cells(1, cells)?;
        self.end_row()
    }

    /// Ends a table.
    pub fn end(&mut self) -> Result<(), AllocError> {
        self.text.push_str(match self.form {
            Form::Json => "]",
            Form::Html => "</table>\n",
        })
    }

    /// Returns the text.
    pub fn into_text(self) -> String {
        self.text
    }

    fn name(&mut self, name: &str) -> Result<(), AllocError> {
        match self.form {
            Form::Json => write!(self.text, ",\n\"{name}\":[["),
            Form::Html => {
                let title = title_of(name);
                write!(self.text, "<h2>{title}</h2><table><tr>")
            }
        }
    }

    // Writes names of columns; the first of them has this number.
    fn heads(&mut self, first: usize, columns: &[&str]) -> Result<(), AllocError> {
        let form = self.form;
        for (number, column) in columns.iter().enumerate() {
            self.between(first.saturating_add(number), "<th scope='col'>")?;
            self.cell(Cell::Text(head_of(form, column)))?;
        }
        Ok(())
    }

    fn begin_row(&mut self) -> Result<(), AllocError> {
        self.text.push_str(match self.form {
            Form::Json => ",[",
            Form::Html => "<tr>",
        })
    }

    // Writes cells; the first of them has this number in its line.
    fn cells(&mut self, first: usize, cells: &[Cell<'_>]) -> Result<(), AllocError> {
        for (number, cell) in cells.iter().enumerate() {
            self.between(first.saturating_add(number), "<td>")?;
            self.cell(*cell)?;
        }
        Ok(())
    }

    // Writes the text before the cell of this number.
    fn between(&mut self, number: usize, mark: &str) -> Result<(), AllocError> {
        match self.form {
            Form::Json if number == 0 => Ok(()),
            Form::Json => self.text.push(','),
            Form::Html => self.text.push_str(mark),
        }
    }

    fn end_row(&mut self) -> Result<(), AllocError> {
        match self.form {
            Form::Json => self.text.push(']'),
            Form::Html => self.text.push('\n'),
        }
    }

    fn cell(&mut self, cell: Cell<'_>) -> Result<(), AllocError> {
        match (cell, self.form) {
            (Cell::Nothing, Form::Json) => self.text.push_str("null"),
            (Cell::Nothing, Form::Html) => Ok(()),
            (Cell::Number(number), _) => write!(self.text, "{number}"),
            (Cell::Tenths(tenths), form) => {
                let (ones, rest) = (tenths / 10, tenths % 10);
                match (rest, form) {
                    (0, Form::Html) => write!(self.text, "{ones}"),
                    _ => write!(self.text, "{ones}.{rest}"),
                }
            }
            (Cell::Flag(is_so), Form::Json) => self.text.push(if is_so { '1' } else { '0' }),
            (Cell::Flag(true), Form::Html) => self.text.push_str("yes"),
            (Cell::Flag(false), Form::Html) => Ok(()),
            (Cell::Time(time_ms), form) => self.time(form, Utc(time_ms)),
            (Cell::Text(text), Form::Html) => self.put(text),
            (Cell::Text(text), Form::Json) => {
                self.text.push('"')?;
                self.put(text)?;
                self.text.push('"')
            }
        }
    }

    fn time(&mut self, form: Form, time: Utc) -> Result<(), AllocError> {
        match form {
            Form::Json => write!(self.text, "\"{time}\""),
            Form::Html => write!(self.text, "{time}"),
        }
    }

    // Writes a text. A character that could end the text in JSON is written as a blank. No name and no event in words
    // contains one. JSON contains no `<`, so it ends no element of a page.
    fn put(&mut self, text: &str) -> Result<(), AllocError> {
        for letter in text.chars() {
            match (letter, self.form) {
                ('<', Form::Html) => self.text.push_str("&lt;")?,
                ('>', Form::Html) => self.text.push_str("&gt;")?,
                ('&', Form::Html) => self.text.push_str("&amp;")?,
                ('<', Form::Json) => self.text.push_str("\\u003c")?,
                ('"' | '\\' | '\0'..='\u{1f}', Form::Json) => self.text.push(' ')?,
                (other, _) => self.text.push(other)?,
            }
        }
        Ok(())
    }
}

// The head of a column.
fn head_of(form: Form, column: &str) -> &str {
    match form {
        Form::Json => column,
        Form::Html => words_of(column),
    }
}
