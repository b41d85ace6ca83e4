//! A second program audits the journals while the centres write them.

use crate::simulator::disk::Platter;
use crate::simulator::run::{MEMORY, Run};
use cli_commands::files::Files;
use cli_commands::journal::{journal_name, journals_in};
use cli_commands::line_file::LineFile;
use cli_commands::rerunning::first_unfit;
use rbc_line::Line;
use std::alloc::{AllocError, Global};
use text_journal::whole_length;

/// A program that audits the journals. It copies one after another, and the centres go on meanwhile.
#[derive(Drop)]
pub struct Auditor {
    alloc: Global,
    // By the centres' numbers, as far as they were made.
    copies: Vec<JournalCopy>,
}

// The copy of a journal.
#[derive(Drop)]
struct JournalCopy {
    name: String,
    bytes: Vec<u8>,
    // Whether a program had locked the journal.
    is_written: bool,
}

impl Auditor {
    /// A program that has copied nothing.
    pub fn new(alloc: Global) -> Auditor {
        Auditor {
            alloc,
            copies: Vec::new(alloc),
        }
    }

    /// The copies are forgotten: the centres have ended.
    pub fn forget(&mut self) {
        self.copies.clear();
    }

    /// Copies the next journal. After the last one, the copies are audited.
    pub fn step(&mut self, run: &Run) {
        let number = self.copies.len();
        match (u8::try_from(number), run.platters.get(number)) {
            (Ok(centre), Some(platter)) => match copy_of(run, centre, platter) {
                Ok(copy) => run.add(&mut self.copies, copy),
                Err(_) => run.note(MEMORY),
            },
            _ => {
                self.audit(run);
                self.forget();
            }
        }
    }

    // Audits the copies, if each journal has its first line.
    fn audit(&self, run: &Run) {
        if self.copies.iter().any(|it| whole_length(&it.bytes) == 0) {
            return;
        }
        let is_equal = match line_file(run) {
            Some(given) => self.is_equal(run, &given),
            None => false,
        };
        run.must(is_equal, "an audit refused sound journals");
    }

    // Whether the copied events are a run of the line.
    fn is_equal(&self, run: &Run, given: &LineFile) -> bool {
        match journals_in(run.alloc, given, "", self) {
            Ok(events) => matches!(
                first_unfit(run.alloc, &given.line, &events.entries),
                Ok(None)
            ),
            Err(_) => false,
        }
    }

    fn copy(&self, name: &str) -> Option<&JournalCopy> {
        self.copies.iter().find(|it| it.name.as_str() == name)
    }
}

impl Files for Auditor {
    fn text(&self, _name: &str) -> Option<String> {
        None
    }

    fn contents(&self, name: &str) -> Option<Vec<u8>> {
        let mut bytes = Vec::new(self.alloc);
        bytes.extend_from_slice(&self.copy(name)?.bytes).ok()?;
        Some(bytes)
    }

    fn is_written(&self, name: &str) -> bool {
        self.copy(name).is_some_and(|it| it.is_written)
    }

    fn is_folder(&self, _name: &str) -> bool {
        false
    }
}

fn copy_of(run: &Run, centre: u8, platter: &Platter) -> Result<JournalCopy, AllocError> {
    Ok(JournalCopy {
        name: journal_name(run.alloc, &run.line, "", centre)?,
        bytes: platter.read(run, usize::MAX),
        is_written: platter.is_locked(),
    })
}

// The line of the run, as a command reads it.
fn line_file(run: &Run) -> Option<LineFile> {
    let text = String::from_str(run.alloc, run.text).ok()?;
    let line = Line::from_toml(run.alloc, run.text).ok()?;
    Some(LineFile { text, line })
}
