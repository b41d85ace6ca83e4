ghost use Rattle.std.specs.Prelude.{[], ◌≡◌, false, IfOk, is_some, List, None, Some, true, ℕ};
ghost use Rattle.text_replay.specs.Auditing.{audited, counted};
ghost use Rattle.text_replay.specs.Comparing.Told.{told, wants_ending};
ghost use Rattle.text_script.specs.rbc_centre.declared.fault.StepFault.{StepFault as Why};

use crate::auditing::played::Played;
use crate::comparing::{Comparison, Verdict};
use rbc_line::Line;
use std::alloc::Global;
use text_script::StepFault;
use text_script::script::{Entry, ScriptFault, script_of};
use text_script::status::Fault;

/// The beginning of an event's line in a print.
const EVENT: &str = "> ";

/// An audit of a print, line by line. The lines that begin with `> ` are the script that is run again.
///
/// It contains the centres, the current line, and the run's print of one event. A longer print does not need more.
#[derive(Drop)]
pub struct Audit<'a> {
    alloc: Global,
    line: &'a Line,
    played: Played<'a>,
    comparison: Comparison,
    /// The number of lines received.
    rows: usize,
    events: u64,
    /// Why the run stopped: a refused step, or memory ran out. Nothing is played after it.
    refused: Option<StepFault>,
    /// The number of the first script line without a valid form. Later lines are only counted.
    faulty: Option<usize>,
}

impl<'a> Audit<'a> {
    /// Starts an audit without lines.
    pub fn new(alloc: Global, line: &'a Line) -> Result<Audit<'a>, Fault<'static>>
        ensures { IfOk result (λ audit. (audit.faulty ≡ None) × (audit.refused ≡ None) × (audit.events ≡ 0)) }
    {
        Ok(Audit {
            alloc,
            line,
            played: Played::new(alloc, line)?,
            comparison: Comparison::new(alloc),
            rows: 0,
            events: 0,
            refused: None,
            faulty: None,
        })
    }

    /// Takes the next line of the print, without its line feed.
    pub fn row(&mut self, row: &str)
        ensures { is_some self.old.faulty ≡ true → (self.new.faulty ≡ self.old.faulty)
            × (self.new.comparison ≡ self.old.comparison) × (self.new.events ≡ self.old.events) }
    {
        self.rows = self.rows.saturating_add(1);
        if self.faulty.is_some() {
            return;
        }
        if let Some(text) = row.strip_prefix(EVENT) {
            self.ask(text);
        }
        self.know_ending();
        self.comparison.row(row);
    }

    /// The result of the audit, when no more lines come. A script fault is reported before a refused step, and a
    /// refused step before a difference.
    pub fn end(&mut self) -> Result<Verdict, Fault<'static>>
        ensures answer { (ending : List (List ℕ)) → result ≡ audited self.new.faulty self.new.refused
            (told self.new.comparison [] ending []) self.new.events }
        ensures faulty { self.new.faulty ≡ self.old.faulty }
        ensures refused { (why : Why) → self.old.refused ≡ Some why → self.new.refused ≡ Some why }
        ensures events { self.new.events ≡ self.old.events }
    {
        if let Some(row) = self.faulty {
            return Err(Fault::Script(row));
        }
        self.know_ending();
        if let Some(fault) = self.refused {
            return Err(Fault::Step(fault));
        }
        match self.comparison.verdict() {
            Some(line) => Ok(Verdict::Differs { line }),
            None => Ok(Verdict::Equal {
                events: self.events,
            }),
        }
    }

    // Reads the entry of a line, and plays it.
    fn ask(&mut self, text: &str) {
        match script_of(self.alloc, self.line, text) {
            Ok(entries) => {
                for entry in &entries {
                    self.play(entry);
                }
            }
            Err(ScriptFault::Form(_)) => self.faulty = Some(self.rows),
            Err(ScriptFault::Memory) => self.refuse(StepFault::Memory),
        }
    }

    fn play(&mut self, entry: &Entry)
        ensures after { is_some self.old.refused ≡ true
            → (self.new.comparison ≡ self.old.comparison) × (self.new.events ≡ self.old.events) }
        ensures counted { self.old.refused ≡ None → self.new.events ≡ counted entry.now self.old.events }
        ensures faulty { self.new.faulty ≡ self.old.faulty }
    {
        if self.refused.is_some() {
            return;
        }
        self.count(entry);
        match self.played.entry(entry) {
            Ok(text) => self.comparison.begin(text),
            Err(fault) => self.refuse(fault),
        }
    }

    // An event is counted; `show` is not.
    fn count(&mut self, entry: &Entry)
        ensures counted { self.new.events ≡ counted entry.now self.old.events }
        ensures faulty { self.new.faulty ≡ self.old.faulty }
    {
        if let Entry::Event(_) = entry {
            self.events = self.events.saturating_add(1);
        }
    }

    // After all lines of an event, the last lines of the print may come.
    fn know_ending(&mut self)
        ensures known { self.new.refused ≡ None → wants_ending self.new.comparison ≡ false }
        ensures faulty { self.new.faulty ≡ self.old.faulty }
        ensures refused { (why : Why) → self.old.refused ≡ Some why → self.new.refused ≡ Some why }
        ensures events { self.new.events ≡ self.old.events }
    {
        if self.refused.is_some() || !self.comparison.wants_ending() {
            return;
        }
        match self.played.ending() {
            Ok(text) => self.comparison.end_with(text),
            Err(fault) => self.refuse(fault),
        }
    }

    // Only the first refusal is reported.
    fn refuse(&mut self, fault: StepFault)
        ensures first { (why : Why) → self.old.refused ≡ Some why → self.new.refused ≡ Some why }
        ensures refused { is_some self.new.refused ≡ true }
        ensures faulty { self.new.faulty ≡ self.old.faulty }
        ensures events { self.new.events ≡ self.old.events }
    {
        if self.refused.is_none() {
            self.refused = Some(fault);
        }
    }
}
