//! Judges a scenario, and prints its first difference.

ghost use Rattle.std.specs.Prelude.{◌≡◌, IfOk, IsTrue};
ghost use Rattle.rbc_spec.specs.World.{new_world};
ghost use Rattle.rbc_world.specs.Views.{nothing_answered};
ghost use Rattle.text_scenario.specs.Holds.{Holds};

use crate::expectation::Expectation;
use crate::judge::{Last, supervisor_in};
use crate::known::Defaults;
use crate::row_fault::RowFault;
use crate::statement::{Said, said_in};
use crate::trial::{Step, Verdict, play};
use rbc_line::Line;
use rbc_world::{Answer, LineView, StepFault, World, WorldEvent};
use std::alloc::Global;
use std::io::Write;
use std::str::from_utf8;
use text_script::print::{print_answer, print_section, print_train};
use text_script::script::Entry;
use text_script::status::PrintFault;
use text_words::{Told, line_in_words};

/// Reads and plays the scenario of this name. Prints the first difference, or the first line that is refused. The
/// result is whether there is none.
pub fn test_scenario<W: Write>(
    alloc: Global,
    out: &mut W,
    line: &Line,
    name: &str,
    text: &str,
) -> Result<bool, PrintFault> {
    match steps_of(alloc, line, text) {
        Ok(steps) => test_steps(alloc, out, line, (name, text), &steps),
        Err((_, RowFault::Memory)) => Err(PrintFault::Memory),
        Err((row, fault)) => {
            writeln!(out, "{name} line {row}: {fault}")?;
            Ok(false)
        }
    }
}

// The lines of a scenario, or the number of the first that is refused, and the reason.
fn steps_of<'a>(
    alloc: Global,
    line: &'a Line,
    text: &'a str,
) -> Result<Vec<Step>, (usize, RowFault<'a>)> {
    let mut steps = Vec::new(alloc);
    let mut defaults = Defaults::new(alloc);
    for (k, row) in text.split('\n').enumerate() {
        let number = k.saturating_add(1);
        if let Err(fault) = add_step(alloc, line, &mut defaults, (number, row), &mut steps) {
            return Err((number, fault));
        }
    }
    Ok(steps)
}

// Reads a line, and adds its step if it has one.
fn add_step<'a>(
    alloc: Global,
    line: &'a Line,
    defaults: &mut Defaults,
    numbered: (usize, &'a str),
    steps: &mut Vec<Step>,
) -> Result<(), RowFault<'a>> {
    let (row, text) = numbered;
    if let Some(said) = said_in(alloc, line, defaults, text)? {
        steps.push(Step { row, said })?;
    }
    Ok(())
}

// Plays the lines from the beginning of the line's centres, and prints the difference.
fn test_steps<W: Write>(
    alloc: Global,
    out: &mut W,
    line: &Line,
    scenario: (&str, &str),
    steps: &[Step],
) -> Result<bool, PrintFault>
    ensures { IfOk result
        (λ passed. IsTrue passed → Holds line.now (new_world line.now) 0 nothing_answered steps.now) }
{
    let mut world = World::new(alloc, line)?;
    let mut last = Last {
        centre: 0,
        answer: Answer::nothing(),
    };
    match play(alloc, &mut world, line, &mut last, steps) {
        Ok(verdict) => {
            let end = End {
                alloc,
                line,
                steps,
                world: &world,
                last: &last,
            };
            end.report(out, scenario, verdict)
        }
        Err(fault) => Err(fault.into()),
    }
}

/// The centres at the end of a trial, and the lines that it played.
#[derive(Clone, Copy)]
struct End<'a> {
    alloc: Global,
    line: &'a Line,
    steps: &'a [Step],
    world: &'a World,
    last: &'a Last,
}

impl End<'_> {
    // Prints the difference, or the refused event. The result is whether there is none.
    fn report<W: Write>(
        self,
        out: &mut W,
        scenario: (&str, &str),
        verdict: Verdict,
    ) -> Result<bool, PrintFault>
        ensures { IfOk result (λ passed. IsTrue passed → verdict ≡ Verdict.Passed) }
    {
        let (name, text) = scenario;
        match verdict {
            Verdict::Passed => Ok(true),
            Verdict::Refused(k, fault) => {
                print_refusal(out, name, row_at(self.steps, k), fault)?;
                Ok(false)
            }
            Verdict::Differs(k) => {
                print_expected(out, name, row_at(self.steps, k), text)?;
                self.print_difference(out, k)?;
                Ok(false)
            }
        }
    }

    // Prints the answer that the expectation at place k judges, in words.
    fn print_difference<W: Write>(self, out: &mut W, k: usize) -> Result<(), PrintFault> {
        let mut came = Vec::new(self.alloc);
        self.print_answered(&mut came, k)?;
        print_came(self.alloc, out, self.line, &came)
    }

    // Prints that answer as `run` does.
    fn print_answered(self, came: &mut Vec<u8>, k: usize) -> Result<(), PrintFault> {
        match expected_at(self.steps, k) {
            Some(Expectation::Section { section, .. }) => {
                print_use(came, self.line, &self.world.view(self.alloc)?, section)
            }
            Some(Expectation::Train { nid_engine, .. }) => {
                print_supervisor(came, self.line, &self.world.view(self.alloc)?, nid_engine)
            }
            _ => self.print_last(came, k),
        }
    }

    // Prints the answer to the last event before place k.
    fn print_last(self, came: &mut Vec<u8>, k: usize) -> Result<(), PrintFault> {
        match last_event(self.steps, k) {
            Some(event) => print_answer(self.alloc, came, self.line, event, &self.last.answer),
            None => {
                writeln!(came, "no event")?;
                Ok(())
            }
        }
    }
}

// Prints that the step of a line is refused.
fn print_refusal<W: Write>(
    out: &mut W,
    name: &str,
    row: usize,
    fault: StepFault,
) -> Result<(), PrintFault> {
    let number = fault.number();
    writeln!(out, "{name} line {row}: step refused {number}")?;
    Ok(())
}

// Prints a line of a text.
fn print_expected<W: Write>(
    out: &mut W,
    name: &str,
    row: usize,
    text: &str,
) -> Result<(), PrintFault> {
    let expected = text
        .split('\n')
        .nth(row.saturating_sub(1))
        .unwrap_or("")
        .trim();
    writeln!(out, "{name} line {row}: {expected}")?;
    Ok(())
}

// The number of the line of a step.
fn row_at(steps: &[Step], k: usize) -> usize {
    match steps.get(k) {
        Some(step) => step.row,
        None => 0,
    }
}

// The expectation at place k.
fn expected_at(steps: &[Step], k: usize) -> Option<Expectation> {
    match &steps.get(k)?.said {
        Said::Expect(expectation) => Some(*expectation),
        Said::Entry(_) => None,
    }
}

// Prints the lines of a print in words.
fn print_came<W: Write>(
    alloc: Global,
    out: &mut W,
    line: &Line,
    came: &[u8],
) -> Result<(), PrintFault> {
    for row in from_utf8(came).unwrap_or("").lines() {
        match line_in_words(alloc, line, row)? {
            Some(told) => print_told(out, &told)?,
            None => writeln!(out, "  came: {row}")?,
        }
    }
    Ok(())
}

fn print_told<W: Write>(out: &mut W, told: &Told) -> Result<(), PrintFault> {
    let who = told.who.as_str();
    let between = if who.is_empty() { "" } else { ": " };
    writeln!(out, "  came: {who}{between}{}", told.what.as_str())?;
    Ok(())
}

// The last event before place k.
fn last_event(steps: &[Step], k: usize) -> Option<&WorldEvent> {
    let mut last = None;
    for step in steps.iter().take(k) {
        if let Said::Entry(Entry::Event(event)) = &step.said {
            last = Some(event);
        }
    }
    last
}

// Prints the use of a section, if the line has it.
fn print_use<W: Write>(
    out: &mut W,
    line: &Line,
    view: &LineView,
    section: u16,
) -> Result<(), PrintFault> {
    match view.sections.get(section as usize) {
        Some(found) => print_section(out, line, section as usize, found),
        None => {
            writeln!(out, "the line has no section {section}")?;
            Ok(())
        }
    }
}

// Prints the supervisor of a train.
fn print_supervisor<W: Write>(
    out: &mut W,
    line: &Line,
    view: &LineView,
    nid_engine: u32,
) -> Result<(), PrintFault> {
    print_train(out, line, nid_engine, supervisor_in(view, nid_engine))
}
