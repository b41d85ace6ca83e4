use rbc_line::Line;
use std::alloc::Global;
use text_script::print::{print_answer, print_event, print_line, print_show};
use text_script::script::Entry;
use text_script::status::PrintFault;
use text_script::{Answer, StepFault, World, WorldEvent};

/// The centres of the line, which replay the entries of a print.
#[derive(Drop)]
pub(crate) struct Played<'a> {
    alloc: Global,
    line: &'a Line,
    world: World,
    /// The answer to the last event, which the next is written over.
    answer: Answer,
}

impl<'a> Played<'a> {
    pub(crate) fn new(alloc: Global, line: &'a Line) -> Result<Played<'a>, StepFault> {
        Ok(Played {
            alloc,
            line,
            world: World::new(alloc, line)?,
            answer: Answer::nothing(),
        })
    }

    /// Plays an entry, and returns the lines that a run prints for it.
    pub(crate) fn entry(&mut self, entry: &Entry) -> Result<Vec<u8>, StepFault> {
        let mut text = Vec::new(self.alloc);
        match entry {
            Entry::Show => {
                told(print_show(&mut text))?;
                self.add_line(&mut text)?;
            }
            Entry::Event(event) => self.add_event(&mut text, event)?,
        }
        Ok(text)
    }

    /// The last lines of a run, if nothing more is played.
    pub(crate) fn ending(&self) -> Result<Vec<u8>, StepFault> {
        let mut text = Vec::new(self.alloc);
        self.add_line(&mut text)?;
        Ok(text)
    }

    fn add_event(&mut self, text: &mut Vec<u8>, event: &WorldEvent) -> Result<(), StepFault> {
        told(print_event(self.alloc, text, self.line, event))?;
        self.world.step_to(event, &mut self.answer)?;
        told(print_answer(self.alloc, text, self.line, event, &self.answer))
    }

    fn add_line(&self, text: &mut Vec<u8>) -> Result<(), StepFault> {
        told(print_line(self.alloc, text, self.line, &self.world))
    }
}

// Printing into memory fails only if memory runs out.
fn told(printed: Result<(), PrintFault>) -> Result<(), StepFault> {
    printed.map_err(|_| StepFault::Memory)
}
