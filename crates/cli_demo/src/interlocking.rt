//! The interlocking: it releases the sections ahead of trains, and takes one back by lot.

ghost use Rattle.std.specs.Prelude.{◌≡◌, false, IfOk, length, map, option_map, slice_get, slice_set, unwrap_or};
ghost use Rattle.cli_demo.specs.Commands.{command_for, done_by, sections_among};

use rbc_line::{Line, Section};
use std::alloc::{AllocError, Global};
use text_script::{Outcome, Word, WorldEvent};

/// The sections of a line, and which of them are released, by the answers of the centres.
#[derive(Drop)]
pub(crate) struct Interlocking {
    pub(crate) sections: Vec<Section>,
    pub(crate) released: Vec<bool>,
}

impl Interlocking {
    pub(crate) fn new(alloc: Global, line: &Line) -> Result<Interlocking, AllocError>
        ensures sections { IfOk result (λ i. i.sections.items
            ≡ sections_among line.now (length line.now.sections)) }
        ensures shut { IfOk result (λ i. i.released.items ≡ map (λ _. false) i.sections.items) }
    {
        let mut sections = Vec::new(alloc);
        let mut released = Vec::new(alloc);
        for s in 0..line.section_count() {
            if let Some(section) = line.section(s) {
                sections.push(section)?;
                released.push(false)?;
            }
        }
        Ok(Interlocking { sections, released })
    }

    /// Whether this section is released.
    pub(crate) fn is_released(&self, section: usize) -> bool
        ensures { result ≡ unwrap_or (slice_get self.now.released.items section) false }
    {
        self.released.get(section).copied().unwrap_or(false)
    }

    /// The command for a section at its home.
    pub(crate) fn command(&self, section: usize, is_release: bool) -> Option<WorldEvent>
        ensures { result ≡ option_map (command_for section is_release) (slice_get self.now.sections.items section) }
    {
        let centre = self.sections.get(section)?.home;
        let section = section.min(65_535) as u16;
        if is_release {
            Some(WorldEvent::Set { centre, section })
        } else {
            Some(WorldEvent::Unset { centre, section })
        }
    }

    /// The replies of a centre to an event.
    pub(crate) fn replied(&mut self, event: &WorldEvent, outcome: &Outcome) {
        if let Some((section, is_released)) = done_by(event, outcome.word) {
            self.mark(section, is_released);
        }
        let told = outcome.told.sections();
        for s in told.as_slice() {
            self.mark(*s, false);
        }
    }

    fn mark(&mut self, section: u16, is_released: bool)
        ensures marks { self.new.released.items ≡ slice_set self.old.released.items section is_released }
        ensures sections { self.new.sections ≡ self.old.sections }
    {
        if let Some(released) = self.released.get_mut(section as usize) {
            *released = is_released;
        }
    }
}

// The section that a command has released or taken back, by the reply of its home.
fn done_by(event: &WorldEvent, word: Option<Word>) -> Option<(u16, bool)>
    ensures { result ≡ done_by event.now word }
{
    match (event, word) {
        (WorldEvent::Set { .. }, Some(Word::Done(section))) => Some((section, true)),
        (WorldEvent::Unset { .. }, Some(Word::Done(section))) => Some((section, false)),
        _ => None,
    }
}
