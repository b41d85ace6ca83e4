//! Which sections the interlocking releases.

ghost use Rattle.std.specs.Option.{option_map_or};
ghost use Rattle.std.specs.Prelude.{◌≡◌, false, Ok, slice_get};
ghost use Rattle.cli_drive.specs.Releases.{free_after, has_hidden, is_under_hidden};

use crate::trains::fault::TrainsFault;
use crate::trains::seconds::Running;
use crate::trains::train::Train;
use rbc_line::Section;
use std::net::{Net, TcpStream};
use train_unit::driving::covers;

/// How many sections ahead of a train the interlocking releases.
const AHEAD: usize = 4;

impl<R: Net<Stream = TcpStream>> Running<'_, R> {
    /// The interlocking releases the section of each train, and sections in advance of a train that is accepted.
    pub(crate) fn release(&mut self) -> Result<(), TrainsFault>
        ensures shut { self.old.settings.is_releasing ≡ false → (result ≡ Ok tt) × (self.new ≡ self.old) }
        ensures trains { self.new.trains ≡ self.old.trains }
        ensures sections { self.new.interlocking.sections ≡ self.old.interlocking.sections }
    {
        if !self.settings.is_releasing {
            return Ok(());
        }
        self.interlocking.read(self.line)?;
        for i in 0..self.trains.len() {
            let Some(section) = self.section_of(i) else {
                continue;
            };
            self.release_one(section)?;
            if self.is_accepted(i) {
                self.release_ahead(section)?;
            }
        }
        Ok(())
    }

    fn release_ahead(&mut self, section: usize) -> Result<(), TrainsFault>
        ensures trains { self.new.trains ≡ self.old.trains }
        ensures sections { self.new.interlocking.sections ≡ self.old.interlocking.sections }
    {
        for s in section..section.saturating_add(AHEAD) {
            let Some(next) = self.next_free(s) else {
                break;
            };
            self.release_one(next)?;
        }
        Ok(())
    }

    fn release_one(&mut self, section: usize) -> Result<(), TrainsFault>
        ensures trains { self.new.trains ≡ self.old.trains }
        ensures sections { self.new.interlocking.sections ≡ self.old.interlocking.sections }
    {
        self.interlocking
            .release(self.rt, self.line, section, self.now)
    }
}

impl<R> Running<'_, R> {
    // The section after this one on its track. None if a train that no centre has accepted is on it or on the next. The
    // own section of that train is released, so the one in rear of it has to be shut.
    fn next_free(&self, s: usize) -> Option<usize>
        ensures { result ≡ free_after self.entry.now.interlocking.sections.items self.entry.now.trains.items s }
    {
        let next = s.saturating_add(1);
        let is_first = self.interlocking.sections.get(next)?.start == 0;
        if is_first || self.is_hidden(next) || self.is_hidden(next.saturating_add(1)) {
            return None;
        }
        Some(next)
    }

    // Whether a train that no centre has accepted is on this section.
    fn is_hidden(&self, section: usize) -> bool
        ensures { result ≡ has_hidden self.entry.now.interlocking.sections.items self.entry.now.trains.items section }
    {
        match self.interlocking.sections.get(section) {
            Some(section) => is_under_hidden(section, &self.trains),
            None => false,
        }
    }

    fn is_accepted(&self, i: usize) -> bool
        ensures { result
            ≡ option_map_or (λ train. train.driver.is_accepted) (slice_get self.entry.now.trains.items i) false }
    {
        match self.trains.get(i) {
            Some(train) => train.driver.is_accepted,
            None => false,
        }
    }
}

// Whether one of the trains that no centre has accepted is on the section.
fn is_under_hidden(section: &Section, trains: &[Train]) -> bool
    ensures { result ≡ is_under_hidden section.now trains.now }
{
    trains.iter().any(|train| !train.driver.is_accepted && covers(section, train.ends))
}
