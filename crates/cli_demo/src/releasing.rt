//! The commands of the interlocking in a demo.

ghost use Rattle.std.specs.Prelude.{◌≡◌, length};
ghost use Rattle.cli_demo.specs.Trains.{has_hidden, is_accepted, is_hidden, is_hidden_on, next_free};

use crate::demo::Demo;
use crate::fault::DemoFault;
use cli_storm::{below, in_hundred};
use rbc_line::Section;
use std::io::Write;
use train_unit::driving::covers;

/// How many sections ahead of a train the interlocking releases.
const AHEAD: usize = 4;

impl Demo {
    // Whether a train that no centre has accepted is on this section.
    fn is_hidden(&self, section: usize) -> bool
        ensures { result ≡ is_hidden self.entry.now section }
    {
        match self.interlocking.sections.get(section) {
            Some(section) => self.has_hidden(section),
            None => false,
        }
    }

    fn has_hidden(&self, section: &Section) -> bool
        ensures { result ≡ has_hidden self.entry.now section.now (length self.entry.now.drivers.items) }
    {
        let mut is_hidden = false;
        for train in 0..self.drivers.len() {
            is_hidden = is_hidden || self.is_hidden_on(section, train);
        }
        is_hidden
    }

    // Whether no centre has accepted the train, and it is on the section.
    fn is_hidden_on(&self, section: &Section, train: usize) -> bool
        ensures { result ≡ is_hidden_on self.entry.now section.now train }
    {
        match self.ends(train) {
            Some(ends) => !self.is_accepted(train) && covers(section, ends),
            None => false,
        }
    }

    // The interlocking releases the section of each train, and sections in advance of a train that is accepted.
    pub(crate) fn release<W: Write>(&mut self, out: &mut W) -> Result<(), DemoFault> {
        for train in 0..self.drivers.len() {
            if let Some(section) = self.section_of(train) {
                self.release_one(section, out)?;
                if self.is_accepted(train) {
                    self.release_ahead(section, out)?;
                }
            }
        }
        Ok(())
    }

    fn release_ahead<W: Write>(&mut self, section: usize, out: &mut W) -> Result<(), DemoFault> {
        for s in section..section.saturating_add(AHEAD) {
            let Some(next) = self.next_free(s) else {
                break;
            };
            self.release_one(next, out)?;
        }
        Ok(())
    }

    pub(crate) fn is_accepted(&self, train: usize) -> bool
        ensures { result ≡ is_accepted self.entry.now train }
    {
        match self.drivers.get(train) {
            Some(driver) => driver.is_accepted,
            None => false,
        }
    }

    // The section after this one on its track. None if a train that no centre has accepted is on it or on the next. The
    // own section of that train is released, so the one in rear of it has to be shut.
    fn next_free(&self, s: usize) -> Option<usize>
        ensures { result ≡ next_free self.entry.now s }
    {
        let next = s.saturating_add(1);
        let is_first = self.interlocking.sections.get(next)?.start == 0;
        if is_first || self.is_hidden(next) || self.is_hidden(next.saturating_add(1)) {
            return None;
        }
        Some(next)
    }

    // Releases a section that is not released, by lot.
    fn release_one<W: Write>(&mut self, section: usize, out: &mut W) -> Result<(), DemoFault> {
        if self.interlocking.is_released(section) || !in_hundred(&mut self.draws, 20) {
            return Ok(());
        }
        match self.interlocking.command(section, true) {
            Some(event) => self.happen(&event, out),
            None => Ok(()),
        }
    }

    // Takes a section back, by lot.
    pub(crate) fn take_back<W: Write>(&mut self, out: &mut W) -> Result<(), DemoFault> {
        let count = self.interlocking.sections.len();
        if count == 0 {
            return Ok(());
        }
        if !in_hundred(&mut self.draws, 10) {
            return Ok(());
        }
        let section = below(&mut self.draws, count);
        if !self.interlocking.is_released(section) {
            return Ok(());
        }
        match self.interlocking.command(section, false) {
            Some(event) => self.happen(&event, out),
            None => Ok(()),
        }
    }
}
