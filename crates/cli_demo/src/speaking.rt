//! The messages of trains in a demo.

ghost use Rattle.std.specs.Prelude.{◌≡◌};

use crate::demo::Demo;
use crate::fault::{DemoFault, happened};
use crate::radio::Flight;
use rbc_line::Section;
use rbc_msgs::TrainMsg;
use std::alloc::AllocError;
use train_unit::driving::{Speech, message, position};

impl Demo {
    /// A train sends the message that is due to each centre.
    pub(crate) fn speak(&mut self, train: usize) -> Result<(), DemoFault> {
        let Some(section) = self.section_of(train) else {
            return Ok(());
        };
        let Some(section) = self.interlocking.sections.get(section).copied() else {
            return Ok(());
        };
        for centre in 0..self.railway.line().centre_count() {
            self.speak_to(train, centre, section)?;
        }
        Ok(())
    }

    fn speak_to(&mut self, train: usize, centre: u8, section: Section) -> Result<(), DemoFault> {
        let Some(stamp) = self.next_stamp(train, centre, section.home) else {
            return Ok(());
        };
        let Some(speech) = self.speech(train, centre, section.home, stamp) else {
            return Ok(());
        };
        let Some(message) = self.message(train, section, stamp, speech)? else {
            return Ok(());
        };
        if happened(self.railway.send(train, centre, &message))? {
            self.has_sent(train, centre, speech, stamp)?;
        }
        Ok(())
    }

    // A train engages a centre, and opens its session again, if that is due. Returns the stamp of its next message.
    fn next_stamp(&mut self, train: usize, centre: u8, home: u8) -> Option<u32>
        ensures { self.new.railway ≡ self.old.railway }
    {
        if train >= self.railway.trains().len() {
            return None;
        }
        let driver = self.drivers.get_mut(train)?;
        driver.engage(home, self.now);
        driver.reopen(centre, self.now);
        Some(self.now.max(driver.clock.saturating_add(1)))
    }

    // The message that a train on a section of this home is about to send to a centre.
    fn speech(&self, train: usize, centre: u8, home: u8, stamp: u32) -> Option<Speech> {
        let running = self.railway.trains().get(train)?;
        let driver = self.drivers.get(train)?;
        driver.speech(running.unit(), centre, home, stamp, running.ends())
    }

    // The message of a train on this section.
    fn message(
        &self,
        train: usize,
        section: Section,
        stamp: u32,
        speech: Speech,
    ) -> Result<Option<TrainMsg>, AllocError> {
        let Some(running) = self.railway.trains().get(train) else {
            return Ok(None);
        };
        let front = running.ends().front;
        let is_still = matches!(speech, Speech::EndOfMission);
        let position = position(self.railway.line().nid_c(), section, front, is_still);
        let message = message(self.alloc, stamp, running.nid_engine(), speech, position)?;
        Ok(Some(message))
    }

    // A train has sent the last message of the railway.
    fn has_sent(
        &mut self,
        train: usize,
        centre: u8,
        speech: Speech,
        stamp: u32,
    ) -> Result<(), AllocError>
        ensures { self.new.railway ≡ self.old.railway }
    {
        if let Some(driver) = self.drivers.get_mut(train) {
            driver.has_sent(centre, speech, stamp);
        }
        let message = self.railway.sent().len().saturating_sub(1);
        self.radio.send(&mut self.draws, Flight::Up { message })
    }
}
