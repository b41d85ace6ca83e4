//! The step of an event of the interlocking for a section.

ghost use Rattle.std.specs.Prelude.{◌≡◌, ◌<◌, ℕ, IfSome, OnOk, OnErr, length};
ghost use Rattle.rbc_spec.specs.Centre as spec;
ghost use Rattle.rbc_spec.specs.Line.{train_number};
ghost use Rattle.rbc_spec.specs.Step as step;
ghost use Rattle.rbc_book.specs.Book.{entry_at};
ghost use Rattle.rbc_book.specs.Entries.{entry_of};
ghost use Rattle.rbc_centre.specs.Answer.{Steps, IsWantedBy, TakesMemory};
ghost use Rattle.rbc_centre.specs.States.{line_of, number_of, state_of};
ghost use Rattle.rbc_centre.specs.Taken.{HasRoomToSend, HasTaken, KeepsPlace, MayTake};
ghost use Rattle.rbc_centre.specs.Views.{outcome_of};

use crate::centre::Centre;
use crate::fault::StepFault;
use crate::outcome::{Outcome, Word};
use crate::posted::Broadcast;
use rbc_book::{Entry, NotHome, Unset};
use rbc_linkmsg::Body;
use std::alloc::AllocError;

impl Centre {
    /// The interlocking releases a section.
    pub(crate) fn set(&mut self, s: u16, out: &mut Outcome)
        requires allowed { MayTake self.old (step.Set s) }
        ensures place { KeepsPlace self.old self.new }
        ensures exact { HasTaken (step.Set s) self.old self.new out.new }
    {
        self.clock += 1;
        match self.book.set(s) {
            Ok(()) => out.write_told(self.clock, Word::Done(s), None),
            Err(NotHome) => out.write_told(self.clock, Word::NotHome(s), None),
        }
    }

    /// The interlocking takes a section back. A train with the section in its movement authority gets a request to
    /// shorten. If the section is out, each other centre is asked for it. Room for the frames is made first.
    pub(crate) fn unset(&mut self, s: u16, out: &mut Outcome) -> Result<(), AllocError>
        requires allowed { MayTake self.old (step.Unset s) }
        ensures place { KeepsPlace self.old self.new }
        ensures exact { OnOk result (HasTaken (step.Unset s) self.old self.new out.new) }
        ensures memory { OnErr result (TakesMemory (state_of self.old) (step.Unset s)) }
        ensures err { OnErr result (state_of self.new ≡ state_of self.old) }
    {
        let entry = self.book.page(s).entry;
        let Entry::Out { nid_engine } = entry else {
            self.unset_here(s, entry, out);
            return Ok(());
        };
        self.reserve_frames()?;
        self.withdraw(s, nid_engine, out);
        Ok(())
    }

    // An unset of a section that is out for this train. Each other centre is asked for it, since this one does not know
    // which of them has it.
    fn withdraw(&mut self, s: u16, nid_engine: u32, out: &mut Outcome)
        requires allowed { MayTake self.old (step.Unset s) }
        requires out { entry_at self.old.book s ≡ spec.Out nid_engine }
        requires room { HasRoomToSend self.old }
        ensures place { KeepsPlace self.old self.new }
        ensures exact { HasTaken (step.Unset s) self.old self.new out.new }
    {
        self.clock += 1;
        let _asked = self.book.unset(s);
        let broadcast = Broadcast {
            line: &self.line,
            centre: self.number,
            stamp: self.clock,
            body: Body::RouteWithdraw {
                engine: nid_engine,
                section: s,
            },
        };
        broadcast.post(&mut self.links, &mut self.room, &mut out.frames);
        out.write_sent(self.clock, Word::Asked(s));
    }

    // An unset of a section with this entry, which is not out.
    #[inline(always)]
    fn unset_here(&mut self, s: u16, entry: Entry, out: &mut Outcome)
        requires allowed { MayTake self.old (step.Unset s) }
        requires entry { entry_of entry ≡ entry_at self.old.book s }
        requires here { (t : ℕ) → entry_at self.old.book s ≡ spec.Out t → ⊥ }
        ensures place { KeepsPlace self.old self.new }
        ensures exact { HasTaken (step.Unset s) self.old self.new out.new }
    {
        let user = self.user_of(entry);
        self.clock += 1;
        match self.book.unset(s) {
            Ok(Unset::Done) => out.write_told(self.clock, Word::Done(s), None),
            Ok(Unset::Asked) => {
                let request = match user {
                    Some(i) => self.trains[i as usize].ask_back(&self.line, s),
                    None => None,
                };
                out.write_told(self.clock, Word::Asked(s), request)
            }
            Err(NotHome) => out.write_told(self.clock, Word::NotHome(s), None),
        }
    }

    // The number in the line file of the train for which a section is in use.
    fn user_of(&self, entry: Entry) -> Option<u8>
        ensures value { (t : ℕ) → entry_of entry ≡ spec.Taken t → result ≡ train_number self.now.line t }
        ensures bound { IfSome result (λ i. i < length self.now.trains.items) }
    {
        match entry {
            Entry::Taken { nid_engine } => self.line.train_number(nid_engine),
            Entry::Shut | Entry::Open | Entry::Out { .. } => None,
        }
    }
}
