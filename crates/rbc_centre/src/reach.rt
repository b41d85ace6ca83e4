//! Which centres a mail may go to.

ghost use Rattle.std.specs.Prelude.{◌≡◌, ◌<◌, ℕ, Option, true, false, []};
ghost use Rattle.rbc_spec.specs.Line.{is_home};
ghost use Rattle.rbc_spec.specs.Centre.{Expectation};
ghost use Rattle.rbc_line.specs.SectionRuns.{run_of};
ghost use Rattle.rbc_handover.specs.Expectations.{is_told};
ghost use Rattle.rbc_train.specs.Letters.{going_home, letters, notices};

use crate::frames::MOST_CENTRES;
use crate::posted::Dispatch;
use rbc_handover::Announcers;
use rbc_line::{Line, SectionRun};
use rbc_train::{Letter, Notice};
use std::cmp::{max, min};

/// The centres with the numbers from the first to the last; empty if the last is less than the first.
#[derive(Clone, Copy, Debug, PartialEq, Eq)]
pub(crate) struct Reach {
    pub(crate) first: u8,
    pub(crate) last: u8,
}

impl Reach {
    ghost use Rattle.rbc_centre.specs.Dispatches.{bodies_to};
    ghost use Rattle.rbc_centre.specs.Reached.{IsOutside};

    /// A stretch that has each centre to which this mail of a step goes.
    #[inline(always)]
    pub(crate) fn of(dispatch: &Dispatch<'_>) -> Reach
        ensures { (d : ℕ) → d < 8 → IsOutside result d → bodies_to dispatch.now d ≡ [] }
    {
        let mail = dispatch.mail;
        Reach::nowhere()
            .and_homes(dispatch.line, dispatch.centre, mail.first)
            .and_homes(dispatch.line, dispatch.centre, mail.second)
            .and_notice(mail.notice)
            .and_letter(mail.letter)
    }

    // No centre.
    #[inline(always)]
    fn nowhere() -> Reach
        ensures { (d : ℕ) → IsOutside result d }
    {
        Reach {
            first: u8::MAX,
            last: 0,
        }
    }

    // This centre too.
    #[inline(always)]
    fn and(self, centre: u8) -> Reach
        ensures keeps { (d : ℕ) → IsOutside result d → IsOutside self d }
        ensures centre { IsOutside result centre → ⊥ }
    {
        Reach {
            first: min(self.first, centre),
            last: max(self.last, centre),
        }
    }

    // The homes of these sections too, but for this centre, which returns them.
    #[inline(always)]
    fn and_homes(self, line: &Line, centre: u8, sections: SectionRun) -> Reach
        ensures keeps { (d : ℕ) → IsOutside result d → IsOutside self d }
        ensures homes { (d : ℕ) → IsOutside result d → (t track : ℕ)
            → going_home line.now centre t track (run_of sections) d ≡ [] }
    {
        let end = min(
            u32::from(sections.first) + u32::from(sections.count),
            u32::from(line.section_count()),
        );
        let mut reach = self;
        for s in sections.first..end as u16 {
            reach = reach.and_home(line, centre, s);
        }
        reach
    }

    // The home of this section too, but for this centre.
    #[inline(always)]
    fn and_home(self, line: &Line, centre: u8, s: u16) -> Reach
        ensures keeps { (d : ℕ) → IsOutside result d → IsOutside self d }
        ensures home { (d : ℕ) → IsOutside result d → is_home line.now d s ≡ true → d ≡ centre }
    {
        match line.section(s) {
            Some(section) if section.home != centre => self.and(section.home),
            _ => self,
        }
    }

    // With the centres that get a notice of a handover.
    #[inline(always)]
    fn and_notice(self, notice: Notice) -> Reach
        ensures keeps { (d : ℕ) → IsOutside result d → IsOutside self d }
        ensures notice { (d : ℕ) → d < 8 → IsOutside result d → (t : ℕ) → (e : ℕ → Option Expectation)
            → notices t e notice d ≡ [] }
    {
        match notice {
            Notice::Nothing => self,
            Notice::Announce { name, .. } | Notice::Cancel(name) => self.and(name.to),
            Notice::TakingOver(told) => self.and_told(told),
        }
    }

    // With the centres that get the reply that this centre takes over.
    #[inline(always)]
    fn and_told(self, told: Announcers) -> Reach
        ensures keeps { (d : ℕ) → IsOutside result d → IsOutside self d }
        ensures told { (d : ℕ) → d < 8 → IsOutside result d → is_told told d ≡ false }
    {
        let mut reach = self;
        for to in 0..MOST_CENTRES as u8 {
            if told.has(to) {
                reach = reach.and(to);
            }
        }
        reach
    }

    // The centre too that a letter goes to.
    #[inline(always)]
    fn and_letter(self, letter: Option<Letter>) -> Reach
        ensures keeps { (d : ℕ) → IsOutside result d → IsOutside self d }
        ensures letter { (d : ℕ) → IsOutside result d → letters letter d ≡ [] }
    {
        match letter {
            Some(letter) => self.and(letter.to),
            None => self,
        }
    }
}
