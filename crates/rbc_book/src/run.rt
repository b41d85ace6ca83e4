ghost use Rattle.std.specs.Prelude.{◌≡◌, ◌+◌, MatchBool};

use crate::page::{Entry, Page};

/// Consecutive sections of one track with the same entry and wish.
#[derive(Clone, Copy, Debug)]
pub(crate) struct Run {
    /// The first of them, numbered over the whole line.
    pub(crate) first: u16,
    /// How many they are.
    pub(crate) count: u16,
    /// The number of their track.
    pub(crate) track: u8,
    /// The interlocking wishes them back.
    pub(crate) is_wished: bool,
    /// The use of its sections.
    pub(crate) entry: Entry,
}

impl Run {
    ghost use Rattle.rbc_spec.specs.SectionRuns.{within};
    ghost use Rattle.rbc_book.specs.Runs.{run_page, sections_of, GoesOn};

    /// The page of each of its sections.
    #[inline(always)]
    pub(crate) fn page(self) -> Page
        ensures { result ≡ run_page self }
    {
        Page {
            entry: self.entry,
            is_wished: self.is_wished,
        }
    }

    /// The number after that of its last section.
    pub(crate) fn next_after(self) -> u32
        ensures { result ≡ self.first + self.count }
    {
        u32::from(self.first) + u32::from(self.count)
    }

    /// Whether the section is one of them.
    #[tactic(auto, unfolding(rbc_spec::specs::SectionRuns::within))]
    pub(crate) fn contains(self, s: u16) -> bool
        ensures { result ≡ within (sections_of self) s }
    {
        self.first <= s && u32::from(s) < self.next_after()
    }

    /// Whether the next run begins at the end of this one, on its track and with the same page: the two are one run
    /// then.
    pub(crate) fn goes_on(self, next: Run) -> bool
        ensures { MatchBool result (GoesOn self next) (¬ GoesOn self next) }
    {
        self.next_after() == u32::from(next.first)
            && self.track == next.track
            && self.page() == next.page()
    }
}
