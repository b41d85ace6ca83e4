ghost use Rattle.std.specs.Prelude.{◌≡◌};
ghost use Rattle.rbc_spec.specs.SectionRuns.{next_after, is_empty, within};

/// Consecutive sections: the first by its number over the whole line, and how many they are.
#[derive(Clone, Copy, Debug, PartialEq, Eq)]
pub struct SectionRun {
    pub first: u16,
    pub count: u16,
}

impl SectionRun {
    ghost use Rattle.rbc_line.specs.SectionRuns.{run_of};

    /// Whether it has no section.
    pub fn is_empty(self) -> bool
        ensures { result ≡ is_empty (run_of self) }
    {
        self.count == 0
    }

    /// Whether the section is one of them.
    #[tactic(auto, unfolding(rbc_spec::specs::SectionRuns::within))]
    pub fn contains(self, section: u16) -> bool
        ensures { result ≡ within (run_of self) section }
    {
        self.first <= section && u32::from(section) < self.next_after()
    }

    /// The number of the section in advance of the last.
    pub fn next_after(self) -> u32
        ensures { result ≡ next_after (run_of self) }
    {
        u32::from(self.first) + u32::from(self.count)
    }
}
