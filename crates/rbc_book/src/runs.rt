ghost use Rattle.std.specs.Prelude.{◌≡◌, ◌≤◌, ℕ, IfOk, IfSome, Option, None, Some, option_map, true, false};
ghost use Rattle.rbc_spec.specs.SectionRuns.{longest, within};
ghost use Rattle.rbc_spec.specs.Maps.{put};
ghost use Rattle.rbc_book.specs.Sheet.{spot_on, page_on, track_on, is_open_on, is_used_in, is_used_on, home_track};
ghost use Rattle.rbc_book.specs.Changes.{IsAfter, IsPartChanged};
ghost use Rattle.rbc_book.specs.Runs.{At, AreInOrder, IsRunOf, sections_of, spot_at};

use crate::change::Change;
use crate::edits::{append, write_at};
use crate::page::Page;
use crate::run::Run;
use rbc_line::Line;
use std::alloc::{AllocError, Global};
use std::marker::Model;

/// Pages of sections, kept as runs of sections with the same page, in the order of their first sections. A run does not
/// go past the end of a track. Two consecutive runs of one track have different pages. There is room for as many runs
/// as there are sections.
#[derive(Debug, Drop)]
pub(crate) struct Runs {
    runs: Vec<Run>,
}

impl Model for Runs {
    ghost use Rattle.std.specs.Prelude.{vec_capacity};
    ghost use Rattle.rbc_book.specs.Sheet.{Sheet};
    ghost use Rattle.rbc_book.specs.Runs.{sheet_of, IsKept};

    ghost Value = { Sheet };

    ghost view = { λ r. sheet_of r.runs.items };

    ghost invariant = { λ r. IsKept r.runs.items (vec_capacity r.runs) };
}

impl Runs {
    /// The home sections of a centre, each with the same page.
    pub(crate) fn new(
        alloc: Global,
        line: &Line,
        centre: u8,
        page: Page,
    ) -> Result<Runs, AllocError>
        ensures page { IfOk result
            (λ r. (k : ℕ) → page_on r k ≡ option_map (λ _. page) (home_track line.now centre k)) }
        ensures track { IfOk result (λ r. (k : ℕ) → track_on r k ≡ home_track line.now centre k) }
    {
        let mut runs = Vec::new(alloc);
        let mut homes = 0;
        for s in 0..line.section_count() {
            if let Some(track) = home_track(line, centre, s) {
                append(&mut runs, s, track, page)?;
                homes += 1;
            }
        }
        runs.reserve(homes - runs.len())?;
        Ok(Runs { runs })
    }

    /// The page of a section, if it has one.
    pub(crate) fn page(&self, s: u16) -> Option<Page>
        ensures { result ≡ page_on self.now s }
    {
        let run = self.run_of(s)?;
        Some(run.page())
    }

    /// The length of the longest run of open sections from the first on, up to the limit.
    pub(crate) fn open_run(&self, first: u16, most: u16) -> u16
        ensures { result ≡ longest (is_open_on self.now) first most }
    {
        let mut count = 0;
        while count < most {
            let Some(run) = self.run_of(first + count) else {
                return count;
            };
            if !run.entry.is_open() {
                return count;
            }
            count = (run.next_after() - u32::from(first)) as u16;
        }
        most
    }

    /// A section that is in use for the train.
    pub(crate) fn section_in_use(&self, nid_engine: u32) -> Option<u16>
        ensures some { IfSome result (λ s. is_used_on nid_engine self.now s ≡ true) }
        ensures none { result ≡ None → (s : ℕ) → is_used_on nid_engine self.now s ≡ false }
    {
        first_in_use(&self.runs, nid_engine)
    }

    /// Changes the page of a section, and returns the page before, if it has one.
    #[inline]
    pub(crate) fn change(&mut self, s: u16, change: Change) -> Option<Page>
        ensures page { result ≡ page_on self.old s }
        ensures pages { IfSome result (λ old. (new : Page) × IsAfter change old new
            × ((k : ℕ) → page_on self.new k ≡ put (page_on self.old) s (Some new) k)) }
        ensures tracks { (k : ℕ) → track_on self.new k ≡ track_on self.old k }
        ensures none { result ≡ None → self.new ≡ self.old }
    {
        let (page, _) = self.change_part(s, 1, change)?;
        Some(page)
    }

    /// Changes the page of a section, and of those after it in its run, up to the limit. Returns the page before and
    /// the number of sections; `None` if the section has no page.
    #[inline]
    pub(crate) fn change_part(&mut self, s: u16, most: u16, change: Change) -> Option<(Page, u16)>
        requires some { 1 ≤ most }
        ensures part { IfSome result (λ part. IsPartChanged s most change part.0 part.1 self.old self.new) }
        ensures tracks { (k : ℕ) → track_on self.new k ≡ track_on self.old k }
        ensures none { result ≡ None → (page_on self.old s ≡ None) × (self.new ≡ self.old) }
    {
        let place = find(&self.runs, s)?;
        let run = self.runs[place];
        let size = most.min(run.count - (s - run.first));
        write_at(&mut self.runs, place, s, size, change.of(run.page()));
        Some((run.page(), size))
    }

    // The run that has the section.
    fn run_of(&self, s: u16) -> Option<Run>
        ensures some { IfSome result (λ r. IsRunOf self.now s r) }
        ensures none { result ≡ None → spot_on self.now s ≡ None }
    {
        let place = find(&self.runs, s)?;
        Some(self.runs[place])
    }
}

// The position of the run that has the section. Each step cuts off the half before the section or after it.
fn find(runs: &[Run], s: u16) -> Option<usize>
    requires { AreInOrder 0 runs.now }
    ensures some { IfSome result (λ i. At (λ r. within (sections_of r) s ≡ true) i runs.now) }
    ensures none { result ≡ None → spot_at runs.now s ≡ None }
{
    let mut low = 0;
    let mut high = runs.len();
    while low < high {
        let middle = (low + high) / 2;
        let run = runs[middle];
        if s < run.first {
            high = middle;
        } else if u32::from(s) < run.next_after() {
            return Some(middle);
        } else {
            low = middle + 1;
        }
    }
    None
}

// The first section of the first run that is in use for the train.
fn first_in_use(runs: &[Run], nid_engine: u32) -> Option<u16>
    requires { AreInOrder 0 runs.now }
    ensures some { IfSome result (λ s. is_used_in nid_engine (spot_at runs.now s) ≡ true) }
    ensures none { result ≡ None → (s : ℕ) → is_used_in nid_engine (spot_at runs.now s) ≡ false }
{
    for i in 0..runs.len() {
        let run = runs[i];
        if run.entry.is_used_for(nid_engine) {
            return Some(run.first);
        }
    }
    None
}

// The track of a section, if its home is the centre.
fn home_track(line: &Line, centre: u8, s: u16) -> Option<u8>
    ensures { result ≡ home_track line.now centre s }
{
    match line.section(s) {
        Some(section) if section.home == centre => Some(section.track),
        _ => None,
    }
}
