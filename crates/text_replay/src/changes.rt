//! The views of the sections, noted event by event: of each section those that differ from the view before.

ghost use Rattle.std.specs.Prelude.{◌≡◌, ◌<◌, ◌++◌, ◌∷◌, [], List, ℕ, false, true, length, map, IfOk, OnOk};
ghost use Rattle.text_replay.specs.Noted.{AreAllNoted, AreKept, noted, same_mark, same_view};
ghost use Rattle.text_replay.specs.Stretches.{seen_in, AreStretchesOf};
ghost use Rattle.text_script.specs.rbc_world.declared.view.LineView.{LineView};

use crate::stretch::{Stretch, stretches_to};
use rbc_line::Line;
use std::alloc::{AllocError, Global};
use text_script::{LineView, Mark, SectionView};

/// A view of a section, and the event from which on it is seen.
#[derive(Clone, Copy)]
pub(crate) struct Change {
    pub seen: SectionView,
    pub since: usize,
}

/// The changes of each section's view. Events are numbered from 0, from the first noted one.
#[derive(Drop)]
pub struct SectionChanges {
    /// By section number.
    lists: Vec<Vec<Change>>,
}

impl SectionChanges {
    /// Starts without a noted event.
    pub fn new(alloc: Global, line: &Line) -> Result<SectionChanges, AllocError>
        ensures { IfOk result (AreKept (length line.now.sections) []) }
    {
        let mut lists = Vec::new(alloc);
        for _ in 0..line.section_count() {
            lists.push(Vec::new(alloc))?;
        }
        Ok(SectionChanges { lists })
    }

    /// Notes the line after the next event, whose number is `event`. The list of a section gets a change if its view
    /// differs from the one before. If memory fails, the changes are of no use.
    pub fn note(&mut self, event: usize, view: &LineView) -> Result<(), AllocError>
        ensures { (n : ℕ) (views : List LineView) → AreKept n views self.old → length views ≡ event
            → OnOk result (AreKept n (views ++ view.now ∷ []) self.new) }
    {
        note_all(&mut self.lists, event, view)
    }

    /// The stretches of a section in the noted events; `events` is their number.
    pub fn stretches(
        &self,
        alloc: Global,
        section: u16,
        events: usize,
    ) -> Result<Vec<Stretch>, AllocError>
        ensures { (n : ℕ) (views : List LineView) → AreKept n views self.now → length views ≡ events → section < n
            → IfOk result (λ stretches. AreStretchesOf (map (seen_in section) views) stretches.items) }
    {
        match self.lists.get(section as usize) {
            Some(changes) => stretches_to(alloc, changes, events),
            None => Ok(Vec::new(alloc)),
        }
    }

    /// Whether a section was in use for a train after a noted event.
    pub fn names(&self, train: u32) -> bool {
        for list in &self.lists {
            for change in list {
                match change.seen.mark {
                    Mark::Kept { nid_engine } | Mark::Given { nid_engine } if nid_engine == train =>
                        {
                            return true;
                        }
                    _ => {}
                }
            }
        }
        false
    }
}

// Notes the view of each section after an event.
fn note_all(lists: &mut Vec<Vec<Change>>, event: usize, view: &LineView) -> Result<(), AllocError>
    ensures { OnOk result (AreAllNoted event view.now lists.old.items lists.new.items) }
{
    for section in 0..lists.len() {
        let seen = seen_in(view, section);
        note_view(&mut lists[section], event, seen)?;
    }
    Ok(())
}

// Adds a change if the view differs from that of the last change.
fn note_view(changes: &mut Vec<Change>, event: usize, seen: SectionView) -> Result<(), AllocError>
    ensures { OnOk result (changes.new.items ≡ noted event seen changes.old.items) }
{
    match changes.last() {
        Some(change) if is_same(change.seen, seen) => Ok(()),
        _ => {
            changes.push(Change { seen, since: event })?;
            Ok(())
        }
    }
}

// The view of a section. A section that is not of the line is shut.
fn seen_in(view: &LineView, section: usize) -> SectionView
    ensures { result ≡ seen_in section view.now }
{
    match view.sections.get(section) {
        Some(seen) => *seen,
        None => SectionView {
            mark: Mark::Shut,
            is_wished: false,
        },
    }
}

fn is_same(one: SectionView, other: SectionView) -> bool
    ensures { result ≡ same_view one other }
{
    one.is_wished == other.is_wished && is_same_mark(one.mark, other.mark)
}

fn is_same_mark(one: Mark, other: Mark) -> bool
    ensures { result ≡ same_mark one other }
{
    match (one, other) {
        (Mark::Shut, Mark::Shut) | (Mark::Open, Mark::Open) => true,
        (Mark::Kept { nid_engine }, Mark::Kept { nid_engine: train }) => nid_engine == train,
        (Mark::Given { nid_engine }, Mark::Given { nid_engine: train }) => nid_engine == train,
        _ => false,
    }
}
