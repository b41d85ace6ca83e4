ghost use Rattle.std.specs.List.{flat_map, range_with_len};
ghost use Rattle.std.specs.Prelude.{◌<◌, ◌≡◌, ◌≢◌, ◌++◌, ℕ, IfOk, length, List, OnOk, replicate, slice_get, slice_set};
ghost use Rattle.std.specs.Prelude.{false, None, Some};
ghost use Rattle.rbc_book.specs.declared.page.Entry.TheVariants.{Shut};
ghost use Rattle.text_script.specs.rbc_world.View.{mark_shown, mark_by};
ghost use Rattle.serve_line.specs.Snapshots.{HasCentre, HasMission, HasPage, is_given_in, IsShow, IsShown, mission_in};
ghost use Rattle.serve_line.specs.Snapshots.{page_in, section_row_in};
ghost use Rattle.serve_line.specs.Snapshots.{train_row_in};

use crate::status::mention_order::MentionOrder;
use rbc_book::{Entry, Page};
use rbc_line::Line;
use rbc_log::{CentreLog, MOST_ENTRIES};
use rbc_node::Node;
use std::alloc::{AllocError, Global};
use std::sync::{Mutex, Wait};
use text_script::print::{print_section, print_show, print_train};
use text_script::status::Fault;
use text_script::{Mark, SectionRun, SectionView, mark_of};

/// The line as the centres show it, each at its own moment: at the control endpoint, and on the page.
#[derive(Drop)]
pub(crate) struct Snapshot {
    /// Indexed by section number: the page of the section at its home.
    pages: Vec<Page>,
    /// In the order of the trains in the line file: the mission of each, if a centre has one.
    missions: Vec<Option<Mission>>,
}

#[derive(Clone, Copy)]
struct Mission {
    supervisor: u8,
    hand: SectionRun,
}

/// Reads the centres one after another, and writes the line as a run shows it. Each entry of a log is read once, for
/// all connections.
pub fn show<R: Wait>(
    rt: &R,
    alloc: Global,
    line: &Line,
    nodes: &[Node],
    mentions: &Mutex<MentionOrder>,
    text: &mut Vec<u8>,
) -> Result<(), Fault<'static>>
    ensures { OnOk result ((shown : List ℕ) × IsShow line.now nodes.now shown
        × (text.new.items ≡ text.old.items ++ shown)) }
{
    let mut snapshot = Snapshot::new(alloc, line)?;
    let mut mention_order = mentions.lock(rt);
    for node in nodes {
        catch_up(rt, line, node, &mut mention_order);
    }
    for node in nodes {
        let look = node.look(rt);
        snapshot.add(line, look.log());
        mention_order.read_on(line, look.log());
    }
    print_show(text)?;
    snapshot.print(alloc, line, &mention_order, text)
}

// Reads the new entries of a log, in pieces. Between two pieces its centre may take steps.
fn catch_up<R: Wait>(rt: &R, line: &Line, node: &Node, mention_order: &mut MentionOrder) {
    for _ in 0..MOST_ENTRIES {
        let look = node.look(rt);
        if !mention_order.read_on(line, look.log()) {
            return;
        }
    }
}

impl Snapshot {
    /// The line before the first look: each section is shut, and no train has a mission.
    pub fn new(alloc: Global, line: &Line) -> Result<Snapshot, AllocError>
        ensures pages { IfOk result (λ v. v.pages.items
            ≡ replicate (length line.now.sections) (record { entry = Shut; is_wished = false })) }
        ensures missions { IfOk result (λ v. v.missions.items ≡ replicate (length line.now.trains) None) }
    {
        Ok(Snapshot {
            pages: vec![in alloc; Page::SHUT; line.section_count() as usize]?,
            missions: vec![in alloc; None; line.train_count() as usize]?,
        })
    }

    /// Adds a centre's own sections, and the trains that it supervises.
    pub fn add(&mut self, line: &Line, log: &CentreLog)
        ensures { HasCentre line.now log.now.core self.old self.new }
    {
        self.add_pages(line, log);
        self.add_missions(line, log);
    }

    // Adds the pages of the sections of which the centre is the home.
    fn add_pages(&mut self, line: &Line, log: &CentreLog)
        ensures missions { self.new.missions.items ≡ self.old.missions.items }
        ensures pages { (s : ℕ) → s < length line.now.sections
            → HasPage line.now log.now.core s (slice_get self.old.pages.items s) (slice_get self.new.pages.items s) }
    {
        for s in 0..line.section_count() {
            self.add_page(line, log, s);
        }
    }

    fn add_page(&mut self, line: &Line, log: &CentreLog, s: u16)
        ensures missions { self.new.missions.items ≡ self.old.missions.items }
        ensures page { HasPage line.now log.now.core s (slice_get self.old.pages.items s)
            (slice_get self.new.pages.items s) }
        ensures others { (k : ℕ) → k ≢ s → slice_get self.new.pages.items k ≡ slice_get self.old.pages.items k }
    {
        let centre = log.core();
        if line.is_home(centre.number(), s) {
            self.set_page(s, centre.page(s));
        }
    }

    // Adds the missions of the trains that the centre supervises.
    fn add_missions(&mut self, line: &Line, log: &CentreLog)
        ensures pages { self.new.pages.items ≡ self.old.pages.items }
        ensures missions { (i : ℕ) → i < length line.now.trains
            → HasMission line.now log.now.core i (slice_get self.old.missions.items i)
            (slice_get self.new.missions.items i) }
    {
        for i in 0..line.train_count() {
            self.add_mission(line, log, i);
        }
    }

    fn set_page(&mut self, s: u16, page: Page)
        ensures pages { self.new.pages.items ≡ slice_set self.old.pages.items s page }
        ensures missions { self.new.missions.items ≡ self.old.missions.items }
    {
        if let Some(place) = self.pages.get_mut(s as usize) {
            *place = page;
        }
    }

    fn add_mission(&mut self, line: &Line, log: &CentreLog, i: u8)
        ensures pages { self.new.pages.items ≡ self.old.pages.items }
        ensures mission { HasMission line.now log.now.core i (slice_get self.old.missions.items i)
            (slice_get self.new.missions.items i) }
        ensures others { (k : ℕ) → k ≢ i
            → slice_get self.new.missions.items k ≡ slice_get self.old.missions.items k }
    {
        let centre = log.core();
        let Some(train) = line.train(i) else {
            return;
        };
        let page = centre.train(train.nid_engine);
        if page.mission.is_some() {
            let mission = Mission {
                supervisor: centre.number(),
                hand: page.hand,
            };
            self.set_mission(i, mission);
        }
    }

    fn set_mission(&mut self, i: u8, mission: Mission)
        ensures pages { self.new.pages.items ≡ self.old.pages.items }
        ensures missions { self.new.missions.items ≡ slice_set self.old.missions.items i (Some mission) }
    {
        if let Some(place) = self.missions.get_mut(i as usize) {
            *place = Some(mission);
        }
    }

    fn print(
        &self,
        alloc: Global,
        line: &Line,
        mention_order: &MentionOrder,
        text: &mut Vec<u8>,
    ) -> Result<(), Fault<'static>>
        ensures { OnOk result ((rows : List ℕ) × IsShown line.now self.now mention_order.now rows
            × (text.new.items ≡ text.old.items ++ rows)) }
    {
        self.print_sections(line, text)?;
        self.print_trains(line, &mention_order.order(alloc)?, text)
    }

    fn print_trains(
        &self,
        line: &Line,
        trains: &[usize],
        text: &mut Vec<u8>,
    ) -> Result<(), Fault<'static>>
        ensures { OnOk result (text.new.items
            ≡ text.old.items ++ flat_map (train_row_in line.now self.now) trains.now) }
    {
        for i in trains {
            self.print_mission(line, *i, text)?;
        }
        Ok(())
    }

    fn print_sections(&self, line: &Line, text: &mut Vec<u8>) -> Result<(), Fault<'static>>
        ensures { OnOk result (text.new.items ≡ text.old.items
            ++ flat_map (section_row_in line.now self.now) (range_with_len 0 (length line.now.sections))) }
    {
        for s in 0..line.section_count() {
            print_section(text, line, s as usize, &self.section(line, s))?;
        }
        Ok(())
    }

    fn print_mission(&self, line: &Line, i: usize, text: &mut Vec<u8>) -> Result<(), Fault<'static>>
        ensures { OnOk result (text.new.items ≡ text.old.items ++ train_row_in line.now self.now i) }
    {
        if i >= line.train_count() as usize {
            return Ok(());
        }
        let Some(train) = line.train(i as u8) else {
            return Ok(());
        };
        let supervisor = self.mission(i).map(|mission| mission.supervisor);
        Ok(print_train(text, line, train.nid_engine, supervisor)?)
    }

    /// A section as its home shows it. A section in use is given if it is in the movement authority of its train.
    pub fn section(&self, line: &Line, s: u16) -> SectionView
        ensures mark { mark_shown result.mark
            ≡ mark_by (page_in self.now s).entry (is_given_in line.now self.now s) }
        ensures wish { result.is_wished ≡ (page_in self.now s).is_wished }
    {
        let page = self.page(s);
        SectionView {
            mark: self.mark(line, s, page.entry),
            is_wished: page.is_wished,
        }
    }

    // The mark of a section with this entry at its home.
    fn mark(&self, line: &Line, s: u16, entry: Entry) -> Mark
        ensures { mark_shown result ≡ mark_by entry (is_given_in line.now self.now s) }
    {
        match entry {
            Entry::Shut | Entry::Open => mark_of(entry, false),
            Entry::Taken { nid_engine } | Entry::Out { nid_engine } => {
                mark_of(entry, self.is_given(line, s, nid_engine))
            }
        }
    }

    // Whether the section is in the movement authority of the train of this engine.
    fn is_given(&self, line: &Line, s: u16, nid_engine: u32) -> bool
        ensures { result ≡ is_given_in line.now self.now s nid_engine }
    {
        let Some(i) = line.train_number(nid_engine) else {
            return false;
        };
        match self.mission(i as usize) {
            Some(mission) => mission.hand.contains(s),
            None => false,
        }
    }

    // The page of a section at its home.
    fn page(&self, s: u16) -> Page
        ensures { result ≡ page_in self.now s }
    {
        match self.pages.get(s as usize) {
            Some(page) => *page,
            None => Page::SHUT,
        }
    }

    // The mission of the train at this place of the line file.
    fn mission(&self, i: usize) -> Option<Mission>
        ensures { result ≡ mission_in self.now i }
    {
        *self.missions.get(i)?
    }
}
