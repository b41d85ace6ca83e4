ghost use Rattle.std.specs.Prelude.{◌<◌, ◌==◌, ◌≡◌, ◌≢◌, ℕ, [], IfOk, IfSome, length, map};
ghost use Rattle.std.specs.Prelude.{false, None, not, OnOk, replicate, slice_get, slice_set, string_bytes};
ghost use Rattle.rbc_book.specs.declared.page.Entry.TheVariants.{Shut};
ghost use Rattle.serve_line.specs.Marks.{TakesMarks, with_silent};
ghost use Rattle.serve_line.specs.Snapshots.{HasLooked, IsSeenAt, IsViewIn};
ghost use Rattle.serve_line.specs.Directions.{directions_of};
ghost use Rattle.serve_line.specs.Pages.{unused_link};
ghost use Rattle.serve_line.specs.declared.status.snapshot.Snapshot.{Snapshot as Seen};

use crate::directions::directions_of;
use crate::journaling::Journal;
use crate::looking::marks::{copy_marks, copy_silent};
use crate::looking::news::News;
use crate::looking::seen::see_centre;
use crate::looking::sent::Sent;
use crate::status::{LIMITS, Silences, Snapshot};
use rbc_line::Line;
use rbc_node::Node;
use std::alloc::{AllocError, Global};
use std::sync::Wait;
use text_page::{CentreCounts, CentreNow, Layout, LineCounts, LineNow, LinkNow};
use text_replay::layout_of;
use text_script::status::Fault;
use text_script::{Mark, SectionView};

/// The line as the page shows it.
#[derive(Drop)]
pub struct PageSnapshot {
    pub layout: Layout,
    pub now: LineNow,
    /// The counts for the metrics.
    pub counts: LineCounts,
    sent: Sent,
    news: News,
    // By the centres' numbers.
    silences: Vec<Silences>,
}

/// The result of a look at the centres.
#[derive(Drop)]
pub struct Found {
    /// The line. No slot is taken in it, and each journal can be written.
    now: LineNow,
    /// For each centre its silent messages, by their reasons.
    silent: Vec<[u64; 10]>,
}

// The line as the centres show it that were read.
#[derive(Drop)]
struct View {
    alloc: Global,
    now: LineNow,
    snapshot: Snapshot,
}

impl PageSnapshot {
    /// A view before the first look. The centres listen at these ports.
    pub fn new(alloc: Global, line: &Line, ports: Vec<u16>) -> Result<PageSnapshot, AllocError>
        ensures events { IfOk result (λ snapshot. snapshot.now.events ≡ 0) }
        ensures sections { IfOk result (λ snapshot. snapshot.now.sections.items
            ≡ replicate (length line.now.sections) UNSEEN) }
        ensures silences { IfOk result (λ snapshot. snapshot.silences.items
            ≡ replicate (length line.now.centres) (record { read = 0; counts = replicate 10 0 })) }
    {
        Ok(PageSnapshot {
            layout: layout_of(alloc, line, ports)?,
            now: nothing_of(alloc, line)?,
            counts: no_counts(alloc, line)?,
            sent: Sent::new(alloc, line)?,
            news: News::new(alloc, line)?,
            silences: vec![in alloc; Silences::new(); line.centre_count() as usize]?,
        })
    }

    /// Reads the centres, one after another.
    pub fn look<R: Wait>(
        &mut self,
        rt: &R,
        alloc: Global,
        line: &Line,
        nodes: &[Node],
    ) -> Result<Found, Fault<'static>>
        ensures shown { self.new.now ≡ self.old.now }
        ensures sections { IfOk result (λ found. (seen : Seen) × IsSeenAt line.now nodes.now seen
            × ((s : ℕ) → s < length line.now.sections
            → IfSome (slice_get found.now.sections.items s) (IsViewIn line.now seen s))) }
        ensures last { IfOk result (λ found. map (λ e. string_bytes e.words) found.now.last.items
            ≡ map (λ t. string_bytes t.words) self.new.news.told.items) }
    {
        let silent = silent_in(rt, alloc, nodes, &mut self.silences)?;
        let mut view = View::new(alloc, line)?;
        for node in nodes {
            self.read(rt, line, node, &mut view)?;
        }
        let View {
            mut now,
            snapshot,
            ..
        } = view;
        self.sent.add_handovers(&mut now);
        see_sections(line, &snapshot, &mut now.sections);
        now.last = self.news.tell(alloc, line)?;
        Ok(Found { now, silent })
    }

    // Reads a centre, and adds it to the view.
    fn read<R: Wait>(
        &mut self,
        rt: &R,
        line: &Line,
        node: &Node,
        view: &mut View,
    ) -> Result<(), AllocError>
        ensures shown { self.new.now ≡ self.old.now }
        ensures seen { OnOk result (HasLooked line.now node.now view.old.snapshot view.new.snapshot) }
    {
        let look = node.look(rt);
        let log = look.log();
        see_centre(line, log, &mut view.now)?;
        view.snapshot.add(line, log);
        self.sent.read_on(line, log.core());
        self.news.read_on(view.alloc, log)
    }

    /// Shows the result of a look, and returns whether its events are others. The marks of the endpoints and the true
    /// places of trains stay.
    pub fn show(&mut self, found: Found) -> bool
        ensures changed { result ≡ not (found.now.events == self.old.now.events) }
        ensures now { TakesMarks self.old.now found.now self.new.now }
        ensures silent { (c : ℕ) → slice_get self.new.counts.centres.items c
            ≡ with_silent found.silent.items c (slice_get self.old.counts.centres.items c) }
    {
        let Found { now, silent } = found;
        let has_changed = now.events != self.now.events;
        let mut before = std::mem::replace(&mut self.now, now);
        copy_marks(&mut before, &mut self.now);
        copy_silent(&silent, &mut self.counts.centres);
        has_changed
    }

    /// Adds the times of the last events, as the journals have them, and returns whether one has changed. The view is
    /// that of the last look.
    pub fn add_times<R: Wait>(&mut self, rt: &R, journals: &[Journal]) -> bool
        ensures { result ≡ false → self.new.now.last.items ≡ self.old.now.last.items }
    {
        self.news.add_times(rt, journals, &mut self.now.last)
    }
}

impl View {
    // The line before the first centre is read.
    fn new(alloc: Global, line: &Line) -> Result<View, AllocError>
        ensures events { IfOk result (λ view. view.now.events ≡ 0) }
        ensures pages { IfOk result (λ view. view.snapshot.pages.items
            ≡ replicate (length line.now.sections) (record { entry = Shut; is_wished = false })) }
        ensures missions { IfOk result (λ view. view.snapshot.missions.items
            ≡ replicate (length line.now.trains) None) }
    {
        let now = nothing_of(alloc, line)?;
        let snapshot = Snapshot::new(alloc, line)?;
        Ok(View {
            alloc,
            now,
            snapshot,
        })
    }
}

// For each centre its silent messages, by their reasons. It reads the new entries of the logs first.
fn silent_in<R: Wait>(
    rt: &R,
    alloc: Global,
    nodes: &[Node],
    silences: &mut [Silences],
) -> Result<Vec<[u64; 10]>, AllocError> {
    let mut silent = Vec::new(alloc);
    for (node, silences) in nodes.iter().zip(silences.iter_mut()) {
        silences.catch_up(rt, node);
        silent.push(silences.counts())?;
    }
    Ok(silent)
}

// Shows each section as the centres show it.
fn see_sections(line: &Line, snapshot: &Snapshot, sections: &mut [SectionView])
    ensures { (s : ℕ) → s < length line.now.sections
        → IfSome (slice_get sections.new s) (IsViewIn line.now snapshot.now s) }
{
    for s in 0..line.section_count() {
        see_section(line, snapshot, sections, s);
    }
}

// Shows a section as the centres show it.
fn see_section(line: &Line, snapshot: &Snapshot, sections: &mut [SectionView], s: u16)
    ensures section { IfSome (slice_get sections.new s) (IsViewIn line.now snapshot.now s) }
    ensures others { (k : ℕ) → k ≢ s → slice_get sections.new k ≡ slice_get sections.old k }
{
    let view = snapshot.section(line, s);
    put_section(sections, s, view);
}

fn put_section(sections: &mut [SectionView], s: u16, view: SectionView)
    ensures { sections.new ≡ slice_set sections.old s view }
{
    let at = s as usize;
    if at < sections.len() {
        sections[at] = view;
    }
}

// The line before the first look.
fn nothing_of(alloc: Global, line: &Line) -> Result<LineNow, AllocError>
    ensures events { IfOk result (λ now. now.events ≡ 0) }
    ensures sections { IfOk result (λ now. now.sections.items ≡ replicate (length line.now.sections) UNSEEN) }
    ensures missions { IfOk result (λ now. now.missions.items ≡ replicate (length line.now.trains) None) }
    ensures sessions { IfOk result (λ now. now.sessions.items ≡ []) }
    ensures centres { IfOk result (λ now. now.centres.items ≡ replicate (length line.now.centres) UNUSED) }
    ensures links { IfOk result (λ now. now.links.items ≡ map unused_link (directions_of line.now)) }
{
    Ok(LineNow {
        events: 0,
        is_stopped: false,
        sections: vec![in alloc; UNSEEN; line.section_count() as usize]?,
        missions: vec![in alloc; None; line.train_count() as usize]?,
        sessions: Vec::new(alloc),
        centres: vec![in alloc; UNUSED; line.centre_count() as usize]?,
        links: links_of(alloc, line)?,
        true_places: Vec::new(alloc),
        last: Vec::new(alloc),
    })
}

// The counts before the first look.
fn no_counts(alloc: Global, line: &Line) -> Result<LineCounts, AllocError>
    ensures { IfOk result (λ counts. counts.centres.items
        ≡ replicate (length line.now.centres) CentreCounts.NOTHING) }
{
    Ok(LineCounts {
        centres: vec![in alloc; CentreCounts::NOTHING; line.centre_count() as usize]?,
        refusals: [0; 4],
        lost_notes: 0,
    })
}

const UNSEEN: SectionView = SectionView {
    mark: Mark::Shut,
    is_wished: false,
};

const UNUSED: CentreNow = CentreNow {
    entries: 0,
    clock: 0,
    taken: 0,
    seats: 0,
    is_stuck: false,
    end: None,
    limits: LIMITS,
};

// The links before the first look.
fn links_of(alloc: Global, line: &Line) -> Result<Vec<LinkNow>, AllocError>
    ensures { IfOk result (λ links. links.items ≡ map unused_link (directions_of line.now)) }
{
    directions_of(alloc, line)?
        .into_iter()
        .map(|direction| LinkNow {
            from: direction.from,
            to: direction.to,
            sent: 0,
            taken: 0,
        })
        .collect(alloc)
}
