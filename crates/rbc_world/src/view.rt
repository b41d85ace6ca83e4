ghost use Rattle.std.specs.Prelude.{◌≡◌, ◌<◌, length, slice_get, IfOk, Some, option_map};
ghost use Rattle.rbc_spec.specs.Maps.{has};
ghost use Rattle.rbc_spec.specs.SectionRuns.{within};
ghost use Rattle.rbc_spec.specs.Line.{section};
ghost use Rattle.rbc_spec.specs.ReadOff.{StandsFor, read_off};
ghost use Rattle.law_invariants.specs.Flow.Shows.{shown};
ghost use Rattle.law_reached.specs.Seen.{is_in_its_hand};
ghost use Rattle.rbc_book.specs.Entries.{entry_of};
ghost use Rattle.rbc_world.specs.Reached.{WasReached};
ghost use Rattle.rbc_world.specs.World.{line_of, state_of};
ghost use Rattle.rbc_world.specs.View.{mark_shown, held_shown, seat_of, EachOf, AreTrainsSeen, ShowsSection, ShowsSession, Shows};

use crate::world::{World, known_line};
use rbc_book::{Entry, Mark, Page, SectionView};
use rbc_centre::{MissionFacts, Phase, Place, SectionRun};
use rbc_line::Line;
use std::alloc::{AllocError, Global};

/// The mark of a section with this entry in its home's book. A section in use is in its train's movement authority, or
/// is kept for the train.
pub fn mark_of(entry: Entry, is_in_hand: bool) -> Mark
    ensures { mark_shown result ≡ shown (entry_of entry) (λ _. is_in_hand) }
{
    match entry {
        Entry::Shut => Mark::Shut,
        Entry::Open => Mark::Open,
        Entry::Taken { nid_engine } | Entry::Out { nid_engine } => {
            if is_in_hand {
                Mark::Given { nid_engine }
            } else {
                Mark::Kept { nid_engine }
            }
        }
    }
}

/// The session of a centre with a train.
#[derive(Clone, Copy, Debug, PartialEq, Eq)]
pub struct SessionView {
    pub phase: Phase,
    /// The last T_TRAIN that was received.
    pub heard: Option<u32>,
    /// The number of messages sent to the train.
    pub said: u32,
    /// The place of a start of mission that waits for the right to supervise the train.
    pub waiting: Option<Place>,
}

/// Who supervises a train's mission.
#[derive(Clone, Copy, Debug, PartialEq, Eq)]
pub enum Supervisor {
    /// The centre of this number.
    At { centre: u8 },
    /// No centre: the mission is on the way between two, with the last T_TRAIN that was received.
    Parted { heard: u32 },
}

/// The mission of a train.
#[derive(Clone, Copy, Debug, PartialEq, Eq)]
pub struct MissionView {
    pub supervisor: Supervisor,
    /// Its last place, train data, end, and pending request to shorten.
    pub facts: MissionFacts,
    /// The sections of its movement authority.
    pub hand: SectionRun,
}

/// A train of the line.
#[derive(Debug, Drop)]
pub struct TrainView {
    pub nid_engine: u32,
    /// Its session with each centre, by the centre's number.
    pub sessions: Vec<SessionView>,
    /// Its mission, at the centre that supervises it or on the way between two.
    pub mission: Option<MissionView>,
}

impl TrainView {
    /// The number of the centre that supervises the train. `None` if the train has no mission, or its mission is on the
    /// way between two centres.
    pub fn supervisor(&self) -> Option<u8>
        ensures { result ≡ seat_of self.now }
    {
        match self.mission?.supervisor {
            Supervisor::At { centre } => Some(centre),
            Supervisor::Parted { .. } => None,
        }
    }

    // Whether the section is in its movement authority.
    fn has(&self, s: u16) -> bool
        ensures { result ≡ has (λ h. within h.hand s) (option_map held_shown self.now.mission) }
    {
        match self.mission {
            Some(mission) => mission.hand.contains(s),
            None => false,
        }
    }
}

/// The state of the line, read off its centres and the frames on the way between them.
#[derive(Debug, Drop)]
pub struct LineView {
    /// By section number.
    pub sections: Vec<SectionView>,
    /// In the order of the line file.
    pub trains: Vec<TrainView>,
}

impl World {
    /// The state of the line, read off the centres and the frames on the way between them.
    pub fn view(&self, alloc: Global) -> Result<LineView, AllocError>
        ensures shows { IfOk result (Shows (line_of self.now) (read_off (line_of self.now) (state_of self.now))) }
        // That state represents the centres and those frames.
        ensures stands { StandsFor (line_of self.now) (state_of self.now)
            (read_off (line_of self.now) (state_of self.now)) }
        // Some list of events led from the line's initial state to these centres.
        ensures reached { ∥ WasReached (line_of self.now) (state_of self.now) ∥₁ }
    {
        known_line(&self.line);
        let trains = self.train_views(alloc)?;
        let sections = self.section_views(alloc, &trains)?;
        Ok(LineView { sections, trains })
    }

    fn section_views(
        &self,
        alloc: Global,
        trains: &[TrainView],
    ) -> Result<Vec<SectionView>, AllocError>
        requires { AreTrainsSeen (line_of self.now) (state_of self.now) trains.now }
        ensures { IfOk result
            (λ views. EachOf (λ s p. ShowsSection (read_off (line_of self.now) (state_of self.now)) s p)
            (length (line_of self.now).sections) views.items) }
    {
        let count = self.line.section_count();
        let mut views = Vec::with_capacity(alloc, count as usize)?;
        for s in 0..count {
            views.push(self.section_view(s, trains))?;
        }
        Ok(views)
    }

    // A section, as its home has it, and the hand of its train, whose mission may be at any centre or on the way.
    fn section_view(&self, s: u16, trains: &[TrainView]) -> SectionView
        requires { AreTrainsSeen (line_of self.now) (state_of self.now) trains.now }
        ensures { ShowsSection (read_off (line_of self.now) (state_of self.now)) s result }
    {
        known_line(&self.line);
        match home_of(&self.line, s) {
            Some(home) => self.seen_at(home, s, trains),
            None => SectionView {
                mark: Mark::Shut,
                is_wished: false,
            },
        }
    }

    // A section of home c.
    fn seen_at(&self, c: u8, s: u16, trains: &[TrainView]) -> SectionView
        requires { AreTrainsSeen (line_of self.now) (state_of self.now) trains.now }
        ensures mark { mark_shown result.mark
            ≡ shown (((state_of self.now).at c).book s) (is_in_its_hand (line_of self.now) (state_of self.now) s) }
        ensures wish { result.is_wished ≡ ((state_of self.now).at c).wish s }
    {
        let page = self.page_at(c, s);
        SectionView {
            mark: self.mark_at(s, page.entry, trains),
            is_wished: page.is_wished,
        }
    }

    // The mark of a section with this entry in its home's book.
    fn mark_at(&self, s: u16, entry: Entry, trains: &[TrainView]) -> Mark
        requires { AreTrainsSeen (line_of self.now) (state_of self.now) trains.now }
        ensures { mark_shown result ≡ shown (entry_of entry) (is_in_its_hand (line_of self.now) (state_of self.now) s) }
    {
        match entry {
            Entry::Shut | Entry::Open => mark_of(entry, false),
            Entry::Out { nid_engine } | Entry::Taken { nid_engine } => {
                mark_of(entry, self.is_given(s, nid_engine, trains))
            }
        }
    }

    // Whether a section is in the movement authority of the train, whose mission may be at any centre or on the way. An
    // engine that is not of the line has none.
    fn is_given(&self, s: u16, nid_engine: u32, trains: &[TrainView]) -> bool
        requires { AreTrainsSeen (line_of self.now) (state_of self.now) trains.now }
        ensures { result ≡ is_in_its_hand (line_of self.now) (state_of self.now) s nid_engine }
    {
        known_line(&self.line);
        match self.line.train_number(nid_engine) {
            Some(i) => trains[i as usize].has(s),
            None => false,
        }
    }

    // The page of a section in the book of centre c.
    fn page_at(&self, c: u8, s: u16) -> Page
        ensures entry { entry_of result.entry ≡ ((state_of self.now).at c).book s }
        ensures wish { result.is_wished ≡ ((state_of self.now).at c).wish s }
    {
        if (c as usize) < self.centres.len() {
            self.centres[c as usize].page(s)
        } else {
            Page::SHUT
        }
    }

    fn train_views(&self, alloc: Global) -> Result<Vec<TrainView>, AllocError>
        ensures { IfOk result (λ views. AreTrainsSeen (line_of self.now) (state_of self.now) views.items) }
    {
        let count = self.line.train_count();
        let mut views = Vec::with_capacity(alloc, count as usize)?;
        for i in 0..count {
            let nid_engine = engine_of(&self.line, i);
            let sessions = self.session_views(alloc, nid_engine)?;
            views.push(TrainView {
                nid_engine,
                sessions,
                mission: self.mission_view(nid_engine),
            })?;
        }
        Ok(views)
    }

    fn session_views(&self, alloc: Global, nid_engine: u32) -> Result<Vec<SessionView>, AllocError>
        ensures { IfOk result
            (λ views. EachOf (λ c p. ShowsSession (read_off (line_of self.now) (state_of self.now)) nid_engine c p)
            (length (line_of self.now).centres) views.items) }
    {
        let mut views = Vec::with_capacity(alloc, self.centres.len())?;
        for c in 0..self.centres.len() {
            views.push(self.session_view(c, nid_engine))?;
        }
        Ok(views)
    }

    fn session_view(&self, c: usize, nid_engine: u32) -> SessionView
        requires { c < length self.now.centres.items }
        ensures { ShowsSession (read_off (line_of self.now) (state_of self.now)) nid_engine c result }
    {
        let state = self.centres[c].train(nid_engine);
        SessionView {
            phase: state.phase,
            heard: state.heard,
            said: state.said,
            waiting: state.waiting,
        }
    }
}

// The home centre of a section.
fn home_of(line: &Line, s: u16) -> Option<u8>
    ensures { result ≡ option_map (λ p. p.home) (section line.now s) }
{
    match line.section(s) {
        Some(section) => Some(section.home),
        None => None,
    }
}

// The NID_ENGINE of the train at a place of the line file.
fn engine_of(line: &Line, i: u8) -> u32
    requires { i < length line.now.trains }
    ensures { option_map (λ p. p.nid_engine) (slice_get line.now.trains i) ≡ Some result }
{
    match line.train(i) {
        Some(train) => train.nid_engine,
        None => unreachable!(),
    }
}
