//! The view of an observer outside the centres of a line.

ghost use Rattle.std.specs.Prelude.{◌≡◌, false, None, OnOk, option_map, Some, true};
ghost use Rattle.law_outside.specs.Outside as spec;
ghost use Rattle.rbc_watch.specs.Stretches.{stretch_of};
ghost use Rattle.rbc_watch.specs.Seen.{view_of, released_on};

use crate::stretch::Stretch;
use indexmap::{IndexMap, IndexSet};
use std::alloc::{AllocError, Global};

/// How far each train may run, the starts of missions without an answer, and the released sections.
#[derive(Drop)]
pub(crate) struct View {
    /// By NID_ENGINE.
    pub(crate) stretches: IndexMap<u32, Stretch>,
    /// By NID_ENGINE and the centre.
    starts: IndexMap<(u32, u8), Stretch>,
    released: IndexSet<u16>,
    /// Some train was sent a message that it cannot place.
    has_strayed: bool,
}

impl View {
    /// Nothing is seen.
    pub(crate) fn new(alloc: Global) -> View
        ensures { view_of result ≡ spec.nothing_seen }
    {
        View {
            stretches: IndexMap::new(alloc),
            starts: IndexMap::new(alloc),
            released: IndexSet::new(alloc),
            has_strayed: false,
        }
    }

    /// How far a train may run.
    pub(crate) fn stretch(&self, nid_engine: u32) -> Option<Stretch>
        ensures { option_map stretch_of result ≡ (view_of self.now).stretch nid_engine }
    {
        self.stretches.get(&nid_engine).copied()
    }

    /// The stretch of a start of mission without an answer.
    pub(crate) fn start(&self, nid_engine: u32, c: u8) -> Option<Stretch>
        ensures { option_map stretch_of result ≡ (view_of self.now).start nid_engine c }
    {
        self.starts.get(&(nid_engine, c)).copied()
    }

    /// Whether the interlocking has released the section, and not taken it back.
    pub(crate) fn is_released(&self, s: u16) -> bool
        ensures { result ≡ (view_of self.now).released s }
    {
        self.released.contains(&s)
    }

    /// Whether some train was sent a message that it cannot place.
    pub(crate) fn has_strayed(&self) -> bool
        ensures { result ≡ (view_of self.now).stray }
    {
        self.has_strayed
    }

    /// The train may run so far from now on; `None` is a message that it cannot place.
    pub(crate) fn get(&mut self, nid_engine: u32, x: Option<Stretch>) -> Result<(), AllocError>
        ensures { OnOk result (view_of self.new
            ≡ spec.gets nid_engine (option_map stretch_of x) (view_of self.old)) }
    {
        match x {
            Some(x) => {
                self.stretches.insert(nid_engine, x)?;
            }
            None => self.has_strayed = true,
        }
        Ok(())
    }

    /// The start of a mission waits at a centre, or none does.
    pub(crate) fn set_start(
        &mut self,
        nid_engine: u32,
        c: u8,
        x: Option<Stretch>,
    ) -> Result<(), AllocError>
        ensures { OnOk result (view_of self.new
            ≡ spec.starts nid_engine c (option_map stretch_of x) (view_of self.old)) }
    {
        match x {
            Some(x) => self.wait(nid_engine, c, x),
            None => {
                self.end_start(nid_engine, c);
                Ok(())
            }
        }
    }

    /// The start of a mission waits at a centre.
    fn wait(&mut self, nid_engine: u32, c: u8, x: Stretch) -> Result<(), AllocError>
        ensures { OnOk result (view_of self.new
            ≡ spec.starts nid_engine c (Some (stretch_of x)) (view_of self.old)) }
    {
        self.starts.insert((nid_engine, c), x)?;
        Ok(())
    }

    /// No start of the train waits at a centre any more.
    fn end_start(&mut self, nid_engine: u32, c: u8)
        ensures { view_of self.new ≡ spec.starts nid_engine c None (view_of self.old) }
    {
        self.starts.swap_remove(&(nid_engine, c));
    }

    /// The section is released.
    pub(crate) fn release(&mut self, s: u16) -> Result<(), AllocError>
        ensures { OnOk result (view_of self.new ≡ released_on s true (view_of self.old)) }
    {
        self.released.insert(s)?;
        Ok(())
    }

    /// The section is taken back.
    pub(crate) fn take_back(&mut self, s: u16)
        ensures { view_of self.new ≡ released_on s false (view_of self.old) }
    {
        self.released.swap_remove(&s);
    }
}
