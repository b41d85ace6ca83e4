ghost use Rattle.std.specs.Prelude.{◌≡◌, ◌≤◌, [], IsOk, OnOk};
ghost use Rattle.std.specs.Vec.{vec_capacity};

use crate::frames::{MOST_CENTRES, MOST_TO_ONE};
use crate::sent_frame::SentFrame;
use std::alloc::{AllocError, Global};
use std::mem;

/// How many frames a step sends at the most.
const MOST_FRAMES: usize = MOST_CENTRES * MOST_TO_ONE;

/// Room for the frames of one step, which is made before the step is taken.
#[derive(Debug, Drop)]
pub struct FrameRoom {
    spare: Vec<SentFrame>,
    ghost empty: { spare.items ≡ [] },
}

impl FrameRoom {
    ghost use Rattle.rbc_centre.specs.Rooms.{HasFrameRoom};

    /// No room. It takes no memory.
    pub fn new(alloc: Global) -> FrameRoom {
        FrameRoom {
            spare: Vec::new(alloc),
        }
    }

    /// Makes room for the frames of one step, if there is none.
    #[inline(always)]
    pub fn reserve(&mut self) -> Result<(), AllocError>
        ensures room { OnOk result (HasFrameRoom self.new) }
        ensures succeeds { HasFrameRoom self.old → IsOk result }
    {
        self.spare.reserve(MOST_FRAMES)
    }

    // An empty list with the room, which is taken if there is one. The given list becomes the room of a later step.
    pub(crate) fn swap(&mut self, list: Option<Vec<SentFrame>>) -> Vec<SentFrame>
        ensures items { result.items ≡ [] }
        ensures room { HasFrameRoom self.old → 32 ≤ vec_capacity result }
    {
        match list {
            Some(mut list) => {
                list.clear();
                mem::replace(&mut self.spare, list)
            }
            None => self.take(),
        }
    }

    // An empty list with the room, which is taken if there is one.
    pub(crate) fn take(&mut self) -> Vec<SentFrame>
        ensures items { result.items ≡ [] }
        ensures room { HasFrameRoom self.old → 32 ≤ vec_capacity result }
    {
        let alloc = *self.spare.allocator();
        mem::replace(&mut self.spare, Vec::new(alloc))
    }

    // An empty list for `count` frames: in its own memory, or else in the room.
    pub(crate) fn list_for(&mut self, count: usize) -> Vec<SentFrame>
        requires room { HasFrameRoom self.old }
        requires count { count ≤ 32 }
        ensures items { result.items ≡ [] }
        ensures room { count ≤ vec_capacity result }
    {
        match Vec::with_capacity(*self.spare.allocator(), count) {
            Ok(list) => list,
            Err(_) => self.take(),
        }
    }
}
