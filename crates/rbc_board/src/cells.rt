ghost use Rattle.std.specs.Prelude.{◌≡◌, ℕ, ◌≤◌, IfOk, None, length};
ghost use Rattle.rbc_board.specs.Known.{known_at, AreNotesOf};

use crate::carrier::Carrier;
use once_cell::race::{Note, OnceBox};
use rbc_linkmsg::Frame;
use std::alloc::{AllocError, Global};

/// One cell a number, from 1 on, each of which is set once at most. No call of it waits.
#[derive(Drop)]
pub struct CellBoard {
    alloc: Global,
    cells: Vec<OnceBox<Frame>>,
}

/// The frame of each cell that a caller knows.
#[derive(Drop)]
pub struct CellSeen {
    notes: Vec<Note<Frame>>,
}

impl CellBoard {
    /// A list of empty cells for one directed link.
    pub fn new(alloc: Global, cells: u32) -> Result<CellBoard, AllocError>
        requires { (1 ≤ cells) × (cells ≤ 65536) }
        ensures { IfOk result (λ b. length b.cells.items ≡ cells) }
    {
        let mut row = Vec::with_capacity(alloc, cells as usize)?;
        for _ in 0..cells as usize {
            row.push(OnceBox::new(alloc))?;
        }
        Ok(CellBoard { alloc, cells: row })
    }

    /// New notes of this link, which know no frame.
    pub fn seen(&self) -> Result<CellSeen, AllocError>
        ensures link { IfOk result (λ s. AreNotesOf self.now.cells.items s.notes.items) }
        ensures nothing { IfOk result (λ s. (n : ℕ) → known_at s.notes.items n ≡ None) }
    {
        let mut notes = Vec::with_capacity(self.alloc, self.cells.len())?;
        for cell in &self.cells {
            notes.push(cell.note())?;
        }
        Ok(CellSeen { notes })
    }
}

impl Carrier for CellBoard {
    type Seen = CellSeen;

    ghost is_of = { λ b s. AreNotesOf b.cells.items s.notes.items };

    ghost known = { λ s n. known_at s.notes.items n };

    fn put(&self, seen: &mut CellSeen, number: u32, frame: Frame) -> Result<(), Frame> {
        if frame.number() != number {
            return Err(frame);
        }
        let at = (number - 1) as usize;
        let Some(cell) = self.cells.get(at) else {
            return Err(frame);
        };
        let Some(note) = seen.notes.get_mut(at) else {
            return Err(frame);
        };
        let Ok(value) = Box::new(self.alloc, frame) else {
            return Err(frame);
        };
        match cell.set_as(value, note) {
            Ok(()) => Ok(()),
            Err(_) => Err(frame),
        }
    }

    fn get(&self, seen: &mut CellSeen, number: u32) -> Option<Frame> {
        if number == 0 {
            return None;
        }
        let at = (number - 1) as usize;
        let cell = self.cells.get(at)?;
        let note = seen.notes.get_mut(at)?;
        cell.get_as(note).copied()
    }

    fn compare(&self, mine: &mut CellSeen, other: CellSeen, number: u32) {
        let CellSeen { mut notes } = other;
        if number == 0 {
            return;
        }
        let at = (number - 1) as usize;
        let Some(one) = mine.notes.get_mut(at) else {
            return;
        };
        let Some(two) = notes.get_mut(at) else {
            return;
        };
        one.compare(two.again());
    }
}
