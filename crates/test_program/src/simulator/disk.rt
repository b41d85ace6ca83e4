//! The disks of the journals, in memory.

use crate::simulator::run::Run;
use serve_journal::DurableFile;
use std::alloc::Global;
use std::cell::Cell;
use std::io;
use std::io::ErrorKind;
use std::rc::Rc;

/// The fate of the next write.
#[derive(Clone, Copy)]
pub enum Fate {
    /// All of it is durable.
    Good,
    /// Only this many bytes are written.
    Torn(usize),
    /// It is written, and not durable.
    Unsynced,
}

/// The file of a journal on its disk.
#[derive(Drop)]
pub struct Platter {
    alloc: Global,
    bytes: Cell<Vec<u8>>,
    /// The number of durable bytes.
    pub durable: Cell<usize>,
    pub fate: Cell<Fate>,
    /// Whether a program has locked the file.
    is_locked: Cell<bool>,
}

impl Platter {
    /// An empty file.
    pub fn new(alloc: Global) -> Platter {
        Platter {
            alloc,
            bytes: Cell::new(Vec::new(alloc)),
            durable: Cell::new(0),
            fate: Cell::new(Fate::Good),
            is_locked: Cell::new(false),
        }
    }

    // Takes the bytes out of the file, until they are set again.
    fn take(&self) -> Vec<u8> {
        self.bytes.replace(Vec::new(self.alloc))
    }

    /// A copy of the first bytes, or of all.
    pub fn read(&self, run: &Run, length: usize) -> Vec<u8> {
        let bytes = self.take();
        let mut copy = Vec::new(self.alloc);
        run.extend(&mut copy, bytes.get(..length).unwrap_or(&bytes));
        self.bytes.set(bytes);
        copy
    }

    fn append(&self, more: &[u8]) {
        let mut bytes = self.take();
        let _ = bytes.extend_from_slice(more);
        self.bytes.set(bytes);
    }

    // The number of bytes, after the file was cut to at most this many.
    fn cut(&self, length: usize) -> usize {
        let mut bytes = self.take();
        bytes.truncate(length);
        let length = bytes.len();
        self.bytes.set(bytes);
        self.durable.set(self.durable.get().min(length));
        length
    }

    /// The machine crashes. A drawn part of the bytes that are not durable stays, perhaps with other bytes after it.
    pub fn crash(&self, run: &Run) {
        let durable = self.durable.get();
        let rest = self.cut(usize::MAX).saturating_sub(durable);
        let kept = run.below(rest.saturating_add(1));
        self.cut(durable.saturating_add(kept));
        self.set_locked(false);
        if kept > 0 && run.in_hundred(30) {
            self.append(&[0xFF, 0x00, b'7']);
        }
    }

    /// Whether a program has locked the file.
    pub fn is_locked(&self) -> bool {
        self.is_locked.get()
    }

    /// Locks the file, or unlocks it. The disk is good then.
    pub fn set_locked(&self, is_locked: bool) {
        self.is_locked.set(is_locked);
        self.fate.set(Fate::Good);
    }
}

/// Locks all journals. If a program has one of them, none is locked.
pub fn lock_all(run: &Run) -> bool {
    for platter in &run.platters {
        if platter.is_locked() {
            return false;
        }
    }
    set_locked(run, true);
    true
}

/// Locks all journals, or unlocks them.
pub fn set_locked(run: &Run, is_locked: bool) {
    for platter in &run.platters {
        platter.set_locked(is_locked);
    }
}

/// A file on a disk, opened for writing.
#[derive(Drop)]
pub struct Disk {
    pub platter: Rc<Platter, Global>,
}

fn result_of(is_done: bool) -> io::Result<()> {
    if is_done {
        return Ok(());
    }
    Err(io::Error::from(ErrorKind::Other))
}

impl DurableFile for Disk {
    fn append(&mut self, bytes: &[u8]) -> io::Result<()> {
        let (front, is_done) = match self.platter.fate.get() {
            Fate::Torn(count) => (bytes.get(..count).unwrap_or(bytes), false),
            _ => (bytes, true),
        };
        self.platter.append(front);
        result_of(is_done)
    }

    fn sync(&mut self) -> io::Result<()> {
        let is_done = !matches!(self.platter.fate.get(), Fate::Unsynced);
        if is_done {
            self.platter.durable.set(self.platter.cut(usize::MAX));
        }
        result_of(is_done)
    }

    fn cut(&mut self, length: u64) -> io::Result<()> {
        result_of(self.platter.cut(length as usize) as u64 == length)
    }
}
