//! The file of a journal, in memory.

use crate::running::client::{Done, Missed, PATIENCE_S};
use serve_journal::DurableFile;
use std::alloc::{AllocError, Global};
use std::io::ErrorKind;
use std::sync::atomic::{AtomicU8, AtomicUsize, Ordering};
use std::time::Duration;
use std::{io, thread};

/// Cells for a file of at most 256 bytes.
pub fn cells(alloc: Global) -> Result<Vec<AtomicU8>, AllocError> {
    let mut cells = Vec::new(alloc);
    for _ in 0..256 {
        cells.push(AtomicU8::new(0))?;
    }
    Ok(cells)
}

/// A file whose bytes can be read while it is written. A cell after its end is 0.
#[derive(Clone, Copy)]
pub struct Paper<'a> {
    pub cells: &'a [AtomicU8],
    /// The bytes for which it has room now.
    pub room: &'a AtomicUsize,
}

impl<'a> Paper<'a> {
    /// The number of its bytes.
    pub fn length(&self) -> usize {
        self.cells
            .iter()
            .take_while(|cell| cell.load(Ordering::SeqCst) != 0)
            .count()
    }

    /// Whether its lines are those of these entries. An entry is given without checksum and time. Each line has a time.
    pub fn has(&self, alloc: Global, entries: &[&str]) -> Done<bool> {
        let mut bytes = Vec::new(alloc);
        for cell in self.cells.iter().take(self.length()) {
            bytes
                .push(cell.load(Ordering::SeqCst))
                .ok()
                .ok_or(Missed::Memory)?;
        }
        let text = std::str::from_utf8(&bytes).unwrap_or("");
        let mut found = 0usize;
        for (row, entry) in text.lines().zip(entries.iter()) {
            if is_line_of(row, entry) {
                found = found.saturating_add(1);
            }
        }
        Ok(found == entries.len() && text.lines().count() == found)
    }

    /// Waits until it has this many bytes, and then a while, so that the centre notices the full file.
    pub fn fills(&self, host: &HostRuntime, length: usize) -> Done<()> {
        for _ in 0..PATIENCE_S.saturating_mul(1000) {
            if self.length() == length {
                thread::sleep(host, Duration::from_millis(400));
                return Ok(());
            }
            thread::sleep(host, Duration::from_millis(1));
        }
        Err(Missed::Entry)
    }

    /// Gives it room for this many bytes.
    pub fn allow(&self, room: usize) {
        self.room.store(room, Ordering::SeqCst);
    }

    /// The file, opened for writing.
    pub fn open(self) -> Sheet<'a> {
        Sheet { paper: self, at: 0 }
    }
}

// Whether a line has the stamp and the event of an entry, and a time in milliseconds of this century.
fn is_line_of(row: &str, entry: &str) -> bool {
    match parts_of(row) {
        Some((stamp, time, event)) => {
            time.len() == 13
                && time.parse::<u64>().is_ok()
                && entry.split_once(' ') == Some((stamp, event))
        }
        None => false,
    }
}

// The stamp, the time and the event of a line.
fn parts_of(row: &str) -> Option<(&str, &str, &str)> {
    let (_, rest) = row.split_once(' ')?;
    let (stamp, rest) = rest.split_once(' ')?;
    let (time, event) = rest.split_once(' ')?;
    Some((stamp, time, event))
}

/// Such a file, opened for writing, with the position of the next write.
#[derive(Drop)]
pub struct Sheet<'a> {
    paper: Paper<'a>,
    at: usize,
}

impl DurableFile for Sheet<'_> {
    fn append(&mut self, bytes: &[u8]) -> io::Result<()> {
        let room = self.paper.room.load(Ordering::SeqCst);
        let count = bytes.len().min(room.saturating_sub(self.at));
        for byte in bytes.iter().take(count) {
            if let Some(cell) = self.paper.cells.get(self.at) {
                cell.store(*byte, Ordering::SeqCst);
            }
            self.at = self.at.saturating_add(1);
        }
        if count < bytes.len() {
            return Err(io::Error::from(ErrorKind::StorageFull));
        }
        Ok(())
    }

    fn sync(&mut self) -> io::Result<()> {
        Ok(())
    }

    fn cut(&mut self, length: u64) -> io::Result<()> {
        for cell in self.paper.cells.iter().skip(length as usize) {
            cell.store(0, Ordering::SeqCst);
        }
        self.at = length as usize;
        Ok(())
    }
}
