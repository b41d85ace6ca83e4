ghost use Rattle.std.specs.Prelude.{◌≡◌, IfOk, OnOk, OnErr};
ghost use Rattle.std.specs.List.{flat_map};
ghost use Rattle.std.specs.Io.KnownBytes.{append_known};
ghost use Rattle.text_journal.specs.Journal.{entry_line};
ghost use Rattle.serve_journal.specs.Bytes.{cut_to};
ghost use Rattle.serve_journal.specs.Shown.{last_kept};

use crate::durable_file::DurableFile;
use crate::kept::Kept;
use rbc_line::Line;
use std::alloc::{AllocError, Global};
use std::io;
use std::io::ErrorKind;
use std::marker::Model;
use text_journal::{Entry, add_entry};

/// A journal on a disk. Contracts see it as its durable bytes.
#[derive(Drop)]
pub struct JournalFile<F: DurableFile> {
    file: F,
    /// The number of durable bytes.
    durable_length: u64,
    /// Whether the file may have more bytes than those, as after a failed call.
    is_torn: bool,
}

impl<F: DurableFile> Model for JournalFile<F> {
    ghost use Rattle.std.specs.Prelude.{◌≡◌, ℕ, List, Option, length, false, IfSome};
    ghost use Rattle.serve_journal.specs.Bytes.{cut_to};

    ghost Value = { Option (List ℕ) };

    ghost view = { λ f. F.durable f.file };

    ghost invariant = { λ f. IfSome (F.durable f.file) (λ bytes. length bytes ≡ f.durable_length)
        × (cut_to f.durable_length (F.contents f.file) ≡ F.durable f.file)
        × (f.is_torn ≡ false → F.contents f.file ≡ F.durable f.file) };
}

impl<F: DurableFile + Drop> JournalFile<F> {
    /// Keeps the first `length` bytes of a file, and waits until they are durable. A shorter file is an error.
    pub fn open(mut file: F, length: u64) -> io::Result<JournalFile<F>>
        ensures { IfOk result (λ journal. journal ≡ cut_to length (F.contents file)) }
    {
        file.cut(length)?;
        file.sync()?;
        Ok(JournalFile {
            file,
            durable_length: length,
            is_torn: false,
        })
    }

    /// Appends a text, and waits until it is durable. After an error the durable bytes are as before, and the next call
    /// takes off any part of the text that was written.
    pub fn add(&mut self, text: &[u8]) -> io::Result<()>
        ensures ok { OnOk result (self.new ≡ append_known self.old text.now) }
        ensures err { OnErr result (self.new ≡ self.old) }
    {
        let Some(length) = self.durable_length.checked_add(text.len() as u64) else {
            return Err(io::Error::from(ErrorKind::FileTooLarge));
        };
        if self.is_torn {
            self.file.cut(self.durable_length)?;
        }
        self.is_torn = true;
        self.file.append(text)?;
        self.file.sync()?;
        self.durable_length = length;
        self.is_torn = false;
        Ok(())
    }

    /// Appends the lines of entries, and waits until they are durable. The result shows the last of them, and is `None`
    /// without an entry. After an error the durable bytes are as before.
    pub fn keep(
        &mut self,
        alloc: Global,
        line: &Line,
        entries: &[Entry],
    ) -> io::Result<Option<Kept>>
        ensures ok { OnOk result (self.new ≡ append_known self.old (flat_map (entry_line line.now) entries.now)) }
        ensures last { IfOk result (λ kept. kept ≡ last_kept entries.now) }
        ensures err { OnErr result (self.new ≡ self.old) }
    {
        let Some(last) = entries.last() else {
            return Ok(None);
        };
        let Ok(text) = lines_of(alloc, line, entries) else {
            return Err(io::Error::from(ErrorKind::OutOfMemory));
        };
        self.add(&text)?;
        Ok(Some(Kept {
            centre: last.centre(),
            stamp: last.stamp,
        }))
    }
}

// The lines of entries, each with its line feed.
fn lines_of(alloc: Global, line: &Line, entries: &[Entry]) -> Result<Vec<u8>, AllocError>
    ensures { IfOk result (λ text. text.items ≡ flat_map (entry_line line.now) entries.now) }
{
    let mut text = Vec::new(alloc);
    for entry in entries {
        add_entry(alloc, line, entry, &mut text)?;
    }
    Ok(text)
}
