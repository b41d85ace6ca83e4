ghost use Rattle.std.specs.Prelude.{◌≡◌};

use crate::durable_file::DurableFile;
use std::fs::{File, OpenFile};
use std::io;
use std::io::{Error, Write};
use std::os::unix::fs::MetadataExt;

/// A file of the system, open for appending. It notices if the file is removed, cut short, or written by another
/// program. After that each call is an error.
#[derive(Drop)]
pub struct SystemFile {
    file: File,
    /// Whether `sync` waits for the disk itself. If not, the bytes survive a crash of the program only.
    is_synced: bool,
    /// The number of bytes that the file should have.
    length: u64,
    harm: Option<Harm>,
}

/// The damage that a file may suffer while it is open.
#[derive(Clone, Copy)]
enum Harm {
    Removed,
    Cut,
}

impl Harm {
    fn error(self) -> Error {
        Error::other(match self {
            Harm::Removed => "its file was removed",
            Harm::Cut => "its file was cut short, or written by another program",
        })
    }
}

impl SystemFile {
    /// A file that `open_journal` or `make_journal` opened.
    pub fn new(file: File, is_synced: bool) -> SystemFile
        ensures { (result.is_synced ≡ is_synced) × (result.length ≡ 0) × (result.harm ≡ None) }
    {
        SystemFile {
            file,
            is_synced,
            length: 0,
            harm: None,
        }
    }

    // Checks that the file still has a name, and that its length is within these bounds.
    fn look(&mut self, least: u64, most: u64) -> io::Result<()> {
        let found = self.file.metadata()?;
        let harm = if found.nlink() == 0 {
            Harm::Removed
        } else if found.len() < least || found.len() > most {
            Harm::Cut
        } else {
            return Ok(());
        };
        self.harm = Some(harm);
        Err(harm.error())
    }

    fn check_harm(&self) -> io::Result<()> {
        match self.harm {
            Some(harm) => Err(harm.error()),
            None => Ok(()),
        }
    }
}

impl DurableFile for SystemFile {
    fn append(&mut self, bytes: &[u8]) -> io::Result<()> {
        self.check_harm()?;
        self.file.write_all(bytes)?;
        self.length = self.length.saturating_add(bytes.len() as u64);
        Ok(())
    }

    fn sync(&mut self) -> io::Result<()> {
        if self.is_synced {
            self.file.sync_data()?;
        }
        self.look(self.length, self.length)
    }

    fn cut(&mut self, length: u64) -> io::Result<()> {
        self.check_harm()?;
        self.look(length, u64::MAX)?;
        self.file.set_len(length)?;
        self.length = length;
        Ok(())
    }
}
