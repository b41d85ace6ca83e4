use std::fs::{File, OpenOptions, TryLockError};
use std::io::{ErrorKind, Read};
use std::os::unix::fs::OpenOptionsExt;
use std::rt::Files;
use std::time::{Clock, Duration};
use std::{fs, io, thread};
use thiserror::Error;

/// The mode of a new journal: its owner reads and writes it.
const MODE: u32 = 0o600;

/// The tries to lock a journal. A program that only reads the journal holds the lock for a moment.
const LOCK_TRIES: u32 = 20;

/// The rest between two tries, in milliseconds.
const LOCK_REST_MS: u64 = 50;

/// The reason why a journal can't be opened.
#[derive(Debug, Drop, Error)]
pub enum OpenFault {
    #[error("it is not there")]
    Missing,
    #[error("another program writes it: wait until that program has ended, then begin again")]
    Busy,
    #[error("it is not a plain file")]
    NotPlain,
    #[error("{0}")]
    Io(io::Error),
}

impl From<io::Error> for OpenFault {
    fn from(error: io::Error) -> OpenFault {
        match error.kind() {
            ErrorKind::NotFound => OpenFault::Missing,
            _ => OpenFault::Io(error),
        }
    }
}

/// Opens the journal of this name and locks it. Until it is closed, no other program that locks it can write it.
pub fn open_journal<R: Files<File = File> + Clock>(rt: &R, name: &str) -> Result<File, OpenFault> {
    // Opening a pipe would wait, and a device may never end.
    if !fs::metadata(rt, name)?.is_file() {
        return Err(OpenFault::NotPlain);
    }
    let file = OpenOptions::new().read(true).append(true).open(rt, name)?;
    lock(rt, &file)?;
    Ok(file)
}

/// Creates an empty journal of this name, and locks it. It fails if a file has the name.
pub fn make_journal<R: Files<File = File> + Clock>(rt: &R, name: &str) -> Result<File, OpenFault> {
    let file = OpenOptions::new()
        .read(true)
        .append(true)
        .create_new(true)
        .mode(MODE)
        .open(rt, name)?;
    lock(rt, &file)?;
    Ok(file)
}

/// All bytes of a journal that was just opened.
pub fn read_whole<R: AllocGlobal>(rt: &R, file: &File) -> io::Result<Vec<u8>> {
    let mut bytes = Vec::new(rt.alloc());
    let mut reader = file;
    reader.read_to_end(&mut bytes)?;
    Ok(bytes)
}

fn lock<R: Clock>(rt: &R, file: &File) -> Result<(), OpenFault> {
    for _ in 0..LOCK_TRIES {
        match file.try_lock() {
            Ok(()) => return Ok(()),
            Err(TryLockError::WouldBlock) => thread::sleep(rt, Duration::from_millis(LOCK_REST_MS)),
            Err(TryLockError::Error(error)) => return Err(OpenFault::Io(error)),
        }
    }
    Err(OpenFault::Busy)
}
