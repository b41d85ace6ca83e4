use crate::files::{Files, Rows};
use std::alloc::{AllocError, Global};
use std::fs::{File, TryLockError};
use std::io::{BufRead, BufReader, ErrorKind};
use std::rt::Env;
use std::str::from_utf8;
use std::{env, fs, rt};
use text_script::status::Fault;

/// The files of the operating system.
#[derive(Clone, Copy)]
pub struct Disk<'a, R>(pub &'a R);

impl<R: rt::Files<File = File> + AllocGlobal> Files for Disk<'_, R> {
    fn text(&self, name: &str) -> Option<String> {
        fs::read_to_string(self.0, path_of(name)).ok()
    }

    // A pipe or a device may never end.
    fn contents(&self, name: &str) -> Option<Vec<u8>> {
        if is_plain(self.0, name) {
            fs::read(self.0, name).ok()
        } else {
            None
        }
    }

    // Centres lock a journal for as long as they write it. Here it is locked only for a moment.
    fn is_written(&self, name: &str) -> bool {
        is_plain(self.0, name)
            && match File::open(self.0, name) {
                Ok(file) => matches!(file.try_lock_shared(), Err(TryLockError::WouldBlock)),
                Err(_) => false,
            }
    }

    fn is_folder(&self, name: &str) -> bool {
        match fs::metadata(self.0, path_of(name)) {
            Ok(found) => found.is_dir(),
            Err(_) => false,
        }
    }

    // A file of any length is read line by line.
    fn each_row<T: Rows>(&self, alloc: Global, name: &str, rows: &mut T) -> Option<()> {
        let file = File::open(self.0, path_of(name)).ok()?;
        let mut reader = BufReader::new(alloc, file).ok()?;
        each_row_of(alloc, &mut reader, rows)
    }
}

fn each_row_of<B: BufRead, T: Rows>(alloc: Global, reader: &mut B, rows: &mut T) -> Option<()> {
    let mut row = Vec::new(alloc);
    for _ in 0..u64::MAX {
        if !read_row(reader, &mut row)? {
            break;
        }
        rows.row(from_utf8(row.as_slice()).ok()?);
    }
    Some(())
}

// Reads the next line without its line feed. Returns whether there is one; none if the read failed.
fn read_row<B: BufRead>(reader: &mut B, row: &mut Vec<u8>) -> Option<bool> {
    row.clear();
    if reader.read_until(b'\n', row).ok()? == 0 {
        return Some(false);
    }
    if row.last() == Some(&b'\n') {
        row.pop();
    }
    Some(true)
}

// Whether the file has an end.
fn is_plain<R: rt::Files>(rt: &R, name: &str) -> bool {
    match fs::metadata(rt, name) {
        Ok(found) => found.is_file(),
        Err(_) => false,
    }
}

/// The name of standard input; `-` is short for it.
const STANDARD_INPUT: &str = "/dev/stdin";

// The path for a name.
fn path_of(name: &str) -> &str {
    if name == "-" { STANDARD_INPUT } else { name }
}

/// The arguments after the program's name.
pub fn words_of<R: Env + AllocGlobal>(rt: &R) -> Result<Vec<String>, Fault<'static>> {
    match env::args(rt) {
        Ok(words) => Ok(words.skip(1).collect(rt.alloc())?),
        Err(error) if error.kind() == ErrorKind::OutOfMemory => Err(AllocError.into()),
        Err(_) => Err(Fault::Words),
    }
}
