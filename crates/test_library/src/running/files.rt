//! Journals as files: the lock on a file, writes between the lock and the reading, and changes of a file while it is
//! written.

use serve_journal::{JournalFile, OpenFault, SystemFile, make_journal, open_journal, read_whole};
use std::fs::OpenOptions;
use std::io::Write;
use std::os::unix::fs::PermissionsExt;
use std::rt::{Env, Files};
use std::test::*;
use std::{env, fs, process};

// The first line of a journal of centre B, and an entry.
const EARLY: &str = "journal 1 B ba35c55526b8ee737edcb0f3cc29d5304c156d9964d7e8ca30cc4d3f91642eea
3a1cc061 1 > set B 1
";

// The next two entries of the journal.
const LATE: &str = "44a52c2b 7 > deliver A B 1
5000362a 8 > train B 9B028000000040000040
";

/// The name of a file that only this test uses. No file of this name exists.
pub fn name_of(rt: &HostRuntime, test: &str) -> Result<String, Fail> {
    let folder = env::temp_dir(rt)?;
    let id = process::id(rt.process());
    let name = format!(in rt.alloc(); "{}/{id}-{test}", folder.as_str())?;
    if fs::exists(rt, name.as_str())? {
        fs::remove_file(rt, name.as_str())?;
    }
    Ok(name)
}

// Appends a text to the file, as another program might.
fn write_after(rt: &HostRuntime, name: &str, text: &str) -> Result<(), Fail> {
    let mut file = OpenOptions::new().append(true).open(rt, name)?;
    file.write_all(text.as_bytes())?;
    Ok(())
}

// Opens the journal. Another program writes after it is locked. Then it is read, and a line is added. The result is the
// bytes that were read.
fn read_and_added(rt: &HostRuntime, name: &str) -> Result<Vec<u8>, Fail> {
    let file = open_journal(rt, name)?;
    write_after(rt, name, LATE)?;
    let bytes = read_whole(rt, &file)?;
    let mut journal = JournalFile::open(SystemFile::new(file, true), bytes.len() as u64)?;
    journal.add(b"next\n")?;
    Ok(bytes)
}

// The lines between the early ones and the added one.
fn late_in(text: &str) -> Option<&str> {
    text.strip_prefix(EARLY)?.strip_suffix("next\n")
}

// Whether a line that comes after the lock is read, and is kept.
fn is_late_line_kept(rt: &HostRuntime, name: &str) -> Result<bool, Fail> {
    fs::write(rt, name, EARLY)?;
    let bytes = read_and_added(rt, name)?;
    let text = fs::read_to_string(rt, name)?;
    fs::remove_file(rt, name)?;
    let read = bytes.as_slice().strip_prefix(EARLY.as_bytes());
    Ok((read, late_in(text.as_str())) == (Some(LATE.as_bytes()), Some(LATE)))
}

// Makes a journal, and opens it once more. The result is its mode, and whether it is busy.
fn made_and_opened(rt: &HostRuntime, name: &str) -> Result<(u32, bool), Fail> {
    let first = make_journal(rt, name)?;
    let mode = first.metadata()?.permissions().mode() % 512;
    let second = open_journal(rt, name);
    Ok((mode, matches!(second, Err(OpenFault::Busy))))
}

// Opens the journal, and makes it once more. The result is whether the first is done and the second is not.
fn opened_and_made(rt: &HostRuntime, name: &str) -> (bool, bool) {
    let opened = open_journal(rt, name);
    let made = make_journal(rt, name);
    (opened.is_ok(), matches!(made, Err(OpenFault::Io(_))))
}

// Whether a journal has one writer: none of this name can be opened while there is none, it is busy while it is open,
// and it is not made again.
fn is_one_writer(rt: &HostRuntime, name: &str) -> Result<bool, Fail> {
    let is_missing = matches!(open_journal(rt, name), Err(OpenFault::Missing));
    let during = made_and_opened(rt, name)?;
    let after = opened_and_made(rt, name);
    fs::remove_file(rt, name)?;
    Ok((is_missing, during, after) == (true, (0o600, true), (true, true)))
}

// A new journal with one line.
fn begun(rt: &HostRuntime, name: &str) -> Result<JournalFile<SystemFile>, Fail> {
    let file = make_journal(rt, name)?;
    let mut journal = JournalFile::open(SystemFile::new(file, true), 0)?;
    journal.add(b"abc\n")?;
    Ok(journal)
}

// A new journal is removed, or cut short by another program. The result is whether it takes each of two lines then.
fn takes_two(rt: &HostRuntime, name: &str, is_cut: bool) -> Result<(bool, bool), Fail> {
    let mut journal = begun(rt, name)?;
    if is_cut {
        fs::write(rt, name, "")?;
    } else {
        fs::remove_file(rt, name)?;
    }
    Ok((journal.add(b"d\n").is_ok(), journal.add(b"e\n").is_ok()))
}

// Whether a file that is cut takes nothing more.
fn is_given_up(rt: &HostRuntime, name: &str) -> Result<bool, Fail> {
    let takes = takes_two(rt, name, true)?;
    let text = fs::read_to_string(rt, name)?;
    fs::remove_file(rt, name)?;
    Ok((takes, text.as_str()) == ((false, false), "d\n"))
}

#[test]
fn a_journal_has_one_writer_and_keeps_its_lines(rt: HostRuntime) -> Result<(), Fail> {
    let name = name_of(&rt, "test.journal")?;
    let name = name.as_str();
    let seen = [
        is_late_line_kept(&rt, name)?,
        is_one_writer(&rt, name)?,
        takes_two(&rt, name, false)? == (false, false),
        is_given_up(&rt, name)?,
    ];
    assert!(rt; seen == [true; 4], "{seen:?}");
    Ok(())
}

#[test]
fn a_journal_is_a_plain_file(rt: HostRuntime) -> Result<(), Fail> {
    for name in ["/", "/dev/zero", "/dev/full"] {
        let opened = open_journal(&rt, name);
        assert!(rt; matches!(opened, Err(OpenFault::NotPlain)), "{name}");
    }
    Ok(())
}
