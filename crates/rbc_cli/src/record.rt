//! Locks and begins the journals of a line's centres, as files in a folder.

ghost use Rattle.std.specs.Prelude.{[], ◌++◌, ◌∷◌, ◌≡◌, IfOk, string_bytes};
ghost use Rattle.text_journal.specs.Journal.{first_line, V2};
ghost use Rattle.rbc_cli.specs.Starts.{may_start};

mod place;

use crate::record::place::{Place, bytes_of, place_of, start_of};
use cli_commands::journal::{Journal, journal_name, journal_of};
use cli_commands::line_file::LineFile;
use cli_commands::words::{JournalStart, JournalWords};
use serve_journal::{JournalFile, OpenFault, SystemFile, make_journal};
use serve_line::{About, Kind, Notes, Record, ServeFault};
use std::alloc::{AllocError, Global};
use std::fs;
use std::fs::File;
use std::io::ErrorKind;
use std::path::Path;
use std::rt::Files;
use std::time::Clock;
use text_journal::{Entry, first_line, in_order};

/// The journals of all centres, locked, and their events.
#[derive(Drop)]
pub struct Locked<'a> {
    words: JournalWords<'a>,
    places: Vec<Place>,
    entries: Vec<Entry>,
}

/// Opens and locks the existing journals, and then reads them. To resume, all of them must exist. To begin, none of
/// them may have an event. To keep them, they are resumed if all exist, and begun otherwise. Nothing is changed. A note
/// names the journal that is refused.
pub fn lock_journals<'a, R: Files<File = File> + Clock + AllocGlobal, N: Notes>(
    rt: &R,
    given: &LineFile,
    mut words: JournalWords<'a>,
    notes: &N,
) -> Result<Locked<'a>, ServeFault> {
    let mut places = Vec::new(rt.alloc());
    for centre in 0..given.line.centre_count() {
        let name = journal_name(rt.alloc(), &given.line, words.folder, centre)?;
        places.push(place_of(rt, name, words.start, notes)?)?;
    }
    words.start = start_of(words.start, &places);
    let entries = entries_of(rt, given, words.start, &mut places, notes)?;
    Ok(Locked {
        words,
        places,
        entries,
    })
}

impl Locked<'_> {
    /// Begins the journals without a first line, and makes the missing ones. A note names a journal that can't be
    /// made or written.
    pub fn begun<R: Files<File = File> + Clock + AllocGlobal, N: Notes>(
        self,
        rt: &R,
        given: &LineFile,
        notes: &N,
    ) -> Result<Record<SystemFile>, ServeFault> {
        let Locked {
            words,
            mut places,
            entries,
        } = self;
        if words.start != JournalStart::Resume {
            make_folder(rt, &words, notes)?;
        }
        let mut files = Vec::new(rt.alloc());
        places.reverse();
        for centre in 0..given.line.centre_count() {
            let Some(place) = places.pop() else {
                break;
            };
            let first = first_row(rt.alloc(), given, centre)?;
            files.push(begun_one(rt, place, first.as_str(), words.is_synced, notes)?)?;
        }
        if words.is_synced {
            sync(rt, words.folder, notes)?;
        }
        Ok(Record { files, entries })
    }
}

// The first line of a journal, with its line feed.
fn first_row(alloc: Global, given: &LineFile, centre: u8) -> Result<String, AllocError>
    ensures { IfOk result (λ row. string_bytes row ≡ first_line V2 given.now.line centre [] ++ 10 ∷ []) }
{
    let mut first = first_line(alloc, &given.line, centre)?;
    first.push('\n')?;
    Ok(first)
}

// The events of the journals, in the order in which they happened. If they are not resumed, a journal has none.
fn entries_of<R: AllocGlobal, N: Notes>(
    rt: &R,
    given: &LineFile,
    start: JournalStart,
    places: &mut [Place],
    notes: &N,
) -> Result<Vec<Entry>, ServeFault> {
    let mut journals = Vec::new(rt.alloc());
    for centre in 0..given.line.centre_count() {
        let Some(place) = places.get_mut(centre as usize) else {
            break;
        };
        let bytes = bytes_of(rt, place, notes)?;
        let Journal { entries, length } = journal_of(rt.alloc(), given, centre, &bytes)?;
        if start == JournalStart::Resume {
            note_torn(place, bytes.len().saturating_sub(length), notes);
            place.length = length;
        }
        if !may_start(start, entries.len()) {
            note_old(places, centre as usize, start, notes);
            return Err(ServeFault::Journal);
        }
        journals.push(entries)?;
    }
    Ok(in_order(rt.alloc(), journals)?)
}

// Whether centres may start so with a journal that has this many events.
fn may_start(start: JournalStart, count: usize) -> bool
    ensures { result ≡ may_start start count }
{
    start == JournalStart::Resume || count == 0
}

// Notes that the journal of this number can't be begun, since it has events.
fn note_old<N: Notes>(places: &[Place], number: usize, start: JournalStart, notes: &N) {
    let Some(Place { name, .. }) = places.get(number) else {
        return;
    };
    match places.iter().find(|place| place.file.is_none()) {
        Some(missing) if start == JournalStart::Keep => {
            let missing = &missing.name;
            notes.note(
                About::of(Kind::Refused),
                format_args!(
                    "{name} has events, and {missing} does not exist: copy it back, or name another folder"
                ),
            );
        }
        _ => notes.note(
            About::of(Kind::Refused),
            format_args!("{name} has events: go on from it by --resume, or name another folder"),
        ),
    }
}

fn note_torn<N: Notes>(place: &Place, count: usize, notes: &N) {
    if count > 0 {
        let name = &place.name;
        notes.note(
            About::of(Kind::JournalCut),
            format_args!("{name}: {count} bytes after the last whole line are taken off"),
        );
    }
}

// Makes the folder, if it does not exist. The disk then has its name.
fn make_folder<R: Files<File = File>, N: Notes>(
    rt: &R,
    words: &JournalWords<'_>,
    notes: &N,
) -> Result<(), ServeFault> {
    let folder = words.folder;
    match fs::create_dir(rt, folder) {
        Ok(()) if words.is_synced => sync(rt, parent_of(folder), notes),
        Ok(()) => Ok(()),
        Err(error) if error.kind() == ErrorKind::AlreadyExists => Ok(()),
        Err(error) => {
            notes.note(
                About::of(Kind::Refused),
                format_args!("{folder} can't be made: {error}"),
            );
            Err(ServeFault::Journal)
        }
    }
}

// The parent of this folder.
fn parent_of(folder: &str) -> &str {
    match Path::new(folder).parent() {
        Some(parent) if parent.as_str().is_empty() => ".",
        Some(parent) => parent.as_str(),
        None => folder,
    }
}

// Waits until the disk has the names in a folder.
fn sync<R: Files<File = File>, N: Notes>(
    rt: &R,
    folder: &str,
    notes: &N,
) -> Result<(), ServeFault> {
    let done = match fs::open(rt, folder) {
        Ok(opened) => opened.sync_all(),
        Err(error) => Err(error),
    };
    done.map_err(|error| {
        notes.note(
            About::of(Kind::Refused),
            format_args!("{folder} can't be synced: {error}"),
        );
        ServeFault::Journal
    })
}

// Makes the journal of a centre, if it does not exist. The disk then has the events that were read. Writes the first
// line, if there is none.
fn begun_one<R: Files<File = File> + Clock, N: Notes>(
    rt: &R,
    mut place: Place,
    first: &str,
    is_synced: bool,
    notes: &N,
) -> Result<JournalFile<SystemFile>, ServeFault> {
    match begun(rt, &mut place, first, is_synced) {
        Ok(journal) => Ok(journal),
        Err(fault) => {
            let name = &place.name;
            notes.note(
                About::of(Kind::Refused),
                format_args!("{name} can't be begun: {fault}"),
            );
            Err(ServeFault::Journal)
        }
    }
}

fn begun<R: Files<File = File> + Clock>(
    rt: &R,
    place: &mut Place,
    first: &str,
    is_synced: bool,
) -> Result<JournalFile<SystemFile>, OpenFault> {
    let file = match place.file.take() {
        Some(file) => file,
        None => make_journal(rt, place.name.as_str())?,
    };
    let mut journal = JournalFile::open(SystemFile::new(file, is_synced), place.length as u64)?;
    if place.length == 0 {
        journal.add(first.as_bytes())?;
    }
    Ok(journal)
}
