//! The journal of a centre: its file, and its beginning.

ghost use Rattle.std.specs.Prelude.{◌≡◌, IfOk, is_some, true};
ghost use Rattle.std.specs.List.{list_all};
ghost use Rattle.cli_commands.specs.declared.requests.JournalStart.TheVariants.{Resume};
ghost use Rattle.rbc_cli.specs.Starts.{started};

use cli_commands::words::JournalStart;
use serve_journal::{OpenFault, open_journal, read_whole};
use serve_line::{About, Kind, Notes, ServeFault};
use std::alloc::AllocError;
use std::fs::File;
use std::io::ErrorKind;
use std::rt::Files;
use std::time::Clock;
use text_script::status::Fault;

/// The journal of a centre.
#[derive(Drop)]
pub(super) struct Place {
    pub(super) name: String,
    /// The file, open and locked, if it exists.
    pub(super) file: Option<File>,
    /// The number of its bytes that are kept.
    pub(super) length: usize,
}

/// Whether the centres begin or continue. To keep the journals, they continue if all of them exist.
pub(super) fn start_of(asked: JournalStart, places: &[Place]) -> JournalStart
    ensures { result ≡ started asked (list_all (λ place. is_some place.file) places.now) }
{
    if asked == JournalStart::Keep && all_exist(places) {
        JournalStart::Resume
    } else {
        asked
    }
}

fn all_exist(places: &[Place]) -> bool
    ensures { result ≡ list_all (λ place. is_some place.file) places.now }
{
    places.iter().all(|place| place.file.is_some())
}

/// Opens and locks the journal of this name. A journal to resume must exist.
pub(super) fn place_of<R: Files<File = File> + Clock, N: Notes>(
    rt: &R,
    name: String,
    start: JournalStart,
    notes: &N,
) -> Result<Place, ServeFault>
    ensures name { IfOk result (λ place. place.name ≡ name) }
    ensures length { IfOk result (λ place. place.length ≡ 0) }
    ensures exists { start ≡ Resume → IfOk result (λ place. is_some place.file ≡ true) }
{
    match file_of(rt, name.as_str(), start) {
        Ok(file) => Ok(Place {
            name,
            file,
            length: 0,
        }),
        Err(OpenFault::Missing) => Err(ServeFault::Run(Fault::NoJournal(name))),
        Err(fault) => {
            notes.note(
                About::of(Kind::Refused),
                format_args!("{name} can't be opened: {fault}"),
            );
            Err(ServeFault::Journal)
        }
    }
}

// The file of this name, open and locked, if it exists. To resume, it must exist.
fn file_of<R: Files<File = File> + Clock>(
    rt: &R,
    name: &str,
    start: JournalStart,
) -> Result<Option<File>, OpenFault>
    ensures { start ≡ Resume → IfOk result (λ file. is_some file ≡ true) }
{
    match open_journal(rt, name) {
        Ok(file) => Ok(Some(file)),
        Err(OpenFault::Missing) if start != JournalStart::Resume => Ok(None),
        Err(fault) => Err(fault),
    }
}

/// The bytes of a journal; none if it does not exist.
pub(super) fn bytes_of<R: AllocGlobal, N: Notes>(
    rt: &R,
    place: &Place,
    notes: &N,
) -> Result<Vec<u8>, ServeFault> {
    let Some(file) = &place.file else {
        return Ok(Vec::new(rt.alloc()));
    };
    match read_whole(rt, file) {
        Ok(bytes) => Ok(bytes),
        Err(error) if error.kind() == ErrorKind::OutOfMemory => Err(AllocError.into()),
        Err(error) => {
            let name = &place.name;
            notes.note(
                About::of(Kind::Refused),
                format_args!("{name} can't be read: {error}"),
            );
            Err(ServeFault::Journal)
        }
    }
}
