//! The faults of journals, as they are reported.

ghost use Rattle.std.specs.Prelude.{◌++◌, ◌≡◌, ◌≢◌, codes, IfOk};
ghost use Rattle.cli_commands.specs.Journals.{IsFaultOf, IsUnfit, is_of_known_version, lack_of};
ghost use Rattle.text_journal.specs.declared.fault.JournalFault.TheVariants.{Memory};
ghost use Rattle.text_script.specs.Print.Rows.{name_at};

use crate::rerunning::Place;
use rbc_line::Line;
use std::alloc::{AllocError, Global};
use text_journal::{JournalFault, file_name};
use text_script::status::Fault;

/// The fault of the journal of a centre with these bytes, as it is reported.
pub(crate) fn fault_of_journal(
    alloc: Global,
    line: &Line,
    centre: u8,
    bytes: &[u8],
    fault: JournalFault,
) -> Result<Fault<'static>, AllocError>
    ensures { IfOk result (λ _. fault ≢ Memory) }
{
    let journal = file_name(alloc, line, centre)?;
    fault_of(alloc, journal, bytes, fault)
}

// The fault of the journal with this name and these bytes, as it is reported.
fn fault_of(
    alloc: Global,
    journal: String,
    bytes: &[u8],
    fault: JournalFault,
) -> Result<Fault<'static>, AllocError>
    ensures { IfOk result (IsFaultOf journal bytes.now fault) }
{
    match fault {
        JournalFault::Memory => Err(AllocError),
        JournalFault::Damaged(row) => Ok(Fault::Damaged { journal, row }),
        JournalFault::Foreign if is_of_known_version(bytes) => Ok(Fault::Foreign(journal)),
        JournalFault::Foreign => {
            let lack = lack_of(bytes);
            Ok(Fault::NoJournal(format!(in alloc; "{journal}: {lack}")?))
        }
    }
}

// Whether a file begins as a journal of version 1 or 2.
fn is_of_known_version(bytes: &[u8]) -> bool
    ensures { result ≡ is_of_known_version bytes.now }
{
    bytes.starts_with(b"journal 1 ") || bytes.starts_with(b"journal 2 ")
}

// The reason why bytes that do not begin as a journal of a known version are not a journal.
fn lack_of(bytes: &[u8]) -> &'static str
    ensures { result.now ≡ lack_of bytes.now }
{
    if bytes.starts_with(b"journal ") {
        "it has another version than 1 and 2"
    } else {
        "it is not a journal"
    }
}

/// The fault of journals whose first unfit entry is at this place. If its frame was not sent, the fault names the
/// journal that lacks the sending event.
pub(crate) fn unfit_at(
    alloc: Global,
    line: &Line,
    place: Place,
) -> Result<Fault<'static>, AllocError> {
    let Some(sender) = place.sender else {
        return unfit(alloc, line, place.centre, place.row);
    };
    let journal = file_name(alloc, line, place.centre)?;
    let other = file_name(alloc, line, sender)?;
    let journal = format!(in alloc; "{other} lacks the event that sends the frame of {journal}")?;
    let row = place.row;
    Ok(Fault::Unfit { journal, row })
}

/// The fault of journals whose first unfit line is this line of this centre's journal.
pub(crate) fn unfit(
    alloc: Global,
    line: &Line,
    centre: u8,
    row: usize,
) -> Result<Fault<'static>, AllocError>
    ensures { IfOk result (IsUnfit (name_at line.now centre ++ codes ".journal") row) }
{
    let journal = file_name(alloc, line, centre)?;
    Ok(Fault::Unfit { journal, row })
}
