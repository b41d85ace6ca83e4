//! The lowest fault of a draft but for the order of its homes, which is tested on numbers.
ghost use Rattle.std.specs.Prelude.{◌↔◌, IsTrue, IfOk, MatchOption};
ghost use Rattle.rbc_line.specs.DraftViews.{file_view};
ghost use Rattle.rbc_line.specs.Faults.{AppliesToFile, HasNoneBelow, IsLowest};

use crate::draft::Draft;
use crate::fault::LineFault;
use crate::faults::{
    has_home_fault, has_length_fault, has_number_fault, has_sections_fault, has_twice_fault,
};
use crate::limits::has_count_fault;
use std::alloc::{AllocError, Global};

fn has_centres_fault(draft: &Draft) -> bool
    ensures { IsTrue result ↔ AppliesToFile (file_view draft.now) LineFault.Centres }
{
    has_count_fault(2, 8, draft.centres.len())
}

fn has_tracks_fault(draft: &Draft) -> bool
    ensures { IsTrue result ↔ AppliesToFile (file_view draft.now) LineFault.Tracks }
{
    has_count_fault(1, 4, draft.tracks.names.len())
}

fn has_trains_fault(draft: &Draft) -> bool
    ensures { IsTrue result ↔ AppliesToFile (file_view draft.now) LineFault.Trains }
{
    has_count_fault(1, 64, draft.trains.len())
}

pub(crate) fn lowest_fault(alloc: Global, draft: &Draft) -> Result<Option<LineFault>, AllocError>
    ensures { IfOk result (λ o. MatchOption o
        (HasNoneBelow (AppliesToFile (file_view draft.now)) 12)
        (IsLowest (AppliesToFile (file_view draft.now)))) }
{
    if has_centres_fault(draft) {
        return Ok(Some(LineFault::Centres));
    }
    if has_tracks_fault(draft) {
        return Ok(Some(LineFault::Tracks));
    }
    if has_sections_fault(draft) {
        return Ok(Some(LineFault::Sections));
    }
    if has_trains_fault(draft) {
        return Ok(Some(LineFault::Trains));
    }
    if has_length_fault(draft) {
        return Ok(Some(LineFault::Length));
    }
    if has_number_fault(draft) {
        return Ok(Some(LineFault::Number));
    }
    let twice = has_twice_fault(alloc, draft)?;
    if twice {
        return Ok(Some(LineFault::Twice));
    }
    if has_home_fault(draft) {
        return Ok(Some(LineFault::Home));
    }
    Ok(None)
}
