//! From a tested draft to the lists of a line.
ghost use Rattle.std.specs.Prelude.{◌≡◌, ◌<◌, ◌≤◌, IfOk, Some, false, length, map, position, string_bytes};
ghost use Rattle.rbc_line.specs.DraftViews.{centre_view, section_view, train_view, file_view};
ghost use Rattle.rbc_line.specs.Faults.{is_outside};
ghost use Rattle.rbc_line.specs.Homes.{HasOwnStarts};
ghost use Rattle.rbc_line.specs.LineFile.{number, centre_number, line_centre, line_section, line_train, line_of};
ghost use Rattle.rbc_line.specs.Tested.{Ascends, IsKnown, IsTested};
ghost use Rattle.rbc_line.specs.Views.{centre_of, section_of, train_of, line_of_rows};

use crate::draft::{Draft, DraftCentre, DraftSection, DraftTrain};
use crate::parts::{Centre, Rows, Section, Train};
use std::alloc::{AllocError, Global};

/// A number that was tested.
fn tested(low: u32, high: u32, n: i64) -> u32
    requires { is_outside low high n ≡ false }
    ensures value { result ≡ number n }
    ensures low { low ≤ result }
    ensures high { result ≤ high }
{
    n as u32
}

/// The number of the centre of this name.
fn number_of_centre(centres: &[DraftCentre], name: &str) -> u8
    requires few { length centres.now ≤ 8 }
    requires known { IsKnown (map centre_view centres.now) name.now }
    ensures { result ≡ centre_number (map centre_view centres.now) name.now }
{
    match centres.iter().position(|centre| centre.name == name) {
        Some(c) => c as u8,
        None => unreachable!(),
    }
}

fn nid_rbc_of(centre: &DraftCentre) -> u16
    requires { is_outside 0 16382 centre.now.nid_rbc ≡ false }
    ensures { result ≡ number centre.now.nid_rbc }
{
    tested(0, 16382, centre.nid_rbc) as u16
}

fn centre_rows(alloc: Global, draft: &Draft) -> Result<Vec<Centre>, AllocError>
    requires { IsTested (file_view draft.now) }
    ensures { IfOk result
        (λ rows. map centre_of rows.items ≡ map line_centre (map centre_view draft.now.centres.items)) }
{
    let centres = draft.centres.as_slice();
    let mut rows = Vec::with_capacity(alloc, centres.len())?;
    for centre in centres {
        let name = String::from_str(alloc, centre.name)?;
        let nid_rbc = nid_rbc_of(centre);
        rows.push(Centre { name, nid_rbc })?;
    }
    Ok(rows)
}

fn track_rows(alloc: Global, names: &[&str]) -> Result<Vec<String>, AllocError>
    ensures { IfOk result (λ rows. map string_bytes rows.items ≡ map (λ name. name.now) names.now) }
{
    let mut rows = Vec::with_capacity(alloc, names.len())?;
    for name in names {
        rows.push(String::from_str(alloc, name)?)?;
    }
    Ok(rows)
}

fn section_row(centres: &[DraftCentre], section: &DraftSection, start: u32) -> Section
    requires few { length centres.now ≤ 8 }
    requires track { section.now.track < 4 }
    requires metres { is_outside 100 2000 section.now.metres ≡ false }
    requires home { IsKnown (map centre_view centres.now) section.now.home.now }
    requires balise { is_outside 0 16382 section.now.balise ≡ false }
    ensures value { section_of result ≡ line_section (map centre_view centres.now) (section_view section.now) }
    ensures start { result.start ≡ start }
    ensures metres { result.metres ≤ 2000 }
{
    Section {
        track: section.track as u8,
        start,
        metres: tested(100, 2000, section.metres) as u16,
        home: number_of_centre(centres, section.home),
        balise: tested(0, 16382, section.balise) as u16,
    }
}

fn train_row(centres: &[DraftCentre], train: &DraftTrain) -> Train
    requires few { length centres.now ≤ 8 }
    requires engine { is_outside 0 16777215 train.now.engine ≡ false }
    requires registrar { IsKnown (map centre_view centres.now) train.now.registrar.now }
    ensures { train_of result ≡ line_train (map centre_view centres.now) (train_view train.now) }
{
    Train {
        nid_engine: tested(0, 16777215, train.engine),
        registrar: number_of_centre(centres, train.registrar),
    }
}

fn section_rows(alloc: Global, draft: &Draft) -> Result<Vec<Section>, AllocError>
    requires tested { IsTested (file_view draft.now) }
    requires order { Ascends 0 (length draft.now.tracks.names.items)
        (map section_view draft.now.tracks.sections.items) }
    ensures rows { IfOk result (λ rows. map section_of rows.items
        ≡ map (line_section (map centre_view draft.now.centres.items))
        (map section_view draft.now.tracks.sections.items)) }
    ensures starts { IfOk result (λ rows. HasOwnStarts rows.items) }
{
    let centres = draft.centres.as_slice();
    let sections = draft.tracks.sections.as_slice();
    let mut rows: Vec<Section> = Vec::with_capacity(alloc, sections.len())?;
    let mut ends = [0u32; 4];
    for section in sections {
        let row = section_row(centres, section, ends[section.track]);
        ends[section.track] += u32::from(row.metres);
        rows.push(row)?;
    }
    Ok(rows)
}

fn train_rows(alloc: Global, draft: &Draft) -> Result<Vec<Train>, AllocError>
    requires { IsTested (file_view draft.now) }
    ensures { IfOk result (λ rows. map train_of rows.items
        ≡ map (line_train (map centre_view draft.now.centres.items)) (map train_view draft.now.trains.items)) }
{
    let centres = draft.centres.as_slice();
    let trains = draft.trains.as_slice();
    let mut rows = Vec::with_capacity(alloc, trains.len())?;
    for train in trains {
        rows.push(train_row(centres, train))?;
    }
    Ok(rows)
}

/// The lists of the line that a tested draft names.
#[tactic(auto, unfolding(crate::specs::LineFile::line_of))]
pub(crate) fn rows_of(alloc: Global, draft: &Draft) -> Result<Rows, AllocError>
    requires tested { IsTested (file_view draft.now) }
    requires order { Ascends 0 (length draft.now.tracks.names.items)
        (map section_view draft.now.tracks.sections.items) }
    ensures line { IfOk result (λ rows. line_of_rows rows ≡ line_of (file_view draft.now)) }
    ensures starts { IfOk result (λ rows. HasOwnStarts rows.sections.items) }
{
    let nid_c = tested(0, 1023, draft.nid_c) as u16;
    let centres = centre_rows(alloc, draft)?;
    let tracks = track_rows(alloc, &draft.tracks.names)?;
    let sections = section_rows(alloc, draft)?;
    let trains = train_rows(alloc, draft)?;
    Ok(Rows {
        nid_c,
        centres,
        tracks,
        sections,
        trains,
    })
}
