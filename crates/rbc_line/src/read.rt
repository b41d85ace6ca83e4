//! From the tables of a text to a draft: every key is required in its place, and no other is allowed.
ghost use Rattle.std.specs.Prelude.{◌≡◌, map, option_map, IfOk};
ghost use Rattle.toml.specs.Data.{as_integer, as_str, as_array};
ghost use Rattle.toml.specs.View.{view, items_view, array_view, table_view};
ghost use Rattle.rbc_line.specs.LineFile.{at, with_keys, table_with, each_of, file_centre, file_section, file_track};
ghost use Rattle.rbc_line.specs.LineFile.{track_parts, file_train, tracks_from, file_parts, line_file};
ghost use Rattle.rbc_line.specs.DraftViews.{centre_view, section_view, track_view, train_view, tracks_view};
ghost use Rattle.rbc_line.specs.DraftViews.{parts_view, file_view};

use crate::draft::{Draft, DraftCentre, DraftSection, DraftTrack, DraftTracks, DraftTrain, Parts};
use std::alloc::{AllocError, Global};
use toml::value::Array;
use toml::{Table, Value};

fn integer_at(table: &Table, key: &str) -> Option<i64>
    ensures { result ≡ at as_integer key.now (table_view table.now) }
{
    match table.get(key) {
        Some(value) => value.as_integer(),
        None => None,
    }
}

fn text_at<'a>(table: &'a Table, key: &str) -> Option<&'a str>
    ensures { option_map (λ s. s.now) result ≡ at as_str key.now (table_view table.now) }
{
    match table.get(key) {
        Some(value) => value.as_str(),
        None => None,
    }
}

fn array_at<'a>(table: &'a Table, key: &str) -> Option<&'a Array>
    ensures { option_map (λ a. array_view a.now) result ≡ at as_array key.now (table_view table.now) }
{
    match table.get(key) {
        Some(value) => value.as_array(),
        None => None,
    }
}

/// The table, if it has this many keys.
fn with_keys(table: &Table, keys: usize) -> Option<&Table>
    ensures { option_map (λ t. table_view t.now) result ≡ with_keys keys (table_view table.now) }
{
    if table.len() != keys {
        return None;
    }
    Some(table)
}

fn table_of(value: &Value, keys: usize) -> Option<&Table>
    ensures { option_map (λ t. table_view t.now) result ≡ table_with keys (view value.now) }
{
    match value.as_table() {
        Some(table) => with_keys(table, keys),
        None => None,
    }
}

#[tactic(auto, unfolding(crate::specs::LineFile::file_centre))]
fn read_centre(value: &Value) -> Option<DraftCentre<'_>>
    ensures { option_map centre_view result ≡ file_centre (view value.now) }
{
    let table = table_of(value, 2)?;
    let name = text_at(table, "name")?;
    let nid_rbc = integer_at(table, "nid_rbc")?;
    Some(DraftCentre { name, nid_rbc })
}

#[tactic(auto, unfolding(crate::specs::LineFile::file_section))]
fn read_section(track: usize, value: &Value) -> Option<DraftSection<'_>>
    ensures { option_map section_view result ≡ file_section track (view value.now) }
{
    let table = table_of(value, 3)?;
    let metres = integer_at(table, "length")?;
    let home = text_at(table, "home")?;
    let balise = integer_at(table, "balise")?;
    Some(DraftSection {
        track,
        metres,
        home,
        balise,
    })
}

#[tactic(auto, unfolding(crate::specs::LineFile::file_train))]
fn read_train(value: &Value) -> Option<DraftTrain<'_>>
    ensures { option_map train_view result ≡ file_train (view value.now) }
{
    let table = table_of(value, 2)?;
    let engine = integer_at(table, "engine")?;
    let registrar = text_at(table, "registrar")?;
    Some(DraftTrain { engine, registrar })
}

fn read_centres(alloc: Global, items: &[Value]) -> Result<Option<Vec<DraftCentre<'_>>>, AllocError>
    ensures { IfOk result
        (λ o. option_map (λ v. map centre_view v.items) o ≡ each_of file_centre (items_view items.now)) }
{
    let mut centres = Vec::with_capacity(alloc, items.len())?;
    for item in items {
        match read_centre(item) {
            Some(centre) => centres.push(centre)?,
            None => return Ok(None),
        }
    }
    Ok(Some(centres))
}

fn read_sections(
    alloc: Global,
    track: usize,
    items: &[Value],
) -> Result<Option<Vec<DraftSection<'_>>>, AllocError>
    ensures { IfOk result
        (λ o. option_map (λ v. map section_view v.items) o ≡ each_of (file_section track) (items_view items.now)) }
{
    let mut sections = Vec::with_capacity(alloc, items.len())?;
    for item in items {
        match read_section(track, item) {
            Some(section) => sections.push(section)?,
            None => return Ok(None),
        }
    }
    Ok(Some(sections))
}

fn read_trains(alloc: Global, items: &[Value]) -> Result<Option<Vec<DraftTrain<'_>>>, AllocError>
    ensures { IfOk result
        (λ o. option_map (λ v. map train_view v.items) o ≡ each_of file_train (items_view items.now)) }
{
    let mut trains = Vec::with_capacity(alloc, items.len())?;
    for item in items {
        match read_train(item) {
            Some(train) => trains.push(train)?,
            None => return Ok(None),
        }
    }
    Ok(Some(trains))
}

/// The name of a track, and the array of its sections.
#[tactic(auto, unfolding(crate::specs::LineFile::track_parts))]
fn read_parts(value: &Value) -> Option<(&str, &Array)>
    ensures { option_map (λ p. (p.0.now, array_view p.1.now)) result ≡ track_parts (view value.now) }
{
    let table = table_of(value, 2)?;
    let name = text_at(table, "name")?;
    let sections = array_at(table, "section")?;
    Some((name, sections))
}

#[tactic(auto, unfolding(crate::specs::LineFile::file_track))]
fn read_track(
    alloc: Global,
    track: usize,
    value: &Value,
) -> Result<Option<DraftTrack<'_>>, AllocError>
    ensures { IfOk result (λ o. option_map track_view o ≡ file_track track (view value.now)) }
{
    match read_parts(value) {
        Some((name, items)) => match read_sections(alloc, track, items)? {
            Some(sections) => Ok(Some(DraftTrack { name, sections })),
            None => Ok(None),
        },
        None => Ok(None),
    }
}

fn read_tracks(alloc: Global, items: &[Value]) -> Result<Option<DraftTracks<'_>>, AllocError>
    ensures { IfOk result (λ o. option_map tracks_view o ≡ tracks_from 0 (items_view items.now)) }
{
    let mut names = Vec::with_capacity(alloc, items.len())?;
    let mut sections = Vec::new(alloc);
    for (k, item) in items.iter().enumerate() {
        match read_track(alloc, k, item)? {
            Some(track) => {
                names.push(track.name)?;
                sections.extend_from_slice(&track.sections)?;
            }
            None => return Ok(None),
        }
    }
    Ok(Some(DraftTracks { names, sections }))
}

#[tactic(auto, unfolding(crate::specs::LineFile::file_parts))]
fn read_file_parts(table: &Table) -> Option<Parts<'_>>
    ensures { option_map parts_view result ≡ file_parts (table_view table.now) }
{
    let table = with_keys(table, 4)?;
    let nid_c = integer_at(table, "nid_c")?;
    let centres = array_at(table, "centre")?;
    let tracks = array_at(table, "track")?;
    let trains = array_at(table, "train")?;
    Some(Parts {
        nid_c,
        centres,
        tracks,
        trains,
    })
}

/// The content of the tables of a text; `None` if a key is missing, unknown, or of another type.
#[tactic(auto, unfolding(crate::specs::LineFile::line_file))]
pub(crate) fn read_draft(alloc: Global, table: &Table) -> Result<Option<Draft<'_>>, AllocError>
    ensures { IfOk result (λ o. option_map file_view o ≡ line_file (table_view table.now)) }
{
    let Some(parts) = read_file_parts(table) else {
        return Ok(None);
    };
    let Some(centres) = read_centres(alloc, parts.centres)? else {
        return Ok(None);
    };
    let Some(tracks) = read_tracks(alloc, parts.tracks)? else {
        return Ok(None);
    };
    let Some(trains) = read_trains(alloc, parts.trains)? else {
        return Ok(None);
    };
    Ok(Some(Draft {
        nid_c: parts.nid_c,
        centres,
        tracks,
        trains,
    }))
}
