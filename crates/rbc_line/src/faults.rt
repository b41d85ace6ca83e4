//! The tests of a draft, in the order of the faults.
ghost use Rattle.std.specs.Prelude.{◌≡◌, ◌==◌, ◌||◌, ◌<◌, ◌↔◌, not, false, length, map, IsTrue, IfOk};
ghost use Rattle.std.specs.List.{list_any};
ghost use Rattle.std.specs.Ordering.{int_eq};
ghost use Rattle.std.specs.Str.{bytes_eq};
ghost use Rattle.rbc_line.specs.DraftViews.{centre_view, section_view, train_view, file_view};
ghost use Rattle.rbc_line.specs.Faults.{is_outside, is_name, has_twice, is_centre_name, HasSectionsFault};
ghost use Rattle.rbc_line.specs.Faults.{has_length_fault, has_number_fault, has_twice_fault, has_home_fault};

use crate::draft::{Draft, DraftCentre, DraftSection, DraftTrain};
use crate::limits::{is_name, is_outside};
use std::alloc::{AllocError, Global};
use std::collections::HashSet;

fn has_section(sections: &[DraftSection], track: usize) -> bool
    ensures { result ≡ list_any (λ s. s.track == track) (map section_view sections.now) }
{
    sections.iter().any(|section| section.track == track)
}

/// A track without a section, or more than 512 in all.
#[tactic(auto, unfolding(crate::specs::Faults::HasSectionsFault))]
pub(crate) fn has_sections_fault(draft: &Draft) -> bool
    ensures { IsTrue result ↔ HasSectionsFault (file_view draft.now) }
{
    for k in 0..draft.tracks.names.len() {
        if !has_section(&draft.tracks.sections, k) {
            return true;
        }
    }
    draft.tracks.sections.len() > 512
}

/// A length that is not 100 to 2 000.
#[tactic(auto, unfolding(crate::specs::Faults::has_length_fault))]
pub(crate) fn has_length_fault(draft: &Draft) -> bool
    ensures { result ≡ has_length_fault (file_view draft.now) }
{
    draft
        .tracks
        .sections
        .iter()
        .any(|section| is_outside(100, 2000, section.metres))
}

fn has_centre_number_fault(centres: &[DraftCentre]) -> bool
    ensures { result ≡ list_any (λ c. is_outside 0 16382 c.nid_rbc || not (is_name c.name))
        (map centre_view centres.now) }
{
    centres.iter().any(|centre| is_outside(0, 16382, centre.nid_rbc) || !is_name(centre.name))
}

fn has_track_name_fault(names: &[&str]) -> bool
    ensures { result ≡ list_any (λ name. not (is_name name)) (map (λ name. name.now) names.now) }
{
    names.iter().any(|name| !is_name(name))
}

fn has_balise_fault(sections: &[DraftSection]) -> bool
    ensures { result ≡ list_any (λ s. is_outside 0 16382 s.balise) (map section_view sections.now) }
{
    sections
        .iter()
        .any(|section| is_outside(0, 16382, section.balise))
}

fn has_engine_fault(trains: &[DraftTrain]) -> bool
    ensures { result ≡ list_any (λ t. is_outside 0 16777215 t.engine) (map train_view trains.now) }
{
    trains
        .iter()
        .any(|train| is_outside(0, 16777215, train.engine))
}

/// A number out of its range, or a name of a centre or track of a bad form.
#[tactic(auto, unfolding(crate::specs::Faults::has_number_fault))]
pub(crate) fn has_number_fault(draft: &Draft) -> bool
    ensures { result ≡ has_number_fault (file_view draft.now) }
{
    is_outside(0, 1023, draft.nid_c)
        || has_centre_number_fault(&draft.centres)
        || has_track_name_fault(&draft.tracks.names)
        || has_balise_fault(&draft.tracks.sections)
        || has_engine_fault(&draft.trains)
}

fn is_among(name: &str, names: &[&str]) -> bool
    ensures { result ≡ list_any (bytes_eq name.now) (map (λ other. other.now) names.now) }
{
    names.iter().any(|other| name == *other)
}

/// One of the names occurs again after itself. There are few.
fn has_name_twice(names: &[&str]) -> bool
    ensures { result ≡ has_twice bytes_eq (map (λ name. name.now) names.now) }
{
    for (i, name) in names.iter().enumerate() {
        if is_among(name, &names[i + 1..]) {
            return true;
        }
    }
    false
}

/// One of the numbers occurs again after itself.
fn has_number_twice(alloc: Global, numbers: &[i64]) -> Result<bool, AllocError>
    ensures { IfOk result (λ found. found ≡ has_twice int_eq numbers.now) }
{
    let mut seen = HashSet::new(alloc);
    for number in numbers {
        if !seen.insert(*number)? {
            return Ok(true);
        }
    }
    Ok(false)
}

fn centre_names<'a>(alloc: Global, centres: &[DraftCentre<'a>]) -> Result<Vec<&'a str>, AllocError>
    ensures { IfOk result (λ v. v.items ≡ map (λ c. c.name) centres.now) }
{
    centres.iter().map(|centre| centre.name).collect(alloc)
}

fn nid_rbcs(alloc: Global, centres: &[DraftCentre]) -> Result<Vec<i64>, AllocError>
    ensures { IfOk result (λ v. v.items ≡ map (λ c. c.nid_rbc) centres.now) }
{
    centres.iter().map(|centre| centre.nid_rbc).collect(alloc)
}

fn balises(alloc: Global, sections: &[DraftSection]) -> Result<Vec<i64>, AllocError>
    ensures { IfOk result (λ v. v.items ≡ map (λ s. s.balise) sections.now) }
{
    sections.iter().map(|section| section.balise).collect(alloc)
}

fn engines(alloc: Global, trains: &[DraftTrain]) -> Result<Vec<i64>, AllocError>
    ensures { IfOk result (λ v. v.items ≡ map (λ t. t.engine) trains.now) }
{
    trains.iter().map(|train| train.engine).collect(alloc)
}

/// Whether a value that must be unique occurs twice.
pub(crate) fn has_twice_fault(alloc: Global, draft: &Draft) -> Result<bool, AllocError>
    ensures { IfOk result (λ found. found ≡ has_twice_fault (file_view draft.now)) }
{
    let names = centre_names(alloc, &draft.centres)?;
    let nid_rbcs = nid_rbcs(alloc, &draft.centres)?;
    let balises = balises(alloc, &draft.tracks.sections)?;
    let engines = engines(alloc, &draft.trains)?;
    let by_centre_name = has_name_twice(&names);
    let by_track_name = has_name_twice(&draft.tracks.names);
    let by_nid_rbc = has_number_twice(alloc, &nid_rbcs)?;
    let by_balise = has_number_twice(alloc, &balises)?;
    let by_engine = has_number_twice(alloc, &engines)?;
    Ok(by_centre_name | by_track_name | by_nid_rbc | by_balise | by_engine)
}

/// The name is that of a centre.
fn is_centre_name(centres: &[DraftCentre], name: &str) -> bool
    ensures { result ≡ list_any (λ c. bytes_eq c.name name.now) (map centre_view centres.now) }
{
    centres.iter().any(|centre| centre.name == name)
}

fn has_foreign_home(centres: &[DraftCentre], sections: &[DraftSection]) -> bool
    ensures { result ≡ list_any (λ s. not (list_any (λ c. bytes_eq c.name s.home) (map centre_view centres.now)))
        (map section_view sections.now) }
{
    sections
        .iter()
        .any(|section| !is_centre_name(centres, section.home))
}

fn has_foreign_registrar(centres: &[DraftCentre], trains: &[DraftTrain]) -> bool
    ensures { result ≡ list_any (λ t. not (list_any (λ c. bytes_eq c.name t.registrar) (map centre_view centres.now)))
        (map train_view trains.now) }
{
    trains
        .iter()
        .any(|train| !is_centre_name(centres, train.registrar))
}

/// A home or a registrar that names no centre.
#[tactic(auto, unfolding(crate::specs::Faults::has_home_fault))]
pub(crate) fn has_home_fault(draft: &Draft) -> bool
    ensures { result ≡ has_home_fault (file_view draft.now) }
{
    has_foreign_home(&draft.centres, &draft.tracks.sections)
        || has_foreign_registrar(&draft.centres, &draft.trains)
}
