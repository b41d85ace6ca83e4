//! The findings in a line file so far, and the tests of one table.

ghost use Rattle.std.specs.Prelude.{[], ◌≡◌, ◌∷◌, codes, if◌then◌else◌, IfOk, MatchOption, OnOk, option_map};
ghost use Rattle.rbc_line.specs.LineFile.{at as value_of};
ghost use Rattle.toml.specs.Data.{as_array, as_integer, as_str};
ghost use Rattle.toml.specs.View.{array_view, table_view, view};
ghost use Rattle.cli_commands.specs.Inspecting.Findings.{limits};
ghost use Rattle.cli_commands.specs.Inspecting.Notes.{Adds, AddsLack, Grows, value_at};
ghost use Rattle.cli_commands.specs.declared.inspecting.finding.Flaw.TheVariants as flaw;
ghost use Rattle.cli_commands.specs.declared.inspecting.finding.Place.TheVariants as at;
ghost use Rattle.rbc_line.specs.Faults.{has_count_fault, is_name, is_outside};

use crate::inspecting::finding::{Counted, Finding, Flaw, Place};
use rbc_line::limits::{has_count_fault, is_name, is_outside};
use std::alloc::{AllocError, Global};
use std::collections::HashMap;
use std::hash::Hash;
use toml::value::Array;
use toml::{Table, Value};

/// The findings so far, and the place of each value that must be unique.
#[derive(Drop)]
pub(crate) struct Inspection<'a> {
    pub(crate) findings: Vec<Finding<'a>>,
    /// The file has a list of centres, so that homes and registrars can be sought there.
    pub(crate) has_centres: bool,
    pub(crate) centre_names: HashMap<&'a str, Place<'a>>,
    pub(crate) track_names: HashMap<&'a str, Place<'a>>,
    /// The numbers that must be unique, each with its key.
    numbers: HashMap<(&'static str, i64), Place<'a>>,
}

impl<'a> Inspection<'a> {
    pub(crate) fn new(alloc: Global) -> Inspection<'a>
        ensures { result.findings.items ≡ [] }
    {
        Inspection {
            findings: Vec::new(alloc),
            has_centres: false,
            centre_names: HashMap::new(alloc),
            track_names: HashMap::new(alloc),
            numbers: HashMap::new(alloc),
        }
    }

    pub(crate) fn note(&mut self, place: Place<'a>, flaw: Flaw<'a>) -> Result<(), AllocError>
        ensures { OnOk result (Adds self.old self.new (record { place = place.entry; flaw = flaw.entry } ∷ [])) }
    {
        self.findings.push(Finding { place, flaw })?;
        Ok(())
    }

    /// The table that is required at this place, with no keys other than these.
    #[tactic(auto, using(crate::proofs::InspectingLemmas::grown))]
    pub(crate) fn table(
        &mut self,
        place: Place<'a>,
        value: &'a Value,
        keys: &[&'a str],
    ) -> Result<Option<&'a Table>, AllocError>
        ensures grows { OnOk result (Grows self.old self.new) }
    {
        let Some(table) = value.as_table() else {
            let found = value.type_str();
            self.note(place, Flaw::NoTable { found })?;
            return Ok(None);
        };
        self.keys(place, table, keys)?;
        Ok(Some(table))
    }

    /// Notes the keys of a table other than these.
    #[tactic(auto, using(crate::proofs::InspectingLemmas::grown))]
    pub(crate) fn keys(
        &mut self,
        place: Place<'a>,
        table: &'a Table,
        keys: &[&'a str],
    ) -> Result<(), AllocError>
        ensures grows { OnOk result (Grows self.old self.new) }
    {
        for key in table.keys() {
            let key = key.as_str();
            if !keys.contains(&key) {
                self.note(place, Flaw::Unknown { key })?;
            }
        }
        Ok(())
    }

    /// The value of a required key, of this type.
    fn value(
        &mut self,
        place: Place<'a>,
        table: &'a Table,
        key: &'static str,
        wanted: &'static str,
    ) -> Result<Option<&'a Value>, AllocError>
        ensures value { IfOk result (λ value. option_map (λ v. view v.now) value
            ≡ value_at wanted.now key.now (table_view table.now)) }
        ensures noted { IfOk result (λ value. MatchOption value
            (AddsLack self.old self.new place.entry key.now wanted.now) (λ _. Adds self.old self.new [])) }
    {
        let flaw = match table.get(key) {
            Some(value) if value.type_str() == wanted => return Ok(Some(value)),
            Some(value) => {
                let found = value.type_str();
                Flaw::OtherType { key, wanted, found }
            }
            None => Flaw::Missing { key },
        };
        self.note(place, flaw)?;
        Ok(None)
    }

    fn integer(
        &mut self,
        place: Place<'a>,
        table: &'a Table,
        key: &'static str,
    ) -> Result<Option<i64>, AllocError>
        ensures value { IfOk result (λ number. number ≡ value_of as_integer key.now (table_view table.now)) }
        ensures noted { IfOk result (λ number. MatchOption number
            (AddsLack self.old self.new place.entry key.now (codes "integer")) (λ _. Adds self.old self.new [])) }
    {
        match self.value(place, table, key, "integer")? {
            Some(value) => Ok(value.as_integer()),
            None => Ok(None),
        }
    }

    pub(crate) fn text(
        &mut self,
        place: Place<'a>,
        table: &'a Table,
        key: &'static str,
    ) -> Result<Option<&'a str>, AllocError>
        ensures value { IfOk result
            (λ text. option_map (λ t. t.now) text ≡ value_of as_str key.now (table_view table.now)) }
        ensures noted { IfOk result (λ text. MatchOption text
            (AddsLack self.old self.new place.entry key.now (codes "string")) (λ _. Adds self.old self.new [])) }
    {
        match self.value(place, table, key, "string")? {
            Some(value) => Ok(value.as_str()),
            None => Ok(None),
        }
    }

    pub(crate) fn array(
        &mut self,
        place: Place<'a>,
        table: &'a Table,
        key: &'static str,
    ) -> Result<Option<&'a Array>, AllocError>
        ensures value { IfOk result (λ array. option_map (λ a. array_view a.now) array
            ≡ value_of as_array key.now (table_view table.now)) }
        ensures noted { IfOk result (λ array. MatchOption array
            (AddsLack self.old self.new place.entry key.now (codes "array")) (λ _. Adds self.old self.new [])) }
    {
        match self.value(place, table, key, "array")? {
            Some(value) => Ok(value.as_array()),
            None => Ok(None),
        }
    }

    /// A number from 0 to the highest.
    pub(crate) fn number(
        &mut self,
        place: Place<'a>,
        table: &'a Table,
        key: &'static str,
        highest: u32,
    ) -> Result<Option<i64>, AllocError>
        ensures value { IfOk result (λ number. number ≡ value_of as_integer key.now (table_view table.now)) }
        ensures noted { IfOk result (λ number. MatchOption number
            (AddsLack self.old self.new place.entry key.now (codes "integer")) (λ value. Adds self.old self.new
            (if is_outside 0 highest value
            then record { place = place.entry; flaw = flaw.Number key.entry value highest } ∷ [] else []))) }
    {
        let number = self.integer(place, table, key)?;
        if let Some(value) = number {
            if is_outside(0, highest, value) {
                self.note(
                    place,
                    Flaw::Number {
                        key,
                        value,
                        highest,
                    },
                )?;
            }
        }
        Ok(number)
    }

    /// A number from 0 to the highest that is unique for this key.
    #[tactic(auto, using(crate::proofs::InspectingLemmas::grown))]
    pub(crate) fn own_number(
        &mut self,
        place: Place<'a>,
        table: &'a Table,
        key: &'static str,
        highest: u32,
    ) -> Result<(), AllocError>
        ensures grows { OnOk result (Grows self.old self.new) }
    {
        if let Some(value) = self.number(place, table, key, highest)? {
            if let Some(first) = first_place(&mut self.numbers, (key, value), place)? {
                self.note(place, Flaw::NumberTwice { key, value, first })?;
            }
        }
        Ok(())
    }

    /// The name of a centre or a track.
    pub(crate) fn name(
        &mut self,
        place: Place<'a>,
        table: &'a Table,
    ) -> Result<Option<&'a str>, AllocError>
        ensures value { IfOk result
            (λ text. option_map (λ t. t.now) text ≡ value_of as_str (codes "name") (table_view table.now)) }
        ensures noted { IfOk result (λ text. MatchOption text
            (AddsLack self.old self.new place.entry (codes "name") (codes "string")) (λ name. Adds self.old self.new
            (if is_name name.now then [] else record { place = place.entry; flaw = flaw.Name name } ∷ []))) }
    {
        let text = self.text(place, table, "name")?;
        if let Some(name) = text {
            if !is_name(name) {
                self.note(place, Flaw::Name { name })?;
            }
        }
        Ok(text)
    }

    /// The length of a section.
    pub(crate) fn length(&mut self, place: Place<'a>, table: &'a Table) -> Result<(), AllocError>
        ensures { OnOk result (MatchOption (value_of as_integer (codes "length") (table_view table.now))
            (AddsLack self.old self.new place.entry (codes "length") (codes "integer"))
            (λ metres. Adds self.old self.new (if is_outside 100 2000 metres
            then record { place = place.entry; flaw = flaw.Length metres } ∷ [] else []))) }
    {
        if let Some(metres) = self.integer(place, table, "length")? {
            if is_outside(100, 2000, metres) {
                self.note(place, Flaw::Length { metres })?;
            }
        }
        Ok(())
    }

    pub(crate) fn count(&mut self, counted: Counted, count: usize) -> Result<(), AllocError>
        ensures { OnOk result (Adds self.old self.new
            (if has_count_fault (limits counted).0 (limits counted).1 count
            then record { place = at.File; flaw = flaw.Count counted count } ∷ [] else [])) }
    {
        let (low, high) = counted.limits();
        if has_count_fault(low, high, count) {
            self.note(Place::File, Flaw::Count { counted, count })?;
        }
        Ok(())
    }
}

/// The first place of the value in the file, if the value appeared before. The place of a new value is kept.
pub(crate) fn first_place<'a, K: Copy + Drop + Eq + Hash>(
    places: &mut HashMap<K, Place<'a>>,
    key: K,
    place: Place<'a>,
) -> Result<Option<Place<'a>>, AllocError> {
    let first = places.get(&key).copied();
    if first.is_none() {
        places.insert(key, place)?;
    }
    Ok(first)
}
