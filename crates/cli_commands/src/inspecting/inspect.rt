//! Walks through the tables of a line file once, and notes all faults, table by table.

ghost use Rattle.std.specs.Prelude.{OnOk};
ghost use Rattle.cli_commands.specs.Inspecting.Notes.{Grows};

use crate::inspecting::finding::{Counted, Finding, Flaw, Place};
use crate::inspecting::homes::Homes;
use crate::inspecting::inspection::{Inspection, first_place};
use std::alloc::{AllocError, Global};
use toml::value::Array;
use toml::{Table, Value};

/// Finds all faults in the tables of a text as a line file, in the order of the walk: within a table its keys, then
/// its content. A value that is missing or of another type is not tested further.
pub fn cases_in(alloc: Global, table: &Table) -> Result<Vec<Finding<'_>>, AllocError> {
    let mut inspection = Inspection::new(alloc);
    inspection.file(alloc, table)?;
    Ok(inspection.findings)
}

impl<'a> Inspection<'a> {
    #[tactic(auto, using(crate::proofs::InspectingLemmas::grown))]
    fn file(&mut self, alloc: Global, table: &'a Table) -> Result<(), AllocError>
        ensures grows { OnOk result (Grows self.old self.new) }
    {
        let file = Place::File;
        self.keys(file, table, &["nid_c", "centre", "track", "train"])?;
        self.number(file, table, "nid_c", 1023)?;
        self.centres(table)?;
        self.tracks(alloc, table)?;
        self.trains(table)
    }

    #[tactic(auto, using(crate::proofs::InspectingLemmas::grown))]
    fn centres(&mut self, file: &'a Table) -> Result<(), AllocError>
        ensures grows { OnOk result (Grows self.old self.new) }
    {
        let Some(centres) = self.array(Place::File, file, "centre")? else {
            return Ok(());
        };
        self.has_centres = true;
        self.count(Counted::Centres, centres.len())?;
        for (number, centre) in centres.iter().enumerate() {
            self.centre(number, centre)?;
        }
        Ok(())
    }

    #[tactic(auto, using(crate::proofs::InspectingLemmas::grown))]
    fn centre(&mut self, number: usize, centre: &'a Value) -> Result<(), AllocError>
        ensures grows { OnOk result (Grows self.old self.new) }
    {
        let name = name_in(centre);
        let place = Place::Centre { number, name };
        match self.table(place, centre, &["name", "nid_rbc"])? {
            Some(table) => self.centre_table(place, table),
            None => Ok(()),
        }
    }

    #[tactic(auto, using(crate::proofs::InspectingLemmas::grown))]
    fn centre_table(&mut self, place: Place<'a>, table: &'a Table) -> Result<(), AllocError>
        ensures grows { OnOk result (Grows self.old self.new) }
    {
        self.own_name(place, table)?;
        self.own_number(place, table, "nid_rbc", 16382)
    }

    /// The name of a centre, which no other centre has.
    #[tactic(auto, using(crate::proofs::InspectingLemmas::grown))]
    fn own_name(&mut self, place: Place<'a>, table: &'a Table) -> Result<(), AllocError>
        ensures grows { OnOk result (Grows self.old self.new) }
    {
        if let Some(name) = self.name(place, table)? {
            let first = first_place(&mut self.centre_names, name, place)?;
            self.note_twice(place, name, first)?;
        }
        Ok(())
    }

    /// Notes a name that appeared before, at the first place.
    #[tactic(auto, using(crate::proofs::InspectingLemmas::grown))]
    fn note_twice(
        &mut self,
        place: Place<'a>,
        name: &'a str,
        first: Option<Place<'a>>,
    ) -> Result<(), AllocError>
        ensures grows { OnOk result (Grows self.old self.new) }
    {
        match first {
            Some(first) => self.note(place, Flaw::NameTwice { name, first }),
            None => Ok(()),
        }
    }

    #[tactic(auto, using(crate::proofs::InspectingLemmas::grown))]
    fn tracks(&mut self, alloc: Global, file: &'a Table) -> Result<(), AllocError>
        ensures grows { OnOk result (Grows self.old self.new) }
    {
        let Some(tracks) = self.array(Place::File, file, "track")? else {
            return Ok(());
        };
        self.count(Counted::Tracks, tracks.len())?;
        let mut sections = 0;
        for (number, track) in tracks.iter().enumerate() {
            sections = self.track(alloc, number, sections, track)?;
        }
        // A track without a section is a finding of the track.
        if sections > 0 {
            self.count(Counted::Sections, sections)?;
        }
        Ok(())
    }

    /// Tests a track whose first section has this number. Returns the number of the section after the track.
    #[tactic(auto, using(crate::proofs::InspectingLemmas::grown))]
    fn track(
        &mut self,
        alloc: Global,
        number: usize,
        sections: usize,
        track: &'a Value,
    ) -> Result<usize, AllocError>
        ensures grows { OnOk result (Grows self.old self.new) }
    {
        let place = Place::Track {
            number,
            name: name_in(track),
        };
        let Some(table) = self.table(place, track, &["name", "section"])? else {
            return Ok(sections);
        };
        let name = self.track_name(place, table)?;
        match self.track_sections(place, table)? {
            Some(items) => self.sections(alloc, name, sections, items),
            None => Ok(sections),
        }
    }

    /// The sections of a track. It must have one.
    #[tactic(auto, using(crate::proofs::InspectingLemmas::grown))]
    fn track_sections(
        &mut self,
        place: Place<'a>,
        table: &'a Table,
    ) -> Result<Option<&'a Array>, AllocError>
        ensures grows { OnOk result (Grows self.old self.new) }
    {
        let sections = self.array(place, table, "section")?;
        if let Some(items) = sections
            && items.is_empty()
        {
            self.note(place, Flaw::Empty)?;
        }
        Ok(sections)
    }

    #[tactic(auto, using(crate::proofs::InspectingLemmas::grown))]
    fn track_name(
        &mut self,
        place: Place<'a>,
        table: &'a Table,
    ) -> Result<Option<&'a str>, AllocError>
        ensures grows { OnOk result (Grows self.old self.new) }
    {
        let name = self.name(place, table)?;
        if let Some(name) = name {
            let first = first_place(&mut self.track_names, name, place)?;
            self.note_twice(place, name, first)?;
        }
        Ok(name)
    }

    #[tactic(auto, using(crate::proofs::InspectingLemmas::grown))]
    fn sections(
        &mut self,
        alloc: Global,
        track: Option<&'a str>,
        first: usize,
        sections: &'a Array,
    ) -> Result<usize, AllocError>
        ensures grows { OnOk result (Grows self.old self.new) }
    {
        let mut number = first;
        let mut homes = Homes::new(alloc);
        for section in sections {
            self.section_of_track(Place::Section { number, track }, section, &mut homes)?;
            number = number.saturating_add(1);
        }
        Ok(number)
    }

    /// Tests a section after those with these homes on its track.
    #[tactic(auto, using(crate::proofs::InspectingLemmas::grown))]
    fn section_of_track(
        &mut self,
        place: Place<'a>,
        section: &'a Value,
        homes: &mut Homes<'a>,
    ) -> Result<(), AllocError>
        ensures grows { OnOk result (Grows self.old self.new) }
    {
        if let Some(home) = self.section(place, section)?
            && homes.comes_again(home)?
        {
            self.note(place, Flaw::Order { home })?;
        }
        Ok(())
    }

    /// Tests a section. Returns its home, if it has one.
    #[tactic(auto, using(crate::proofs::InspectingLemmas::grown))]
    fn section(
        &mut self,
        place: Place<'a>,
        section: &'a Value,
    ) -> Result<Option<&'a str>, AllocError>
        ensures grows { OnOk result (Grows self.old self.new) }
    {
        let Some(table) = self.table(place, section, &["length", "home", "balise"])? else {
            return Ok(None);
        };
        self.length(place, table)?;
        let home = self.centre_name(place, table, "home")?;
        self.own_number(place, table, "balise", 16382)?;
        Ok(home)
    }

    #[tactic(auto, using(crate::proofs::InspectingLemmas::grown))]
    fn trains(&mut self, file: &'a Table) -> Result<(), AllocError>
        ensures grows { OnOk result (Grows self.old self.new) }
    {
        let Some(trains) = self.array(Place::File, file, "train")? else {
            return Ok(());
        };
        self.count(Counted::Trains, trains.len())?;
        for (number, train) in trains.iter().enumerate() {
            self.train(number, train)?;
        }
        Ok(())
    }

    #[tactic(auto, using(crate::proofs::InspectingLemmas::grown))]
    fn train(&mut self, number: usize, train: &'a Value) -> Result<(), AllocError>
        ensures grows { OnOk result (Grows self.old self.new) }
    {
        let engine = engine_in(train);
        let place = Place::Train { number, engine };
        let Some(table) = self.table(place, train, &["engine", "registrar"])? else {
            return Ok(());
        };
        self.own_number(place, table, "engine", 16777215)?;
        self.centre_name(place, table, "registrar")?;
        Ok(())
    }

    /// The name of a centre of the file.
    #[tactic(auto, using(crate::proofs::InspectingLemmas::grown))]
    fn centre_name(
        &mut self,
        place: Place<'a>,
        table: &'a Table,
        key: &'static str,
    ) -> Result<Option<&'a str>, AllocError>
        ensures grows { OnOk result (Grows self.old self.new) }
    {
        let text = self.text(place, table, key)?;
        if let Some(name) = text {
            if self.has_centres && !self.centre_names.contains_key(name) {
                self.note(place, Flaw::Home { key, name })?;
            }
        }
        Ok(text)
    }
}

/// The name in a table, which helps to find the place.
fn name_in(value: &Value) -> Option<&str> {
    value.as_table()?.get("name")?.as_str()
}

/// The engine in a table, which helps to find the place.
fn engine_in(value: &Value) -> Option<i64> {
    value.as_table()?.get("engine")?.as_integer()
}
