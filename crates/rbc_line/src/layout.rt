ghost use Rattle.std.specs.Prelude.{◌≡◌, ◌+◌, ◌<◌, ◌≤◌, ◌==◌, length, option_map, slice_get, IfSome, IfOk, position};
ghost use Rattle.std.specs.Str.{bytes_eq};
ghost use Rattle.rbc_spec.specs.Line.{IsLine, is_home, section_of_group, train_number, registrar, is_linked};
ghost use Rattle.rbc_spec.specs.Line.{next_centre};
ghost use Rattle.rbc_line.specs.Views.{placed_section, listed_train};

use crate::guesses::Guesses;
use crate::parts::{Rows, Section, Train};
use crate::tables::{engine_guesses_of, group_guesses_of, groups_of, next_centres_of, nid_lrbg_of};
use std::alloc::{AllocError, Global};
use std::collections::HashMap;
use std::marker::Model;

/// The line that the centres supervise: every rule of a line holds of it.
#[derive(Drop)]
pub struct Line {
    rows: Rows,
    groups: HashMap<u32, u16>,
    group_guesses: Guesses,
    engine_guesses: Guesses,
    next_centres: [Option<u8>; 32],
}

impl Model for Line {
    ghost use Rattle.rbc_spec.specs.Line.{Line as LineData};
    ghost use Rattle.rbc_line.specs.Views.{line_of_rows};
    ghost use Rattle.rbc_line.specs.Tables.{IsTabled};

    ghost Value = { LineData };

    ghost view = { λ l. line_of_rows l.rows };

    ghost invariant = { λ l. IsTabled (line_of_rows l.rows) l.rows.sections.items l.groups l.next_centres };
}

impl Line {
    ghost use Rattle.rbc_line.specs.Tables.{HasStarts, HasNextCentres};
    ghost use Rattle.rbc_line.specs.Views.{line_of_rows};

    /// The line of these lists, with its look-up tables.
    pub(crate) fn with_tables(alloc: Global, rows: Rows) -> Result<Line, AllocError>
        requires line { IsLine (line_of_rows rows) }
        requires starts { HasStarts (line_of_rows rows) rows.sections.items }
        ensures { IfOk result (λ line. line ≡ line_of_rows rows) }
    {
        let next_centres = next_centres_of(&rows);
        Line::with_centre_tables(alloc, rows, next_centres)
    }

    /// The line of these lists, after the tables of its centres were made.
    fn with_centre_tables(
        alloc: Global,
        rows: Rows,
        next_centres: [Option<u8>; 32],
    ) -> Result<Line, AllocError>
        requires line { IsLine (line_of_rows rows) }
        requires starts { HasStarts (line_of_rows rows) rows.sections.items }
        requires nexts { HasNextCentres (line_of_rows rows) next_centres }
        ensures { IfOk result (λ line. line ≡ line_of_rows rows) }
    {
        let groups = groups_of(alloc, rows.nid_c, &rows.sections)?;
        let group_guesses = group_guesses_of(alloc, &rows.sections)?;
        let engine_guesses = engine_guesses_of(alloc, &rows.trains)?;
        Ok(Line {
            rows,
            groups,
            group_guesses,
            engine_guesses,
            next_centres,
        })
    }

    /// A copy, equal to this line.
    pub fn copied(&self, alloc: Global) -> Result<Line, AllocError>
        ensures value { IfOk result (λ line. line ≡ self.now) }
        ensures line { IfOk result IsLine }
    {
        let rows = self.rows.copied(alloc)?;
        Line::with_centre_tables(alloc, rows, self.next_centres)
    }

    /// The country or region that the line's balise groups belong to (NID_C).
    pub fn nid_c(&self) -> u16
        ensures value { result ≡ self.now.nid_c }
        ensures line { IsLine self.now }
    {
        self.rows.nid_c
    }

    /// How many centres the line has, 2 to 8. They are numbered from 0.
    pub fn centre_count(&self) -> u8
        ensures value { result ≡ length self.now.centres }
        ensures line { IsLine self.now }
    {
        self.rows.centres.len() as u8
    }

    /// How many tracks the line has, 1 to 4. They are numbered from 0.
    pub fn track_count(&self) -> u8
        ensures value { result ≡ length self.now.tracks }
        ensures line { IsLine self.now }
    {
        self.rows.tracks.len() as u8
    }

    /// How many sections the line has, 1 to 512. They are numbered from 0, over all tracks.
    pub fn section_count(&self) -> u16
        ensures value { result ≡ length self.now.sections }
        ensures line { IsLine self.now }
    {
        self.rows.sections.len() as u16
    }

    /// How many trains the line file lists, 1 to 64.
    pub fn train_count(&self) -> u8
        ensures value { result ≡ length self.now.trains }
        ensures line { IsLine self.now }
    {
        self.rows.trains.len() as u8
    }

    /// The name of a centre.
    pub fn centre_name(&self, c: u8) -> Option<&str>
        ensures { option_map (λ name. name.now) result
            ≡ option_map (λ p. p.name) (slice_get self.now.centres c) }
    {
        self.rows
            .centres
            .get(c as usize)
            .map(|centre| centre.name.as_str())
    }

    /// The centre of this name.
    pub fn centre_named(&self, name: &str) -> Option<u8>
        ensures { result ≡ position (λ p. bytes_eq p.name name.now) self.now.centres }
    {
        let c = self
            .rows
            .centres
            .iter()
            .position(|centre| centre.name.as_str() == name)?;
        Some(c as u8)
    }

    /// The NID_RBC of a centre.
    pub fn nid_rbc(&self, c: u8) -> Option<u16>
        ensures { result ≡ option_map (λ p. p.nid_rbc) (slice_get self.now.centres c) }
    {
        self.rows
            .centres
            .get(c as usize)
            .map(|centre| centre.nid_rbc)
    }

    /// The name of a track.
    pub fn track_name(&self, track: u8) -> Option<&str>
        ensures { option_map (λ name. name.now) result ≡ slice_get self.now.tracks track }
    {
        self.rows
            .tracks
            .get(track as usize)
            .map(|name| name.as_str())
    }

    /// The section of this number.
    pub fn section(&self, s: u16) -> Option<Section>
        ensures value { result ≡ placed_section self.now s }
        ensures bound { IfSome result (λ p. p.start + p.metres ≤ 1024000) }
        ensures line { IsLine self.now }
    {
        item(&self.rows.sections, s as usize)
    }

    /// Whether the section is of the line, and its home is this centre.
    pub fn is_home(&self, c: u8, s: u16) -> bool
        ensures { result ≡ is_home self.now c s }
    {
        match self.rows.sections.get(s as usize) {
            Some(section) => section.home == c,
            None => false,
        }
    }

    /// The section whose balise group has this NID_LRBG.
    #[inline(always)]
    pub fn section_of_group(&self, nid_lrbg: u32) -> Option<u16>
        ensures value { result ≡ section_of_group self.now nid_lrbg }
        ensures bound { IfSome result (λ s. s < length self.now.sections) }
    {
        let rows = &self.rows;
        let guess = self.group_guesses.of(nid_lrbg);
        match rows.sections.get(guess as usize) {
            Some(section) if nid_lrbg_of(rows.nid_c, section.balise) == nid_lrbg => Some(guess),
            _ => self.mapped_section(nid_lrbg),
        }
    }

    /// The section whose balise group has this NID_LRBG, if the guess fails.
    #[inline(never)]
    fn mapped_section(&self, nid_lrbg: u32) -> Option<u16>
        ensures { result ≡ section_of_group self.now nid_lrbg }
    {
        self.groups.get(&nid_lrbg).copied()
    }

    /// The place of a train in the line file, from 0; none for a foreign engine.
    #[inline(always)]
    pub fn train_number(&self, nid_engine: u32) -> Option<u8>
        ensures value { result ≡ train_number self.now nid_engine }
        ensures bound { IfSome result (λ i. i < length self.now.trains) }
    {
        let guess = self.engine_guesses.of(nid_engine);
        match self.rows.trains.get(guess as usize) {
            Some(train) if train.nid_engine == nid_engine => Some(guess as u8),
            _ => self.listed_number(nid_engine),
        }
    }

    /// The position of a train in the line file, if the guess fails.
    #[inline(never)]
    fn listed_number(&self, nid_engine: u32) -> Option<u8>
        ensures { result ≡ train_number self.now nid_engine }
    {
        let i = self
            .rows
            .trains
            .iter()
            .position(|train| train.nid_engine == nid_engine)?;
        Some(i as u8)
    }

    /// The train at this place of the line file.
    pub fn train(&self, i: u8) -> Option<Train>
        ensures { result ≡ listed_train self.now i }
    {
        item(&self.rows.trains, i as usize)
    }

    /// The centre at which the train's supervision right is registered.
    pub fn registrar(&self, nid_engine: u32) -> Option<u8>
        ensures { result ≡ registrar self.now nid_engine }
    {
        let i = self.train_number(nid_engine)?;
        let train = self.train(i)?;
        Some(train.registrar)
    }

    /// Whether two centres exchange frames: any two of the line do.
    pub fn linked(&self, a: u8, b: u8) -> bool
        ensures { result ≡ is_linked self.now a b }
    {
        a < self.centre_count() && b < self.centre_count() && a != b
    }

    /// The centre that follows this one on a track.
    pub fn next_centre(&self, c: u8, track: u8) -> Option<u8>
        ensures { result ≡ next_centre self.now c track }
    {
        if c >= self.centre_count() || track >= self.track_count() {
            return None;
        }
        self.next_centres[c as usize * 4 + track as usize]
    }
}

/// The item at this place.
fn item<T: Copy + Drop>(items: &[T], i: usize) -> Option<T>
    ensures { result ≡ slice_get items.now i }
{
    items.get(i).copied()
}
