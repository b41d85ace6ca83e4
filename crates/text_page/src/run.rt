//! The page of a print: the line after each of its events, in one file that loads nothing.

use crate::draw::DRAW;
use crate::page::add_line;
use crate::replay::REPLAY;
use crate::rows::{MISSION, add_last, add_state, cells_of, name_of, number_of, words_of};
use crate::sections::state_of;
use crate::sheet::{Cell, Form, Sheet};
use crate::style::{HEAD, SEALED, SLIDER, STYLE};
use crate::view::{Layout, LineNow, MissionNow, SessionNow};
use rbc_book::SectionView;
use std::alloc::{AllocError, Global};

/// The events that a page shows, by their numbers from 1. The line before the first event is shown too.
#[derive(Clone, Copy)]
pub struct Part {
    pub first: u64,
    /// The last event. If no event is shown, it is `first - 1`.
    pub last: u64,
    /// The number of events of the whole run.
    pub all: u64,
    /// The NID_ENGINE of the marked train, if there is one.
    pub marked: Option<u32>,
}

/// The changes of a run. A line of a table holds from its event on, until the next line of the same section, train or
/// session.
#[derive(Clone, Copy)]
pub enum Changes {
    /// The events themselves.
    Events,
    Sections,
    Missions,
    Sessions,
}

/// The changes of a run, table by table.
#[derive(Drop)]
pub struct RunSheet {
    sheet: Sheet,
}

impl RunSheet {
    /// Starts with the line and no changes.
    pub fn new(alloc: Global, layout: &Layout) -> Result<RunSheet, AllocError> {
        let mut sheet = Sheet::new(alloc, Form::Json);
        add_line(&mut sheet, layout)?;
        Ok(RunSheet { sheet })
    }

    /// Begins a table.
    pub fn begin(&mut self, changes: Changes) -> Result<(), AllocError> {
        match changes {
            Changes::Events => self.sheet.begin_at("events", &["words"]),
            Changes::Sections => {
                self.sheet
                    .begin_at("states", &["section", "state", "train", "wished"])
            }
            Changes::Missions => self.sheet.begin_at("missions", &MISSION),
            Changes::Sessions => self.sheet.begin_at("phases", &["train", "centre", "state"]),
        }
    }

    /// Ends a table.
    pub fn end(&mut self) -> Result<(), AllocError> {
        self.sheet.end()
    }

    /// Adds an event, in words.
    pub fn add_event(&mut self, event: u64, words: &str) -> Result<(), AllocError> {
        self.sheet.row_at(event, &[Cell::Text(words)])
    }

    /// Adds the state of a section from an event on.
    pub fn add_section(
        &mut self,
        event: u64,
        section: u16,
        seen: SectionView,
    ) -> Result<(), AllocError> {
        let [state, train, wished] = state_of(seen);
        let number = Cell::Number(u64::from(section));
        self.sheet.row_at(event, &[number, state, train, wished])
    }

    /// Adds the mission of a train from an event on, or that it has none.
    pub fn add_mission(
        &mut self,
        layout: &Layout,
        event: u64,
        nid_engine: u32,
        mission: Option<&MissionNow>,
    ) -> Result<(), AllocError> {
        match mission {
            Some(mission) => self.sheet.row_at(event, &cells_of(layout, mission)),
            None => {
                let mut cells = [Cell::Nothing; 12];
                cells[0] = Cell::Number(u64::from(nid_engine));
                self.sheet.row_at(event, &cells)
            }
        }
    }

    /// Adds a centre's session with a train from an event on, or that there is none.
    pub fn add_session(
        &mut self,
        layout: &Layout,
        event: u64,
        nid_engine: u32,
        centre: u8,
        session: Option<&SessionNow>,
    ) -> Result<(), AllocError> {
        let state = match session {
            Some(session) => words_of(session),
            None => Cell::Nothing,
        };
        let centre = name_of(&layout.centres, centre as usize);
        self.sheet
            .row_at(event, &[number_of(Some(nid_engine)), centre, state])
    }

    /// Finishes the page. It shows the last state of the line if no script runs.
    pub fn page(
        self,
        alloc: Global,
        layout: &Layout,
        part: Part,
        now: &LineNow,
    ) -> Result<String, AllocError> {
        let mut sheet = Sheet::new(alloc, Form::Html);
        add_state(&mut sheet, layout, now)?;
        add_last(&mut sheet, now)?;
        let tables = sheet.into_text();
        let head = head_of(alloc, layout, part)?;
        let Part { last, all, .. } = part;
        let nid_c = layout.nid_c;
        let rest = self.sheet.into_text();
        format!(in alloc;
            "{HEAD}Run on the line of NID_C {nid_c}{SEALED}{STYLE}<h1>Run on the line of NID_C {nid_c}</h1><p id=\"lost\"></p></header>{SLIDER}<main><p>After event {last} of {all}.</p>{tables}</main><script type=\"application/json\" id=\"run\">{head}{rest}}}</script><script>{DRAW}{REPLAY}</script></body></html>\n"
        )
    }
}

// The text before the tables of a run.
fn head_of(alloc: Global, layout: &Layout, part: Part) -> Result<String, AllocError> {
    let nid_c = layout.nid_c;
    let Part {
        first,
        last,
        all,
        ..
    } = part;
    let mut head = format!(in alloc;
        "{{\"nid_c\":{nid_c},\"first\":{first},\"last\":{last},\"of\":{all},\"train\":"
    )?;
    match part.marked {
        Some(nid_engine) => write!(head, "{nid_engine}")?,
        None => head.push_str("null")?,
    }
    Ok(head)
}
