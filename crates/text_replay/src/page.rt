//! The page of a print.

use crate::cut::Cut;
use crate::events::{events_in, train_in};
use crate::layout::layout_of;
use crate::played::{Played, play};
use crate::shown::session_of;
use crate::turns::Turn;
use rbc_line::Line;
use std::alloc::{AllocError, Global};
use text_page::{Changes, EventNow, Layout, LineNow, Part, RunSheet};
use text_script::status::Fault;
use text_script::{LineView, WorldEvent};

/// The greatest number of events that are shown.
const MOST_EVENTS: usize = 10_000;

/// The number of last events that are shown in words if no script runs.
const TOLD: usize = 24;

/// Makes the page of a print: the line before the first event of the cut and after each, with a slider. Only the
/// lines that begin with `> ` are read. Errors: the cut names a train that is not of the line, or no event; a line
/// has no form of a script; a step is refused.
pub fn page_of(
    alloc: Global,
    line: &Line,
    printed: &str,
    cut: Cut,
) -> Result<String, Fault<'static>> {
    train_in(line, cut.train)?;
    let events = events_in(alloc, line, printed)?;
    let (first, after) = cut
        .places(events.len())
        .ok_or(Fault::NoEvents(events.len()))?;
    let after = after.min(first.saturating_add(MOST_EVENTS));
    let part = Part {
        first: (first as u64).saturating_add(1),
        last: after as u64,
        all: events.len() as u64,
        marked: cut.train,
    };
    let shown = events.get(..after).unwrap_or(&events);
    page_of_part(alloc, line, shown, first, part)
}

// Makes the page of the events from the first one on.
fn page_of_part(
    alloc: Global,
    line: &Line,
    events: &[WorldEvent],
    first: usize,
    part: Part,
) -> Result<String, Fault<'static>> {
    let run = play(alloc, line, events, first)?;
    Ok(written(alloc, line, part, &run)?)
}

fn written(alloc: Global, line: &Line, part: Part, run: &Played) -> Result<String, AllocError> {
    let layout = layout_of(alloc, line, Vec::new(alloc))?;
    let sheet = sheet_of(alloc, line, &layout, part.first, run)?;
    finished(alloc, sheet, &layout, part, run)
}

// Writes the changes, table by table.
fn sheet_of(
    alloc: Global,
    line: &Line,
    layout: &Layout,
    first: u64,
    run: &Played,
) -> Result<RunSheet, AllocError> {
    let mut sheet = RunSheet::new(alloc, layout)?;
    add_tables(alloc, &mut sheet, line, layout, first, run)?;
    Ok(sheet)
}

fn add_tables(
    alloc: Global,
    sheet: &mut RunSheet,
    line: &Line,
    layout: &Layout,
    first: u64,
    run: &Played,
) -> Result<(), AllocError> {
    let before = first.saturating_sub(1);
    add_events(sheet, first, run)?;
    add_sections(alloc, sheet, line, before, run)?;
    add_missions(sheet, layout, line, before, run)?;
    add_sessions(sheet, layout, line, before, run)
}

// Finishes the page, with the last state of the line.
fn finished(
    alloc: Global,
    sheet: RunSheet,
    layout: &Layout,
    part: Part,
    run: &Played,
) -> Result<String, AllocError> {
    let now = last_of(alloc, part, run)?;
    sheet.page(alloc, layout, part, &now)
}

// The number of an event, by its place after the one of the number `first`.
fn number(first: u64, place: usize) -> u64 {
    first.saturating_add(place as u64)
}

fn add_events(sheet: &mut RunSheet, first: u64, run: &Played) -> Result<(), AllocError> {
    sheet.begin(Changes::Events)?;
    for (e, words) in run.words.iter().enumerate() {
        sheet.add_event(number(first, e), words.as_str())?;
    }
    sheet.end()
}

fn add_sections(
    alloc: Global,
    sheet: &mut RunSheet,
    line: &Line,
    before: u64,
    run: &Played,
) -> Result<(), AllocError> {
    let states = run.words.len().saturating_add(1);
    sheet.begin(Changes::Sections)?;
    for section in 0..line.section_count() {
        for stretch in run.sections.stretches(alloc, section, states)? {
            let event = number(before, stretch.since);
            sheet.add_section(event, section, stretch.seen)?;
        }
    }
    sheet.end()
}

fn add_missions(
    sheet: &mut RunSheet,
    layout: &Layout,
    line: &Line,
    before: u64,
    run: &Played,
) -> Result<(), AllocError> {
    sheet.begin(Changes::Missions)?;
    for train in 0..line.train_count() {
        for turn in told(run.missions.of(train as usize)) {
            let event = number(before, turn.since);
            let nid_engine = nid_engine_of(line, train);
            sheet.add_mission(layout, event, nid_engine, turn.value.as_ref())?;
        }
    }
    sheet.end()
}

// The turns that are shown: nothing is shown of a thing before it first is.
fn told<T>(turns: &[Turn<Option<T>>]) -> &[Turn<Option<T>>] {
    match turns {
        [first, rest @ ..] if first.value.is_none() => rest,
        _ => turns,
    }
}

fn nid_engine_of(line: &Line, train: u8) -> u32 {
    match line.train(train) {
        Some(train) => train.nid_engine,
        None => 0,
    }
}

fn add_sessions(
    sheet: &mut RunSheet,
    layout: &Layout,
    line: &Line,
    before: u64,
    run: &Played,
) -> Result<(), AllocError> {
    sheet.begin(Changes::Sessions)?;
    let centres = line.centre_count();
    for train in 0..line.train_count() {
        let first = usize::from(train).saturating_mul(centres.into());
        for centre in 0..centres {
            for turn in told(run.sessions.of(first.saturating_add(centre.into()))) {
                let event = number(before, turn.since);
                let nid_engine = nid_engine_of(line, train);
                sheet.add_session(layout, event, nid_engine, centre, turn.value.as_ref())?;
            }
        }
    }
    sheet.end()
}

// The line after the last event, with the last events in words.
fn last_of(alloc: Global, part: Part, run: &Played) -> Result<LineNow, AllocError> {
    let mut now = LineNow {
        events: part.last,
        is_stopped: false,
        sections: Vec::new(alloc),
        missions: Vec::new(alloc),
        sessions: Vec::new(alloc),
        centres: Vec::new(alloc),
        links: Vec::new(alloc),
        true_places: Vec::new(alloc),
        last: Vec::new(alloc),
    };
    add_last(alloc, &mut now, part.first, run)?;
    Ok(now)
}

fn add_last(alloc: Global, now: &mut LineNow, first: u64, run: &Played) -> Result<(), AllocError> {
    add_view(now, &run.last)?;
    for train in 0..run.last.trains.len() {
        let mission = run.missions.at(train, run.words.len());
        now.missions.push(mission.flatten())?;
    }
    for (e, words) in run.words.iter().enumerate().rev().take(TOLD) {
        let event = number(first, e);
        now.last.push(EventNow {
            time_ms: None,
            words: format!(in alloc; "{event} · {words}")?,
        })?;
    }
    Ok(())
}

// Adds the sections and the sessions of a view.
fn add_view(now: &mut LineNow, view: &LineView) -> Result<(), AllocError> {
    now.sections.extend_from_slice(&view.sections)?;
    for (train, seen) in view.trains.iter().enumerate() {
        for centre in 0..seen.sessions.len() {
            if let Some(session) = session_of(view, train, centre) {
                now.sessions.push(session)?;
            }
        }
    }
    Ok(())
}
