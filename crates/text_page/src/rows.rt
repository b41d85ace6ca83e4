//! The current state, as tables.

ghost use Rattle.std.specs.List.{list_any};
ghost use Rattle.std.specs.Prelude.{◌≡◌, is_some};
ghost use Rattle.text_page.specs.Cells.{time_cell};

use crate::sections::add_sections;
use crate::sheet::{Cell, Sheet};
use crate::view::{EventNow, Layout, LineNow, MissionNow, SessionNow};
use rbc_line::SectionRun;
use rbc_session::Phase;
use std::alloc::AllocError;

/// Writes the whole current state.
pub(crate) fn add_now(sheet: &mut Sheet, layout: &Layout, now: &LineNow) -> Result<(), AllocError> {
    add_state(sheet, layout, now)?;
    add_centres(sheet, layout, now)?;
    add_links(sheet, layout, now)?;
    add_true_places(sheet, layout, now)?;
    add_last(sheet, now)
}

/// Writes the trains, the sections and the sessions.
pub(crate) fn add_state(
    sheet: &mut Sheet,
    layout: &Layout,
    now: &LineNow,
) -> Result<(), AllocError> {
    add_missions(sheet, layout, now)?;
    add_sections(sheet, layout, now)?;
    add_sessions(sheet, layout, now)
}

/// The name with this number, or nothing.
pub(crate) fn name_of(names: &[String], number: usize) -> Cell<'_> {
    match names.get(number) {
        Some(name) => Cell::Text(name.as_str()),
        None => Cell::Nothing,
    }
}

/// This number, or nothing.
pub(crate) fn number_of(number: Option<u32>) -> Cell<'static> {
    match number {
        Some(number) => Cell::Number(u64::from(number)),
        None => Cell::Nothing,
    }
}

/// The columns of a mission.
pub(crate) static MISSION: [&str; 12] = [
    "train",
    "supervisor",
    "handover_to",
    "track",
    "rear_m",
    "front_m",
    "first",
    "last",
    "lent_first",
    "lent_last",
    "asked_to_keep",
    "ended",
];

fn add_missions(sheet: &mut Sheet, layout: &Layout, now: &LineNow) -> Result<(), AllocError> {
    sheet.begin("trains", &MISSION)?;
    for mission in now.missions.iter() {
        if let Some(mission) = mission {
            sheet.row(&cells_of(layout, mission))?;
        }
    }
    sheet.end()
}

/// The cells of a mission, by the columns of `MISSION`.
pub(crate) fn cells_of<'a>(layout: &'a Layout, mission: &MissionNow) -> [Cell<'a>; 12] {
    let [first, last] = ends_of(mission.hand);
    let [lent_first, lent_last] = ends_of(mission.pool);
    [
        Cell::Number(u64::from(mission.nid_engine)),
        centre_of(layout, mission.supervisor),
        centre_of(layout, mission.handover),
        name_of(&layout.tracks, mission.track as usize),
        match mission.rear {
            Some(rear) => Cell::Tenths(u64::from(rear)),
            None => Cell::Nothing,
        },
        Cell::Tenths(u64::from(mission.front)),
        first,
        last,
        lent_first,
        lent_last,
        section(mission.asked),
        Cell::Flag(mission.is_ended),
    ]
}

// The name of a centre, or nothing.
fn centre_of(layout: &Layout, centre: Option<u8>) -> Cell<'_> {
    match centre {
        Some(centre) => name_of(&layout.centres, centre as usize),
        None => Cell::Nothing,
    }
}

// The first and the last section, if there are any.
fn ends_of(run: SectionRun) -> [Cell<'static>; 2] {
    match last_of(run) {
        Some(last) => [section(Some(run.first)), section(Some(last))],
        None => [Cell::Nothing; 2],
    }
}

// The last section, if there is one.
fn last_of(run: SectionRun) -> Option<u16> {
    run.first.checked_add(run.count.checked_sub(1)?)
}

fn section(number: Option<u16>) -> Cell<'static> {
    match number {
        Some(number) => Cell::Number(u64::from(number)),
        None => Cell::Nothing,
    }
}

fn add_sessions(sheet: &mut Sheet, layout: &Layout, now: &LineNow) -> Result<(), AllocError> {
    sheet.begin("sessions", &["train", "centre", "state"])?;
    for session in now.sessions.iter() {
        sheet.row(&[
            Cell::Number(u64::from(session.nid_engine)),
            name_of(&layout.centres, session.centre as usize),
            words_of(session),
        ])?;
    }
    sheet.end()
}

/// The phase of a session in words, or nothing if there is none.
pub(crate) fn words_of(session: &SessionNow) -> Cell<'static> {
    match session.phase {
        _ if session.is_waiting => Cell::Text("start waits"),
        Phase::Closed => Cell::Nothing,
        Phase::Opened => Cell::Text("opened"),
        Phase::Up => Cell::Text("up"),
    }
}

static CENTRE: [&str; 7] = [
    "centre",
    "port",
    "entries",
    "clock",
    "connections",
    "seats",
    "stuck",
];

fn add_centres(sheet: &mut Sheet, layout: &Layout, now: &LineNow) -> Result<(), AllocError> {
    sheet.begin("centres", &CENTRE)?;
    for (number, centre) in now.centres.iter().enumerate() {
        sheet.row(&[
            name_of(&layout.centres, number),
            match layout.ports.get(number) {
                Some(port) => Cell::Number(u64::from(*port)),
                None => Cell::Nothing,
            },
            Cell::Number(centre.entries),
            Cell::Number(u64::from(centre.clock)),
            Cell::Number(centre.taken),
            Cell::Number(centre.seats),
            Cell::Flag(centre.is_stuck),
        ])?;
    }
    sheet.end()
}

fn add_links(sheet: &mut Sheet, layout: &Layout, now: &LineNow) -> Result<(), AllocError> {
    sheet.begin("links", &["from", "to", "sent", "taken"])?;
    for link in now.links.iter() {
        sheet.row(&[
            name_of(&layout.centres, link.from as usize),
            name_of(&layout.centres, link.to as usize),
            Cell::Number(u64::from(link.sent)),
            Cell::Number(u64::from(link.taken)),
        ])?;
    }
    sheet.end()
}

// Writes the true places of trains, if there are any.
fn add_true_places(sheet: &mut Sheet, layout: &Layout, now: &LineNow) -> Result<(), AllocError> {
    if now.true_places.is_empty() {
        return Ok(());
    }
    sheet.begin("true_places", &["train", "track", "rear_m", "front_m"])?;
    for place in now.true_places.iter() {
        sheet.row(&[
            Cell::Number(u64::from(place.nid_engine)),
            name_of(&layout.tracks, place.track as usize),
            Cell::Tenths(u64::from(place.rear)),
            Cell::Tenths(u64::from(place.front)),
        ])?;
    }
    sheet.end()
}

/// Writes the last events. Their times are a column if one is known.
pub(crate) fn add_last(sheet: &mut Sheet, now: &LineNow) -> Result<(), AllocError> {
    if has_times(&now.last) {
        return add_timed(sheet, &now.last);
    }
    sheet.begin("last", &["event"])?;
    for event in now.last.iter() {
        sheet.row(&[Cell::Text(event.words.as_str())])?;
    }
    sheet.end()
}

// Whether the time of an event is known.
fn has_times(events: &[EventNow]) -> bool
    ensures { result ≡ list_any (λ event. is_some event.time_ms) events.now }
{
    events.iter().any(|event| event.time_ms.is_some())
}

fn add_timed(sheet: &mut Sheet, events: &[EventNow]) -> Result<(), AllocError> {
    sheet.begin("last", &["event", "time"])?;
    for event in events {
        let words = Cell::Text(event.words.as_str());
        sheet.row(&[words, time_of(event.time_ms)])?;
    }
    sheet.end()
}

// This time, or nothing.
fn time_of(time_ms: Option<u64>) -> Cell<'static>
    ensures { result ≡ time_cell time_ms }
{
    match time_ms {
        Some(time_ms) => Cell::Time(time_ms),
        None => Cell::Nothing,
    }
}
