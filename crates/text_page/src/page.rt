//! The page of a running line, and the data that its script requests.

use crate::draw::DRAW;
use crate::follow::FOLLOW;
use crate::rows::{add_now, name_of};
use crate::sections::add_places;
use crate::sheet::{Form, Sheet};
use crate::style::{HEAD, REFRESH, STYLE};
use crate::view::{Layout, LineNow};
use std::alloc::{AllocError, Global};

/// Writes the data that do not change while the centres run.
pub fn line_json(alloc: Global, layout: &Layout) -> Result<String, AllocError> {
    let mut sheet = Sheet::new(alloc, Form::Json);
    add_line(&mut sheet, layout)?;
    let nid_c = layout.nid_c;
    let rest = sheet.into_text();
    format!(in alloc; "{{\"nid_c\":{nid_c}{rest}}}\n")
}

/// Writes the data of the line that do not change.
pub(crate) fn add_line(sheet: &mut Sheet, layout: &Layout) -> Result<(), AllocError> {
    add_names(sheet, "tracks", "track", &layout.tracks)?;
    add_names(sheet, "centres", "centre", &layout.centres)?;
    add_places(sheet, layout)
}

fn add_names(
    sheet: &mut Sheet,
    table: &str,
    column: &str,
    names: &[String],
) -> Result<(), AllocError> {
    sheet.begin(table, &[column])?;
    for number in 0..names.len() {
        sheet.row(&[name_of(names, number)])?;
    }
    sheet.end()
}

/// Writes the current state and its version. The version changes whenever the state changes.
pub fn now_json(
    alloc: Global,
    layout: &Layout,
    now: &LineNow,
    version: u64,
) -> Result<String, AllocError> {
    let mut sheet = Sheet::new(alloc, Form::Json);
    add_now(&mut sheet, layout, now)?;
    let events = now.events;
    let stopped = now.is_stopped;
    let rest = sheet.into_text();
    format!(in alloc; "{{\"version\":{version},\"events\":{events},\"stopped\":{stopped}{rest}}}\n")
}

/// Writes the whole page, which loads nothing from elsewhere. Once a second its script requests the data and draws
/// them. Without a script, the page shows the tables and reloads itself every two seconds.
pub fn live_page(alloc: Global, layout: &Layout, now: &LineNow) -> Result<String, AllocError> {
    let mut sheet = Sheet::new(alloc, Form::Html);
    add_now(&mut sheet, layout, now)?;
    let nid_c = layout.nid_c;
    let events = now.events;
    let tables = sheet.into_text();
    format!(in alloc;
        "{HEAD}Line of NID_C {nid_c}{REFRESH}{STYLE}<h1>Line of NID_C {nid_c}</h1><p id=\"lost\" role=\"alert\"></p></header><main><p>{events} events so far. Each centre is shown at a moment of its own.</p>{tables}</main><script>{DRAW}{FOLLOW}</script></body></html>\n"
    )
}
