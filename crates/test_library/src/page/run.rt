//! The contents of the page of a print.

use crate::page::line::{layout, now};
use crate::page::wanted::{Want, unmet};
use rbc_world::{Mark, SectionView};
use std::alloc::{AllocError, Global};
use std::test::*;
use text_page::{Changes, Layout, LineNow, Part, RunSheet};

// The page of the last two of seven events, after which the line is in the state `now`. Section 2 is kept from event 6
// on, and is wished back. The mission of train 19 and its session with A end with event 7.
fn page(alloc: Global) -> Result<String, AllocError> {
    let layout = layout(alloc)?;
    let now = now(alloc)?;
    page_of(alloc, &layout, &now)
}

fn page_of(alloc: Global, layout: &Layout, now: &LineNow) -> Result<String, AllocError> {
    let mut sheet = RunSheet::new(alloc, layout)?;
    add_changes(&mut sheet)?;
    add_ends(&mut sheet, layout)?;
    let part = Part {
        first: 6,
        last: 7,
        all: 7,
        marked: Some(19),
    };
    sheet.page(alloc, layout, part, now)
}

fn add_changes(sheet: &mut RunSheet) -> Result<(), AllocError> {
    sheet.begin(Changes::Events)?;
    sheet.add_event(6, "</script><b>\"A\"</b>")?;
    sheet.end()?;
    sheet.begin(Changes::Sections)?;
    let mark = Mark::Kept { nid_engine: 19 };
    let is_wished = true;
    sheet.add_section(6, 2, SectionView { mark, is_wished })?;
    sheet.end()
}

fn add_ends(sheet: &mut RunSheet, layout: &Layout) -> Result<(), AllocError> {
    sheet.begin(Changes::Missions)?;
    sheet.add_mission(layout, 7, 19, None)?;
    sheet.end()?;
    sheet.begin(Changes::Sessions)?;
    sheet.add_session(layout, 7, 19, 0, None)?;
    sheet.end()
}

static ROWS: [Want<'_>; 6] = [
    Want::Has("{\"nid_c\":7,\"first\":6,\"last\":7,\"of\":7,\"train\":19,\n"),
    Want::Has("[6,\"\\u003c/script>\\u003cb> A \\u003c/b>\"]"),
    Want::Has("[6,2,\"kept\",19,1]"),
    Want::Has("[7,19,null,null,null,null,null,null,null,null,null,null,null]"),
    Want::Has("[7,19,\"A\",null]"),
    Want::Parts("</script>", 3),
];

#[test]
fn each_change_is_a_row_and_no_event_ends_its_element(rt: HostRuntime) -> Result<(), Fail> {
    let text = page(rt.alloc())?;
    assert!(rt; unmet(text.as_str(), &ROWS)? == None);
    Ok(())
}
