//! The sections. Consecutive sections of the same look are one line of the table.

ghost use Rattle.std.specs.Prelude.{◌≡◌};
ghost use Rattle.text_page.specs.Sections.{mark_word, user_of};

use crate::rows::{name_of, number_of};
use crate::sheet::{Cell, Sheet};
use crate::view::{Layout, LineNow};
use rbc_book::{Mark, SectionView};
use std::alloc::AllocError;

/// Consecutive sections of the same look.
#[derive(Clone, Copy)]
struct Stretch {
    first: usize,
    last: usize,
    start: u64,
    end: u64,
    look: Look,
}

/// The common data of the sections of one stretch.
#[derive(Clone, Copy, PartialEq, Eq)]
struct Look {
    track: u8,
    home: u8,
    seen: SectionView,
}

static COLUMNS: [&str; 9] = [
    "first", "last", "track", "from_m", "to_m", "home", "state", "train", "wished",
];

/// Writes all sections.
pub(crate) fn add_sections(
    sheet: &mut Sheet,
    layout: &Layout,
    now: &LineNow,
) -> Result<(), AllocError> {
    sheet.begin("sections", &COLUMNS)?;
    let mut held: Option<Stretch> = None;
    for s in 0..layout.sections.len() {
        if let Some(next) = stretch_at(layout, now, s) {
            held = match held {
                Some(stretch) if stretch.look == next.look => Some(Stretch {
                    last: next.last,
                    end: next.end,
                    ..stretch
                }),
                other => {
                    add_stretch(sheet, layout, other)?;
                    Some(next)
                }
            };
        }
    }
    add_stretch(sheet, layout, held)?;
    sheet.end()
}

// One section.
fn stretch_at(layout: &Layout, now: &LineNow, s: usize) -> Option<Stretch> {
    let section = layout.sections.get(s)?;
    let seen = *now.sections.get(s)?;
    let start = u64::from(section.start);
    Some(Stretch {
        first: s,
        last: s,
        start,
        end: start + u64::from(section.metres),
        look: Look {
            track: section.track,
            home: section.home,
            seen,
        },
    })
}

fn add_stretch(
    sheet: &mut Sheet,
    layout: &Layout,
    stretch: Option<Stretch>,
) -> Result<(), AllocError> {
    let Some(stretch) = stretch else {
        return Ok(());
    };
    let look = stretch.look;
    let [state, train, wished] = state_of(look.seen);
    sheet.row(&[
        Cell::Number(stretch.first as u64),
        Cell::Number(stretch.last as u64),
        name_of(&layout.tracks, look.track as usize),
        Cell::Number(stretch.start),
        Cell::Number(stretch.end),
        name_of(&layout.centres, look.home as usize),
        state,
        train,
        wished,
    ])
}

/// The use of a section, the train that uses it, and whether it is wished back.
pub(crate) fn state_of(seen: SectionView) -> [Cell<'static>; 3] {
    [
        Cell::Text(word_of(seen.mark)),
        number_of(user_of(seen.mark)),
        Cell::Flag(seen.is_wished),
    ]
}

// The train that uses the section, if one does.
fn user_of(mark: Mark) -> Option<u32>
    ensures { result ≡ user_of mark }
{
    match mark {
        Mark::Shut | Mark::Open => None,
        Mark::Kept { nid_engine } | Mark::Given { nid_engine } => Some(nid_engine),
    }
}

/// The word for the use of a section.
pub(crate) fn word_of(mark: Mark) -> &'static str
    ensures { result.now ≡ mark_word mark }
{
    match mark {
        Mark::Shut => "shut",
        Mark::Open => "open",
        Mark::Kept { .. } => "kept",
        Mark::Given { .. } => "given",
    }
}

/// Writes the place of each section.
pub(crate) fn add_places(sheet: &mut Sheet, layout: &Layout) -> Result<(), AllocError> {
    sheet.begin("sections", &["section", "track", "from_m", "to_m", "home"])?;
    for (s, section) in layout.sections.iter().enumerate() {
        let start = u64::from(section.start);
        sheet.row(&[
            Cell::Number(s as u64),
            name_of(&layout.tracks, section.track as usize),
            Cell::Number(start),
            Cell::Number(start + u64::from(section.metres)),
            name_of(&layout.centres, section.home as usize),
        ])?;
    }
    sheet.end()
}
