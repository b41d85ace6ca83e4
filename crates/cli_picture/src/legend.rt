//! Explains the colours and signs.

ghost use Rattle.std.specs.Fmt.{decimal};
ghost use Rattle.std.specs.Prelude.{◌++◌, codes, OnOk};
ghost use Rattle.cli_picture.specs.Texts.{Draws, legend_box, small_text};

use crate::marks::{Sign, shape_of};
use crate::run::{Run, nid_engine_of};
use crate::style::{colour_of, dashes_of};
use rbc_line::Line;
use std::alloc::AllocError;

// The signs, each with its place and its meaning.
static SIGNS: [(Sign, u64, &str); 5] = [
    (Sign::Asked, 338, "9: asked to end earlier"),
    (Sign::Granted, 492, "137: does so"),
    (Sign::Dropped, 592, "the request ends so"),
    (Sign::Handover, 762, "24: handover ordered"),
    (Sign::Ended, 912, "mission ends"),
];

// The looks with a box of their own, each with its place and its meaning.
static LOOKS: [(&str, u64, &str); 4] = [
    ("bar kept", 20, "kept for it"),
    ("bar wished", 130, "wished back"),
    ("wait", 238, "start that waits"),
    ("way", 370, "on the way: nobody supervises it"),
];

// The distance of entries, and the number of entries on a line.
const STEP: u64 = 145;

const IN_ROW: u64 = 8;

// The lines of signs.
const SIGN_ROWS: u64 = 2;

/// The number of lines of the legend: those of the signs, and those of the drawn trains.
pub fn legend_rows(run: &Run<'_>) -> u64 {
    let mut count: u64 = 0;
    for train in 0..run.line.train_count() {
        if shows(run, train) {
            count = count.saturating_add(1);
        }
    }
    count.div_ceil(IN_ROW).saturating_add(SIGN_ROWS)
}

pub fn draw_legend(svg: &mut String, run: &Run<'_>, top: u64, row: u64) -> Result<(), AllocError> {
    draw_signs(svg, top)?;
    draw_looks(svg, top.saturating_add(row))?;
    let mut place: u64 = 0;
    for train in 0..run.line.train_count() {
        if shows(run, train) {
            let x = (place % IN_ROW).saturating_mul(STEP).saturating_add(20);
            let rows = (place / IN_ROW).saturating_add(SIGN_ROWS);
            let y = rows.saturating_mul(row).saturating_add(top);
            draw_train(svg, run.line, train, x, y)?;
            place = place.saturating_add(1);
        }
    }
    Ok(())
}

/// Whether the diagram shows a train.
fn shows(run: &Run<'_>, train: u8) -> bool {
    if !run.wants(train) {
        return false;
    }
    let nid_engine = nid_engine_of(run.line, train);
    let missions = run.missions.of(train.into());
    let has_mission = missions.iter().any(|turn| turn.value.is_some());
    let has_report = (0..run.events.len()).any(|e| run.report(e, train).is_some());
    has_mission || has_report || run.sections.names(nid_engine)
}

/// Draws a train's number, beside a bar and a front in its colour.
fn draw_train(svg: &mut String, line: &Line, train: u8, x: u64, y: u64) -> Result<(), AllocError> {
    let colour = colour_of(train);
    let dashes = dashes_of(train);
    writeln!(
        svg,
        "<g class=\"c{colour} d{dashes}\" transform=\"translate({x} {y})\"><rect class=\"bar\" y=\"-9\" width=\"22\" height=\"10\"/><path class=\"front\" d=\"M2 -7L20 -1\"/></g>"
    )?;
    draw_engine(svg, nid_engine_of(line, train), x.saturating_add(28), y)
}

fn draw_engine(svg: &mut String, nid_engine: u32, x: u64, y: u64) -> Result<(), AllocError>
    ensures { OnOk result (Draws svg.old svg.new (small_text x y (codes "train " ++ decimal nid_engine))) }
{
    writeln!(
        svg,
        "<text x=\"{x}\" y=\"{y}\" class=\"small\">train {nid_engine}</text>"
    )
}

fn draw_signs(svg: &mut String, y: u64) -> Result<(), AllocError> {
    writeln!(
        svg,
        "<rect class=\"bar\" x=\"20\" y=\"{y}\" width=\"22\" height=\"10\" transform=\"translate(0 -9)\"/><text x=\"48\" y=\"{y}\" class=\"small\">sections in its authority</text>"
    )?;
    writeln!(
        svg,
        "<path class=\"band\" d=\"M196 {y}m0 -2h22\"/><path class=\"front\" d=\"M196 {y}m0 -8l22 6\"/><text x=\"224\" y=\"{y}\" class=\"small\">place it reported</text>"
    )?;
    for (sign, x, words) in &SIGNS {
        draw_sign(svg, *sign, *x, y, words)?;
    }
    writeln!(
        svg,
        "<path class=\"border\" d=\"M1036 {y}m0 -4h28\"/><text x=\"1070\" y=\"{y}\" class=\"small\">border of centres</text>"
    )
}

/// Draws a box of this class, and its meaning.
fn draw_look(svg: &mut String, class: &str, x: u64, y: u64, words: &str) -> Result<(), AllocError>
    ensures { OnOk result (Draws svg.old svg.new (legend_box class.now x y words.now)) }
{
    write!(
        svg,
        "<rect class=\"{class}\" x=\"{x}\" y=\"{y}\" width=\"22\" height=\"10\" transform=\"translate(0 -9)\"/>"
    )?;
    draw_words(svg, x.saturating_add(28), y, words)
}

/// Draws the looks of kept or wished sections, of waiting starts, and of supervision.
fn draw_looks(svg: &mut String, y: u64) -> Result<(), AllocError> {
    for (class, x, words) in &LOOKS {
        draw_look(svg, class, *x, y, words)?;
    }
    write!(
        svg,
        "<g class=\"seat\"><circle cx=\"604\" cy=\"{y}\" r=\"4\"/><text x=\"604\" y=\"{y}\" dx=\"7\" dy=\"4\">A</text></g>"
    )?;
    draw_words(svg, 630, y, "A supervises it from here on")?;
    write!(
        svg,
        "<g class=\"seat old\"><circle cx=\"816\" cy=\"{y}\" r=\"4\"/></g>"
    )?;
    write!(
        svg,
        "<rect class=\"way old\" x=\"828\" y=\"{y}\" width=\"22\" height=\"10\" transform=\"translate(0 -9)\"/>"
    )?;
    draw_words(
        svg,
        856,
        y,
        "these at the place in its mission: it reported a later one",
    )
}

fn draw_sign(svg: &mut String, sign: Sign, x: u64, y: u64, words: &str) -> Result<(), AllocError> {
    let (class, path) = shape_of(sign);
    write!(svg, "<path class=\"{class}\" d=\"M{x} {y}m0 -3{path}\"/>")?;
    draw_words(svg, x.saturating_add(14), y, words)
}

/// Writes small words at a place.
pub fn draw_words(svg: &mut String, x: u64, y: u64, words: &str) -> Result<(), AllocError>
    ensures { OnOk result (Draws svg.old svg.new (small_text x y words.now)) }
{
    writeln!(
        svg,
        "<text x=\"{x}\" y=\"{y}\" class=\"small\">{words}</text>"
    )
}
