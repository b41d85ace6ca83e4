//! Draws the page: its layers in order, and the place of each part.

ghost use Rattle.std.specs.Prelude.{◌≡◌, OnOk};
ghost use Rattle.cli_picture.specs.Titles.{count_text};
ghost use Rattle.cli_picture.specs.Texts.{Draws};

use crate::bars::draw_bars;
use crate::events::draw_events;
use crate::fronts::draw_fronts;
use crate::grid::{draw_grid, draw_homes};
use crate::legend::{draw_legend, legend_rows};
use crate::marks::draw_marks;
use crate::run::Run;
use crate::scale::{Scale, WIDTH};
use crate::seats::draw_seats;
use crate::style::STYLE;
use std::alloc::{AllocError, Global};
use text_page::Utc;

// The upper edge of the legend, the height of one of its lines, and the height of the axis between it and the events.
const LEGEND: u64 = 72;

const ROW: u64 = 18;

const AXIS: u64 = 76;

// The words below the title of a text without events.
const NO_EVENT: &str =
    "No line of the text begins with an event of a print: is it a script or a line file?";

/// Draws the whole diagram of a run.
pub fn draw(alloc: Global, run: &Run<'_>) -> Result<String, AllocError> {
    let axis = LEGEND.saturating_add(ROW.saturating_mul(legend_rows(run)));
    let scale = Scale {
        line: run.line,
        top: axis.saturating_add(AXIS),
        event_count: run.events.len(),
        axis: run.axis,
    };
    let mut svg = String::new(alloc);
    begin(&mut svg, &scale)?;
    draw_title(&mut svg, run)?;
    draw_legend(&mut svg, run, LEGEND, ROW)?;
    draw_homes(&mut svg, &scale, axis)?;
    draw_events(alloc, &mut svg, &scale, run)?;
    draw_grid(&mut svg, &scale, axis)?;
    draw_trains(alloc, &mut svg, &scale, run)?;
    svg.push_str("</svg>\n")?;
    Ok(svg)
}

/// Draws the marks of the trains.
fn draw_trains(
    alloc: Global,
    svg: &mut String,
    scale: &Scale<'_>,
    run: &Run<'_>,
) -> Result<(), AllocError> {
    draw_bars(alloc, svg, scale, run)?;
    draw_fronts(alloc, svg, scale, run)?;
    draw_seats(svg, scale, run)?;
    draw_marks(svg, scale, run)
}

fn begin(svg: &mut String, scale: &Scale<'_>) -> Result<(), AllocError> {
    let height = scale.bottom().saturating_add(24);
    let width = WIDTH;
    writeln!(
        svg,
        "<svg xmlns=\"http://www.w3.org/2000/svg\" width=\"{width}\" height=\"{height}\" \
        viewBox=\"0 0 {width} {height}\" font-family=\"sans-serif\" font-size=\"13\">\n\
        <style>\n{STYLE}</style>\n\
        <rect width=\"{width}\" height=\"{height}\" fill=\"#fff\"/>"
    )
}

fn draw_title(svg: &mut String, run: &Run<'_>) -> Result<(), AllocError> {
    let nid_c = run.line.nid_c();
    write!(
        svg,
        "<text x=\"20\" y=\"28\" font-size=\"18\" font-weight=\"bold\">Run on the line of NID_C {nid_c}: "
    )?;
    draw_count(svg, run)?;
    svg.push_str("</text>\n<text x=\"20\" y=\"48\" class=\"small\">")?;
    draw_axes(svg, run)?;
    svg.push_str("</text>\n")
}

/// Writes which events are drawn. Over time they have no numbers.
fn draw_count(svg: &mut String, run: &Run<'_>) -> Result<(), AllocError>
    ensures { OnOk result (Draws svg.old svg.new (count_text run.now)) }
{
    let drawn = run.drawn();
    let all = run.event_count;
    if drawn >= all {
        write!(svg, "{drawn} events")
    } else if run.axis.is_some() {
        write!(svg, "{drawn} of {all} events")
    } else {
        let first = run.number(0);
        let last = run.skipped.saturating_add(drawn);
        write!(svg, "events {first} to {last} of {all}")
    }
}

/// Writes the meaning of the two axes.
fn draw_axes(svg: &mut String, run: &Run<'_>) -> Result<(), AllocError> {
    let Some(axis) = &run.axis else {
        return svg.push_str(if run.event_count == 0 {
            NO_EVENT
        } else {
            "Distance to the right, events downward"
        });
    };
    let from = Utc(axis.from_ms);
    let to = Utc(axis.to_ms);
    write!(
        svg,
        "Distance to the right, time downward, from {from} to {to}"
    )
}
