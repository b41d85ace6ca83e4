//! Draws the events, with their numbers and descriptions, as far as there is room.

ghost use Rattle.std.specs.Prelude.{◌≡◌, codes, OnOk};
ghost use Rattle.std.specs.Fmt.{decimal};
ghost use Rattle.cli_picture.specs.Scale.{y_of};
ghost use Rattle.cli_picture.specs.Texts.{Draws, frame_text, kind_text, number_text, order_text, words_class};
ghost use Rattle.cli_picture.specs.Texts.{begin_text, line_at, words_text, words_to};
ghost use Rattle.text_script.specs.Print.Rows.{name_at};

use crate::run::{Event, Kind, Run};
use crate::scale::{LEFT, RIGHT, Scale};
use crate::ticks::draw_time;
use rbc_line::Line;
use std::alloc::{AllocError, Global};
use text_script::print::name_of;
use text_words::name_of_number;

// The most letters of centres' names beside an event.
const MOST_NAMES: usize = 10;

// The left end of descriptions beside numbers, and beside times.
const WORDS: u64 = 52;

const WORDS_OF_TIME: u64 = 64;

// The right end of the numbers.
const NUMBERS: u64 = 44;

pub fn draw_events(
    alloc: Global,
    svg: &mut String,
    scale: &Scale<'_>,
    run: &Run<'_>,
) -> Result<(), AllocError> {
    match &run.axis {
        Some(axis) => draw_time(alloc, svg, scale, run, axis),
        None => draw_numbered(svg, scale, run),
    }
}

fn draw_numbered(svg: &mut String, scale: &Scale<'_>, run: &Run<'_>) -> Result<(), AllocError> {
    let stride = scale.stride();
    for (e, event) in run.events.iter().enumerate() {
        let number = run.number(e);
        if number.checked_rem(stride) == Some(0) {
            draw_number(svg, scale, e, number)?;
            draw_words(svg, scale, e, event)?;
        }
    }
    Ok(())
}

/// Draws the number of an event, from 1, and a line through all tracks.
fn draw_number(
    svg: &mut String,
    scale: &Scale<'_>,
    e: usize,
    number: usize,
) -> Result<(), AllocError>
    ensures { OnOk result (Draws svg.old svg.new (number_text (y_of scale.now e) number)) }
{
    let y = scale.y(e);
    draw_line(svg, y)?;
    draw_words_to(svg, NUMBERS, y.saturating_add(4), number)
}

/// Draws a line through all tracks.
pub fn draw_line(svg: &mut String, y: u64) -> Result<(), AllocError>
    ensures { OnOk result (Draws svg.old svg.new (line_at y)) }
{
    writeln!(svg, "<path class=\"event\" d=\"M{LEFT} {y}H{RIGHT}\"/>")
}

/// Writes small words that end at a place.
fn draw_words_to(svg: &mut String, x: u64, y: u64, number: usize) -> Result<(), AllocError>
    ensures { OnOk result (Draws svg.old svg.new (words_to x y (decimal number))) }
{
    writeln!(
        svg,
        "<text x=\"{x}\" y=\"{y}\" class=\"small\" text-anchor=\"end\">{number}</text>"
    )
}

/// Draws the description of an event. It is pale if the event has no answer.
pub fn draw_words(
    svg: &mut String,
    scale: &Scale<'_>,
    e: usize,
    event: &Event,
) -> Result<(), AllocError>
    ensures { OnOk result (Draws svg.old svg.new (words_text scale.now e event.now)) }
{
    let x = if scale.axis.is_some() {
        WORDS_OF_TIME
    } else {
        WORDS
    };
    let y = scale.y(e).saturating_add(4);
    begin_text(svg, x, y, words_class(event.is_silent))?;
    draw_kind(svg, scale.line, event.kind)?;
    writeln!(svg, "</text>")
}

// Begins words of this class at a place.
fn begin_text(svg: &mut String, x: u64, y: u64, class: &str) -> Result<(), AllocError>
    ensures { OnOk result (Draws svg.old svg.new (begin_text x y class.now)) }
{
    write!(svg, "<text x=\"{x}\" y=\"{y}\" class=\"{class}\">")
}

// The class of a description.
fn words_class(is_silent: bool) -> &'static str
    ensures { result.now ≡ words_class is_silent }
{
    if is_silent { "small silent" } else { "small" }
}

fn draw_kind(svg: &mut String, line: &Line, kind: Kind) -> Result<(), AllocError>
    ensures { OnOk result (Draws svg.old svg.new (kind_text line.now kind)) }
{
    match kind {
        Kind::Set { centre, section } => draw_order(svg, line, centre, "set", section),
        Kind::Unset { centre, section } => draw_order(svg, line, centre, "unset", section),
        Kind::Delivery { from, to, number } => draw_frame(svg, line, from, to, number),
        Kind::NoMessage => svg.push_str("no message"),
        Kind::Message { number, nid_engine } => {
            let name = name_of_number(number);
            write!(svg, "{number} of train {nid_engine}<title>{name}</title>")
        }
        Kind::Beginning => Ok(()),
    }
}

/// Draws an order of the interlocking to a centre. A long name is shown to a reader who points.
fn draw_order(
    svg: &mut String,
    line: &Line,
    centre: u8,
    word: &str,
    section: u16,
) -> Result<(), AllocError>
    ensures { OnOk result (Draws svg.old svg.new (order_text (name_at line.now centre) word.now section)) }
{
    let name = name_of(line, centre);
    if name.len() <= MOST_NAMES {
        write!(svg, "{name} {word} {section}")
    } else {
        write!(svg, "{word} {section}<title>{name}</title>")
    }
}

/// Draws a frame from a centre to another one. Long names are shown to a reader who points.
fn draw_frame(
    svg: &mut String,
    line: &Line,
    from: u8,
    to: u8,
    number: u32,
) -> Result<(), AllocError>
    ensures { OnOk result (Draws svg.old svg.new (frame_text (name_at line.now from) (name_at line.now to) number)) }
{
    let from = name_of(line, from);
    let to = name_of(line, to);
    if from.len().saturating_add(to.len()) <= MOST_NAMES {
        write!(svg, "{from}→{to} frame {number}")
    } else {
        write!(svg, "frame {number}<title>{from}→{to}</title>")
    }
}
