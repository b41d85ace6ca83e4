//! Draws the line: its tracks, sections, homes, and the borders between them.

ghost use Rattle.std.specs.Prelude.{◌≡◌, ◌==◌, if◌then◌else◌, length, None, OnOk, option_and_then, option_map, Some};
ghost use Rattle.std.specs.Prelude.{codes, slice_get, unwrap_or};
ghost use Rattle.rbc_line.specs.Views.{placed_section};
ghost use Rattle.cli_picture.specs.Scale.{below, height};
ghost use Rattle.cli_picture.specs.Homes.{home_text, homes_text, longer, stretch_of, track_head};
ghost use Rattle.cli_picture.specs.Texts.{all_below, centre_text, down_line, Draws, home_box, small_number, tint_of};
ghost use Rattle.cli_picture.specs.Texts.{track_text};

use crate::legend::draw_words;
use crate::scale::Scale;
use rbc_line::{Line, Section};
use rbc_place::{section_end, track_end};
use std::alloc::AllocError;
use text_script::print::name_of;

// The least distances of section numbers, of metres, and of lines between sections.
const NUMBER_ROOM: u64 = 26;

const METRES_ROOM: u64 = 46;

const LINE_ROOM: u64 = 4;

// The left end of the units.
const UNITS: u64 = 20;

/// Draws the stretch of each home on each track, tinted in turn, with the names of the track and the home above it.
pub fn draw_homes(svg: &mut String, scale: &Scale<'_>, axis: u64) -> Result<(), AllocError>
    ensures { OnOk result (Draws svg.old svg.new (all_below (homes_text scale.now axis)
        (length scale.now.line.now.tracks))) }
{
    for track in 0..scale.line.track_count() {
        draw_track(svg, scale, track, 0, axis)?;
        draw_homes_on(svg, scale, track, axis)?;
    }
    Ok(())
}

fn draw_homes_on(
    svg: &mut String,
    scale: &Scale<'_>,
    track: u8,
    axis: u64,
) -> Result<(), AllocError>
    ensures { OnOk result (Draws svg.old svg.new (all_below (home_text scale.now axis track)
        (length scale.now.line.now.centres))) }
{
    for home in 0..scale.line.centre_count() {
        draw_home(svg, scale, track, home, axis)?;
    }
    Ok(())
}

/// Writes the name of a track above the point at this many metres.
fn draw_track(
    svg: &mut String,
    scale: &Scale<'_>,
    track: u8,
    metres: u32,
    axis: u64,
) -> Result<(), AllocError>
    ensures { OnOk result (Draws svg.old svg.new (track_head scale.now axis track metres)) }
{
    let name = track_name(scale.line, track);
    let x = scale.x(track, metres);
    write_track(svg, name, x, axis.saturating_add(14))
}

fn write_track(svg: &mut String, name: &str, x: u64, y: u64) -> Result<(), AllocError>
    ensures { OnOk result (Draws svg.old svg.new (track_text x y name.now)) }
{
    writeln!(
        svg,
        "<text x=\"{x}\" y=\"{y}\" font-weight=\"bold\">{name}</text>"
    )
}

fn track_name(line: &Line, track: u8) -> &str
    ensures { result.now ≡ unwrap_or (slice_get line.now.tracks track) (codes "?") }
{
    line.track_name(track).unwrap_or("?")
}

/// The sections of a home on a track are consecutive.
fn draw_home(
    svg: &mut String,
    scale: &Scale<'_>,
    track: u8,
    home: u8,
    axis: u64,
) -> Result<(), AllocError>
    ensures { OnOk result (Draws svg.old svg.new (home_text scale.now axis track home)) }
{
    let Some((start, end)) = stretch_of(scale.line, track, home) else {
        return Ok(());
    };
    let x = scale.x(track, start);
    let width = scale.x(track, end).saturating_sub(x);
    draw_home_box(svg, scale, home, x, width)?;
    let name = name_of(scale.line, home);
    let middle = x.saturating_add(width / 2);
    draw_centre(svg, name, middle, axis.saturating_add(34))
}

/// Draws the tinted box of a home, as high as all events.
fn draw_home_box(
    svg: &mut String,
    scale: &Scale<'_>,
    home: u8,
    x: u64,
    width: u64,
) -> Result<(), AllocError>
    ensures { OnOk result (Draws svg.old svg.new (home_box home x width scale.now.top (height scale.now))) }
{
    let top = scale.top;
    let height = scale.height();
    let class = tint_of(home);
    writeln!(
        svg,
        "<rect class=\"{class}\" x=\"{x}\" y=\"{top}\" width=\"{width}\" height=\"{height}\"/>"
    )
}

/// The class of the box of a home: the tints take turns.
fn tint_of(home: u8) -> &'static str
    ensures { result.now ≡ tint_of home }
{
    if home % 2 == 0 { "odd" } else { "even" }
}

/// Writes the name of a home above its stretch.
fn draw_centre(svg: &mut String, name: &str, x: u64, y: u64) -> Result<(), AllocError>
    ensures { OnOk result (Draws svg.old svg.new (centre_text name.now x y)) }
{
    writeln!(
        svg,
        "<text x=\"{x}\" y=\"{y}\" text-anchor=\"middle\">centre {name}</text>"
    )
}

/// The start and the end of a home's sections on a track, in metres.
fn stretch_of(line: &Line, track: u8, home: u8) -> Option<(u32, u32)>
    ensures { result ≡ stretch_of line.now track home (length line.now.sections) }
{
    let mut stretch = None;
    for s in 0..line.section_count() {
        stretch = longer(line, stretch, (track, home), s);
    }
    stretch
}

/// The stretch with one more section, if that is of the home and on the track. `of` has the track and the home.
fn longer(line: &Line, stretch: Option<(u32, u32)>, of: (u8, u8), s: u16) -> Option<(u32, u32)>
    ensures { result ≡ longer line.now of.0 of.1 stretch s }
{
    match line.section(s) {
        Some(section) if section.track == of.0 && section.home == of.1 => {
            let end = section_end(line, s.into());
            Some((start_of(stretch, section.start), end))
        }
        _ => stretch,
    }
}

/// The start of a stretch; of one that begins now, this start.
fn start_of(stretch: Option<(u32, u32)>, start: u32) -> u32
    ensures { result ≡ unwrap_or (option_map (λ s. s.0) stretch) start }
{
    match stretch {
        Some((start, _)) => start,
        None => start,
    }
}

/// Draws the sections of each track, as far as there is room: a line at the start of each, its number, and the metres.
/// It draws the borders too.
pub fn draw_grid(svg: &mut String, scale: &Scale<'_>, axis: u64) -> Result<(), AllocError> {
    draw_units(svg, axis)?;
    for track in 0..scale.line.track_count() {
        draw_numbers(svg, scale, track, axis)?;
        draw_metres(svg, scale, track, axis)?;
        draw_lines(svg, scale, track)?;
        draw_borders(svg, scale, track)?;
    }
    Ok(())
}

/// Writes the units of the numbers above the events.
fn draw_units(svg: &mut String, axis: u64) -> Result<(), AllocError> {
    draw_words(svg, UNITS, axis.saturating_add(52), "section")?;
    draw_words(svg, UNITS, axis.saturating_add(68), "metres")
}

fn draw_numbers(
    svg: &mut String,
    scale: &Scale<'_>,
    track: u8,
    axis: u64,
) -> Result<(), AllocError> {
    let y = axis.saturating_add(52);
    let mut next: u64 = 0;
    for s in 0..scale.line.section_count() {
        if let Some(section) = section_on(scale.line, track, s) {
            let x = scale.x(track, section.start);
            let end = scale.x(track, section_end(scale.line, s.into()));
            let middle = x.saturating_add(end) / 2;
            if middle >= next {
                draw_small(svg, middle, y, s.into())?;
                next = middle.saturating_add(NUMBER_ROOM);
            }
        }
    }
    Ok(())
}

fn draw_metres(
    svg: &mut String,
    scale: &Scale<'_>,
    track: u8,
    axis: u64,
) -> Result<(), AllocError> {
    let y = axis.saturating_add(68);
    let last = track_end(scale.line, track);
    let right = scale.x(track, last);
    let mut next: u64 = 0;
    for s in 0..scale.line.section_count() {
        if let Some(section) = section_on(scale.line, track, s) {
            let x = scale.x(track, section.start);
            if x >= next && x.saturating_add(METRES_ROOM) <= right {
                draw_small(svg, x, y, section.start)?;
                next = x.saturating_add(METRES_ROOM);
            }
        }
    }
    draw_small(svg, right, y, last)
}

/// Writes a section's number or its start in metres.
fn draw_small(svg: &mut String, x: u64, y: u64, number: u32) -> Result<(), AllocError>
    ensures { OnOk result (Draws svg.old svg.new (small_number x y number)) }
{
    writeln!(
        svg,
        "<text x=\"{x}\" y=\"{y}\" class=\"small\" text-anchor=\"middle\">{number}</text>"
    )
}

/// Draws a line at the start of each section that is far enough from the one before, and one at the track's end.
fn draw_lines(svg: &mut String, scale: &Scale<'_>, track: u8) -> Result<(), AllocError> {
    let mut next: u64 = 0;
    for s in 0..scale.line.section_count() {
        if let Some(section) = section_on(scale.line, track, s) {
            let x = scale.x(track, section.start);
            if x >= next {
                draw_down(svg, scale, "section", x)?;
                next = x.saturating_add(LINE_ROOM);
            }
        }
    }
    let x = scale.x(track, track_end(scale.line, track));
    draw_down(svg, scale, "section", x)
}

/// Draws a line of this class from the upper to the lower edge of the events.
fn draw_down(svg: &mut String, scale: &Scale<'_>, class: &str, x: u64) -> Result<(), AllocError>
    ensures { OnOk result (Draws svg.old svg.new (down_line class.now x scale.now.top
        (below scale.now (height scale.now)))) }
{
    let top = scale.top;
    let bottom = scale.bottom();
    writeln!(svg, "<path class=\"{class}\" d=\"M{x} {top}V{bottom}\"/>")
}

/// Draws a line at the start of a section if its home differs from that of the section before it.
fn draw_borders(svg: &mut String, scale: &Scale<'_>, track: u8) -> Result<(), AllocError> {
    let mut before = None;
    for s in 0..scale.line.section_count() {
        if let Some(section) = section_on(scale.line, track, s) {
            if before.is_some() && before != Some(section.home) {
                let x = scale.x(track, section.start);
                draw_down(svg, scale, "border", x)?;
            }
            before = Some(section.home);
        }
    }
    Ok(())
}

/// The section of this number, if it is on the track.
fn section_on(line: &Line, track: u8, number: u16) -> Option<Section>
    ensures { result ≡ option_and_then (λ p. if p.track == track then Some p else None)
        (placed_section line.now number) }
{
    match line.section(number) {
        Some(section) if section.track == track => Some(section),
        _ => None,
    }
}
