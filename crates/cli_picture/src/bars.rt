//! Draws the sections of trains, and the trains' numbers at the start of their missions.

ghost use Rattle.std.specs.Prelude.{[], ◌≡◌, ◌++◌, codes, if◌then◌else◌, is_some, IfSome, List, OnOk, option_map, ℕ};
ghost use Rattle.cli_picture.specs.Bars.{box_of, name_text, number_of, range_text, start_text, wish_class};
ghost use Rattle.std.specs.Prelude.{length, nat_lt, None, Some};
ghost use Rattle.cli_picture.specs.Looks.{use_of};
ghost use Rattle.cli_picture.specs.Texts.{Draws};

use crate::run::{Run, nid_engine_of, track_of};
use crate::scale::Scale;
use crate::style::{colour_of, dashes_of};
use crate::time::TimeAxis;
use rbc_place::{section_end, section_start};
use std::alloc::{AllocError, Global};
use text_page::Utc;
use text_replay::Stretch;
use text_script::{Mark, MissionView};

pub fn draw_bars(
    alloc: Global,
    svg: &mut String,
    scale: &Scale<'_>,
    run: &Run<'_>,
) -> Result<(), AllocError> {
    for section in 0..run.line.section_count() {
        for stretch in run.sections.stretches(alloc, section, run.events.len())? {
            draw_stretch(svg, scale, run, section, &stretch)?;
        }
    }
    for train in 0..run.line.train_count() {
        if run.wants(train) {
            draw_names(svg, scale, run, train)?;
        }
    }
    Ok(())
}

/// The look of a section's use, its description, and its train. `None` if the section is unused.
fn use_of(mark: Mark) -> Option<(&'static str, &'static str, u32)>
    ensures { use_of mark ≡ option_map {U = List ℕ × List ℕ × ℕ} (λ u. (u.0.now, u.1.now, u.2)) result }
{
    match mark {
        Mark::Given { nid_engine } => Some(("", "", nid_engine)),
        Mark::Kept { nid_engine } => Some((" kept", "kept for ", nid_engine)),
        Mark::Shut | Mark::Open => None,
    }
}

fn draw_stretch(
    svg: &mut String,
    scale: &Scale<'_>,
    run: &Run<'_>,
    section: u16,
    stretch: &Stretch,
) -> Result<(), AllocError> {
    let Some((look, words, nid_engine)) = use_of(stretch.seen.mark) else {
        return Ok(());
    };
    match run.line.train_number(nid_engine) {
        Some(train) if run.wants(train) => {
            let wish = wish_class(stretch.seen.is_wished);
            let colour = colour_of(train);
            let dashes = dashes_of(train);
            write!(svg, "<rect class=\"bar{look}{wish} c{colour} d{dashes}\"")?;
            draw_box(svg, scale, section, stretch)?;
            write!(svg, "<title>{words}train {nid_engine}, section {section}")?;
            draw_ends(svg, run, stretch)?;
            writeln!(svg, "</title></rect>")
        }
        _ => Ok(()),
    }
}

// The class of a section that is wished back.
fn wish_class(is_wished: bool) -> &'static str
    ensures { result.now ≡ wish_class is_wished }
{
    if is_wished { " wished" } else { "" }
}

fn draw_box(
    svg: &mut String,
    scale: &Scale<'_>,
    section: u16,
    stretch: &Stretch,
) -> Result<(), AllocError>
    ensures { OnOk result (Draws svg.old svg.new (box_of scale.now section stretch.now.since stretch.now.until)) }
{
    let track = track_of(scale.line, section);
    let x = scale.x(track, section_start(scale.line, section));
    let right = scale.x(track, section_end(scale.line, section.into()));
    let width = right.saturating_sub(x).saturating_sub(1).max(1);
    let y = scale.y(stretch.since);
    let height = scale.until(stretch.until).saturating_sub(y).max(1);
    write!(
        svg,
        " x=\"{x}\" y=\"{y}\" width=\"{width}\" height=\"{height}\">"
    )
}

/// Writes whether a section is wished back, and the events in which the stretch begins and ends, or their times.
fn draw_ends(svg: &mut String, run: &Run<'_>, stretch: &Stretch) -> Result<(), AllocError> {
    if stretch.seen.is_wished {
        svg.push_str(", wished back")?;
    }
    match &run.axis {
        Some(axis) => draw_times(svg, run, axis, stretch),
        None => draw_numbers(svg, run, stretch),
    }
}

fn draw_times(
    svg: &mut String,
    run: &Run<'_>,
    axis: &TimeAxis<'_>,
    stretch: &Stretch,
) -> Result<(), AllocError> {
    let since = Utc(axis.time_ms(stretch.since));
    write!(svg, ", from {since}")?;
    if stretch.until < run.events.len() {
        let until = Utc(axis.time_ms(stretch.until));
        write!(svg, " to {until}")?;
    }
    Ok(())
}

fn draw_numbers(svg: &mut String, run: &Run<'_>, stretch: &Stretch) -> Result<(), AllocError> {
    let (since, until) = numbers_of(run, stretch);
    draw_range(svg, since, until)
}

/// The numbers of the events in which a stretch begins and ends. It has no end if it lasts to the last drawn event.
fn numbers_of(run: &Run<'_>, stretch: &Stretch) -> (usize, Option<usize>)
    ensures since { result.0 ≡ number_of run.now stretch.now.since }
    ensures until { result.1 ≡ (if nat_lt stretch.now.until (length run.now.events.items)
        then Some (number_of run.now stretch.now.until) else None) }
{
    let since = run.number(stretch.since);
    if run.has(stretch.until) {
        (since, Some(run.number(stretch.until)))
    } else {
        (since, None)
    }
}

fn draw_range(svg: &mut String, since: usize, until: Option<usize>) -> Result<(), AllocError>
    ensures { OnOk result (Draws svg.old svg.new (range_text since until)) }
{
    match until {
        Some(until) => write!(svg, ", from event {since} to {until}"),
        None => write!(svg, ", from event {since}"),
    }
}

/// Draws the number of a train at the start of its authority when its mission begins. The first drawn event has the
/// number of each train with a mission.
fn draw_names(
    svg: &mut String,
    scale: &Scale<'_>,
    run: &Run<'_>,
    train: u8,
) -> Result<(), AllocError> {
    for e in 0..run.events.len() {
        let (before, after) = run.missions(e, train);
        draw_start(svg, scale, before, after, (train, e))?;
    }
    Ok(())
}

/// Draws the number of a train if its mission begins in an event, or goes on in the first drawn event. `at` has the
/// train and the event.
fn draw_start(
    svg: &mut String,
    scale: &Scale<'_>,
    before: Option<MissionView>,
    after: Option<MissionView>,
    at: (u8, usize),
) -> Result<(), AllocError>
    ensures { OnOk result (Draws svg.old svg.new (start_text scale.now before after at.0 at.1)) }
{
    match after {
        Some(mission) if at.1 == 0 || before.is_none() => {
            draw_name(svg, scale, at.0, mission.hand.first, at.1)
        }
        _ => Ok(()),
    }
}

// Draws the number of a train at the start of a section, below the place of an event.
fn draw_name(
    svg: &mut String,
    scale: &Scale<'_>,
    train: u8,
    section: u16,
    event: usize,
) -> Result<(), AllocError>
    ensures { OnOk result (Draws svg.old svg.new (name_text scale.now train section event)) }
{
    let colour = colour_of(train);
    let nid_engine = nid_engine_of(scale.line, train);
    let track = track_of(scale.line, section);
    let start = scale.x(track, section_start(scale.line, section));
    let x = start.saturating_add(4);
    let y = scale.y(event).saturating_add(13);
    writeln!(
        svg,
        "<text class=\"name c{colour}\" x=\"{x}\" y=\"{y}\">{nid_engine}</text>"
    )
}
