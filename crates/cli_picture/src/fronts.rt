//! Draws the safe fronts that trains reported, and their places down to the safe rear end.

ghost use Rattle.std.specs.Prelude.{◌≡◌, ◌&&◌, IfSome, is_some, None, not, OnOk, option_map, Some};
ghost use Rattle.cli_picture.specs.Fronts.{band_text, goes_on, step_text};
ghost use Rattle.cli_picture.specs.Scale.{front_of, rear_of, y_of};
ghost use Rattle.cli_picture.specs.Texts.{Draws};

use crate::run::Run;
use crate::scale::Scale;
use crate::style::{colour_of, dashes_of};
use rbc_place::Place;
use std::alloc::{AllocError, Global};
use text_script::MissionView;

/// The place of a train's front in an event, and whether a mission begins there.
#[derive(Clone, Copy)]
struct Front {
    place: Place,
    event: usize,
    is_start: bool,
}

/// Draws the fronts of each train as one path, which begins again at each mission. A band is drawn at each front whose
/// safe rear end is known, from the rear end to the front.
pub fn draw_fronts(
    alloc: Global,
    svg: &mut String,
    scale: &Scale<'_>,
    run: &Run<'_>,
) -> Result<(), AllocError> {
    for train in 0..run.line.train_count() {
        let fronts = fronts_of(alloc, run, train)?;
        if run.wants(train) && !fronts.is_empty() {
            let colour = colour_of(train);
            let dashes = dashes_of(train);
            draw_bands(svg, scale, colour, &fronts)?;
            write!(svg, "<path class=\"front c{colour} d{dashes}\" d=\"")?;
            draw_path(svg, scale, &fronts)?;
            writeln!(svg, "\"/>")?;
        }
    }
    Ok(())
}

fn fronts_of(alloc: Global, run: &Run<'_>, train: u8) -> Result<Vec<Front>, AllocError> {
    let mut fronts = Vec::new(alloc);
    for event in 0..run.events.len() {
        if let Some(front) = front_in(run, event, train) {
            fronts.push(front)?;
        }
    }
    Ok(fronts)
}

/// The reported place of a train in an event, or else its new place in the line's state.
fn front_in(run: &Run<'_>, event: usize, train: u8) -> Option<Front> {
    let (before, after) = run.missions(event, train);
    let place = match run.report(event, train) {
        Some(place) => place,
        None => new_place(before, after)?,
    };
    let is_start = is_start(before, after);
    Some(Front {
        place,
        event,
        is_start,
    })
}

/// The place of a mission, unless it had that place before.
fn new_place(before: Option<MissionView>, after: Option<MissionView>) -> Option<Place>
    ensures place { IfSome result (λ place. option_map (λ m. m.facts.place) after ≡ Some place) }
    ensures begins { before ≡ None → result ≡ option_map (λ m. m.facts.place) after }
{
    let place = after?.facts.place;
    match before {
        Some(mission) if mission.facts.place == place => None,
        _ => Some(place),
    }
}

/// Whether a mission begins.
fn is_start(before: Option<MissionView>, after: Option<MissionView>) -> bool
    ensures { result ≡ (not (is_some before) && is_some after) }
{
    before.is_none() && after.is_some()
}

/// Whether the last front of a train up to an event is at another place than this one.
pub fn has_left(run: &Run<'_>, event: usize, train: u8, place: &Place) -> bool {
    for back in 0..=event {
        if let Some(front) = front_in(run, event.saturating_sub(back), train) {
            return front.place != *place;
        }
    }
    false
}

// Draws the bands of a train as one path. There is none if no rear end is known.
fn draw_bands(
    svg: &mut String,
    scale: &Scale<'_>,
    colour: u8,
    fronts: &[Front],
) -> Result<(), AllocError> {
    if !fronts.iter().any(|front| front.place.rear.is_some()) {
        return Ok(());
    }
    write!(svg, "<path class=\"band c{colour}\" d=\"")?;
    for front in fronts.iter().filter(|front| front.place.rear.is_some()) {
        draw_band(svg, scale, front)?;
    }
    writeln!(svg, "\"/>")
}

// Draws the band from the safe rear end of a train to its front.
fn draw_band(svg: &mut String, scale: &Scale<'_>, front: &Front) -> Result<(), AllocError>
    ensures { OnOk result (Draws svg.old svg.new (band_text
        (rear_of scale.now.line.now front.now.place front.now.place.rear) (y_of scale.now front.now.event)
        (front_of scale.now.line.now front.now.place))) }
{
    let rear = scale.rear(&front.place);
    let y = scale.y(front.event);
    let x = scale.front(&front.place);
    write!(svg, "M{rear} {y}H{x}")
}

fn draw_path(svg: &mut String, scale: &Scale<'_>, fronts: &[Front]) -> Result<(), AllocError> {
    let mut track = None;
    for front in fronts {
        draw_step(svg, scale, track, front)?;
        track = Some(front.place.track);
    }
    Ok(())
}

// Draws a line to a front. A new line begins at the start of a mission, and on another track than that of the front
// before.
fn draw_step(
    svg: &mut String,
    scale: &Scale<'_>,
    track: Option<u8>,
    front: &Front,
) -> Result<(), AllocError>
    ensures { OnOk result (Draws svg.old svg.new (step_text (goes_on front.now track)
        (front_of scale.now.line.now front.now.place) (y_of scale.now front.now.event))) }
{
    let step = if goes_on(front, track) { "L" } else { "M" };
    let x = scale.front(&front.place);
    let y = scale.y(front.event);
    write!(svg, "{step}{x} {y}")
}

fn goes_on(front: &Front, track: Option<u8>) -> bool
    ensures { result ≡ goes_on front.now track }
{
    match track {
        Some(track) => !front.is_start && track == front.place.track,
        None => false,
    }
}
