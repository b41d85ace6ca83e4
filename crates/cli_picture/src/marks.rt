//! Draws the requests to a train, and their results, as signs.

ghost use Rattle.std.specs.Prelude.{◌≡◌, ◌/◌, OnOk};
ghost use Rattle.cli_picture.specs.Missions.{answer_of, end_of, end_place, goes_on, is_dropped, is_same, last_kept_in};
ghost use Rattle.cli_picture.specs.Missions.{shape_of};
ghost use Rattle.cli_picture.specs.Requests.{answered_text, asked_text, cut_of, end_point, end_text, request_text};
ghost use Rattle.cli_picture.specs.Requests.{requests_text, sign_of};
ghost use Rattle.cli_picture.specs.Texts.{Draws};

use crate::run::{Run, track_of};
use crate::scale::Scale;
use crate::style::colour_of;
use rbc_line::Line;
use rbc_place::{Place, section_end};
use std::alloc::AllocError;
use text_script::MissionView;

#[derive(Clone, Copy)]
pub enum Sign {
    /// Message 9: the train is asked to end its authority earlier.
    Asked,
    /// Message 137: the train accepts the request.
    Granted,
    /// The request ends without acceptance.
    Dropped,
    /// Message 24 with packet 131: the train is ordered to change to the next centre.
    Handover,
    /// The train's mission ends.
    Ended,
}

/// The class of a sign, and its path from the point that it marks.
pub fn shape_of(sign: Sign) -> (&'static str, &'static str)
    ensures { shape_of sign ≡ (result.0.now, result.1.now) }
{
    match sign {
        Sign::Asked => ("sign hollow", "l-6 -10h12z"),
        Sign::Granted => ("sign", "l-6 -10h12z"),
        Sign::Dropped => ("sign hollow", "m-5 -5l10 10m0 -10l-10 10"),
        Sign::Handover => ("sign hollow", "m0 -7l7 7l-7 7l-7 -7z"),
        Sign::Ended => ("sign", "m-4 -4h8v8h-8z"),
    }
}

/// A point of a track, in metres from its start, and the event of the drawing.
#[derive(Clone, Copy)]
struct Point {
    train: u8,
    event: usize,
    track: u8,
    metres: u32,
}

pub fn draw_marks(svg: &mut String, scale: &Scale<'_>, run: &Run<'_>) -> Result<(), AllocError> {
    for (event, what) in run.events.iter().enumerate() {
        for train in 0..run.line.train_count() {
            if run.wants(train) {
                draw_train(svg, scale, run, event, train)?;
            }
        }
        if let Some(border) = what.border {
            if run.wants(border.train) {
                let point = Point {
                    train: border.train,
                    event,
                    track: border.track,
                    metres: border.metres,
                };
                draw_sign(svg, scale, Sign::Handover, point)?;
            }
        }
    }
    Ok(())
}

/// Draws the requests to a train, and the end of its mission.
fn draw_train(
    svg: &mut String,
    scale: &Scale<'_>,
    run: &Run<'_>,
    event: usize,
    train: u8,
) -> Result<(), AllocError> {
    let (before, after) = run.missions(event, train);
    draw_requests(svg, scale, before, after, (train, event))?;
    let end = end_place(before, after, run.report(event, train));
    draw_end(svg, scale, end, (train, event))
}

/// Draws the request to shorten that ends in an event, and the one that begins in it. `at` has the train and the event.
fn draw_requests(
    svg: &mut String,
    scale: &Scale<'_>,
    before: Option<MissionView>,
    after: Option<MissionView>,
    at: (u8, usize),
) -> Result<(), AllocError>
    ensures { OnOk result (Draws svg.old svg.new (requests_text scale.now before after at.0 at.1)) }
{
    if is_same(last_kept_in(before), last_kept_in(after)) {
        return Ok(());
    }
    draw_answered(svg, scale, before, after, at)?;
    draw_asked(svg, scale, after, at)
}

/// Whether a request is the same as another one, or neither is there.
fn is_same(request: Option<(u32, u16)>, other: Option<(u32, u16)>) -> bool
    ensures { result ≡ is_same request other }
{
    match (request, other) {
        (Some(request), Some(other)) => request.0 == other.0 && request.1 == other.1,
        (None, None) => true,
        _ => false,
    }
}

/// Draws the end of the request that was pending before. `at` has the train and the event.
fn draw_answered(
    svg: &mut String,
    scale: &Scale<'_>,
    before: Option<MissionView>,
    after: Option<MissionView>,
    at: (u8, usize),
) -> Result<(), AllocError>
    ensures { OnOk result (Draws svg.old svg.new (answered_text scale.now before after at.0 at.1)) }
{
    let Some((_, last_kept)) = last_kept_in(before) else {
        return Ok(());
    };
    let point = end_point(scale.line, last_kept, at);
    draw_request(svg, scale, answer_of(before, after), point, end_of(before))
}

/// Draws the request that is pending now. `at` has the train and the event.
fn draw_asked(
    svg: &mut String,
    scale: &Scale<'_>,
    after: Option<MissionView>,
    at: (u8, usize),
) -> Result<(), AllocError>
    ensures { OnOk result (Draws svg.old svg.new (asked_text scale.now after at.0 at.1)) }
{
    let Some((_, last_kept)) = last_kept_in(after) else {
        return Ok(());
    };
    let point = end_point(scale.line, last_kept, at);
    draw_request(svg, scale, Sign::Asked, point, end_of(after))
}

/// The end of a section, as a point of a train in an event.
fn end_point(line: &Line, section: u16, at: (u8, usize)) -> Point
    ensures { result ≡ end_point line.now section at.0 at.1 }
{
    Point {
        train: at.0,
        event: at.1,
        track: track_of(line, section),
        metres: section_end(line, section.into()),
    }
}

/// The sign of the end of a request: the train accepts it if its authority ends earlier from then on.
fn answer_of(before: Option<MissionView>, after: Option<MissionView>) -> Sign
    ensures { result ≡ answer_of before after }
{
    if end_of(after) < end_of(before) {
        Sign::Granted
    } else {
        Sign::Dropped
    }
}

/// The pending request: its stamp, and the last section to keep.
fn last_kept_in(mission: Option<MissionView>) -> Option<(u32, u16)>
    ensures { result ≡ last_kept_in mission }
{
    let proposal = mission?.facts.proposal?;
    Some((proposal.stamp, proposal.last_kept))
}

/// The number of the section in advance of a hand: the end of a train's authority. The end of a train without a
/// mission is the highest number.
fn end_of(mission: Option<MissionView>) -> u32
    ensures { result ≡ end_of mission }
{
    match mission {
        Some(mission) => mission.hand.next_after(),
        None => u32::MAX,
    }
}

/// Draws a sign at the proposed end, and a line to it from the authority's end unless the request is dropped. The
/// authority ends before section `end`.
fn draw_request(
    svg: &mut String,
    scale: &Scale<'_>,
    sign: Sign,
    point: Point,
    end: u32,
) -> Result<(), AllocError>
    ensures { OnOk result (Draws svg.old svg.new (request_text scale.now sign point end)) }
{
    if is_dropped(sign) {
        return draw_sign(svg, scale, sign, point);
    }
    draw_cut(svg, scale, point, end)?;
    draw_sign(svg, scale, sign, point)
}

fn is_dropped(sign: Sign) -> bool
    ensures { result ≡ is_dropped sign }
{
    matches!(sign, Sign::Dropped)
}

/// Draws a line to a point from the end of the authority of its train, which ends before section `end`.
fn draw_cut(svg: &mut String, scale: &Scale<'_>, point: Point, end: u32) -> Result<(), AllocError>
    ensures { OnOk result (Draws svg.old svg.new (cut_of scale.now point end)) }
{
    let colour = colour_of(point.train);
    let x = scale.x(point.track, point.metres);
    let y = scale.y(point.event);
    let last = end.saturating_sub(1);
    let reach = scale.x(point.track, section_end(scale.line, last));
    writeln!(
        svg,
        "<path class=\"cut c{colour}\" d=\"M{reach} {y}H{x}\"/>"
    )
}

/// Draws a square at the end of a train's mission, if it ends. `at` has the train and the event.
fn draw_end(
    svg: &mut String,
    scale: &Scale<'_>,
    end: Option<Place>,
    at: (u8, usize),
) -> Result<(), AllocError>
    ensures { OnOk result (Draws svg.old svg.new (end_text scale.now end at.0 at.1)) }
{
    match end {
        Some(place) => draw_sign(svg, scale, Sign::Ended, point_of(at.0, at.1, &place)),
        None => Ok(()),
    }
}

/// The place at which a mission ends: the reported one, or else that of the mission before.
fn end_place(
    before: Option<MissionView>,
    after: Option<MissionView>,
    reported: Option<Place>,
) -> Option<Place>
    ensures { result ≡ end_place before after reported }
{
    let mission = before?;
    if mission.facts.is_ended || goes_on(after) {
        None
    } else {
        Some(reported.unwrap_or(mission.facts.place))
    }
}

fn goes_on(mission: Option<MissionView>) -> bool
    ensures { result ≡ goes_on mission }
{
    match mission {
        Some(mission) => !mission.facts.is_ended,
        None => false,
    }
}

fn point_of(train: u8, event: usize, place: &Place) -> Point
    ensures { result
        ≡ record { train = train; event = event; track = place.now.track; metres = place.now.front / 10 } }
{
    Point {
        train,
        event,
        track: place.track,
        metres: place.front / 10,
    }
}

fn draw_sign(
    svg: &mut String,
    scale: &Scale<'_>,
    sign: Sign,
    point: Point,
) -> Result<(), AllocError>
    ensures { OnOk result (Draws svg.old svg.new (sign_of scale.now sign point)) }
{
    let colour = colour_of(point.train);
    let x = scale.x(point.track, point.metres);
    let y = scale.y(point.event);
    let (class, path) = shape_of(sign);
    writeln!(
        svg,
        "<path class=\"{class} c{colour}\" d=\"M{x} {y}{path}\"/>"
    )
}
