//! Replays a print.

ghost use Rattle.std.specs.Prelude.{◌≡◌, IfOk, is_some, nat_lt};
ghost use Rattle.cli_picture.specs.Time.{after_place, first_place};

use crate::heard::event_of;
use crate::run::{Event, Kind, Run};
use crate::time::{TimeAxis, TimePart};
use rbc_line::Line;
use std::alloc::{AllocError, Global};
use text_replay::{Cut, SectionChanges, Turns, events_in, train_in};
use text_script::status::Fault;
use text_script::{Answer, LineView, World, WorldEvent};

/// Plays the events of a print, up to the last that is drawn.
pub fn played<'a>(
    alloc: Global,
    line: &'a Line,
    printed: &str,
    cut: Cut,
) -> Result<Run<'a>, Fault<'static>> {
    let only = train_in(line, cut.train)?;
    let events = events_in(alloc, line, printed)?;
    let (first, after) = cut
        .places(events.len())
        .ok_or(Fault::NoEvents(events.len()))?;
    let drawn = Drawn {
        first,
        after,
        only,
        axis: None,
    };
    run_of(alloc, line, &events, drawn)
}

/// Plays the events of a print, up to the last of a part. None if the part has no event.
pub fn played_over_time<'a>(
    alloc: Global,
    line: &'a Line,
    printed: &str,
    part: &TimePart<'a>,
) -> Result<Option<Run<'a>>, Fault<'static>>
    ensures { IfOk result (λ run. is_some run ≡ nat_lt (first_place part.now) (after_place part.now)) }
{
    let only = train_in(line, part.train)?;
    let Some((first, after)) = part.places() else {
        return Ok(None);
    };
    let drawn = Drawn {
        first,
        after,
        only,
        axis: Some(TimeAxis::new(part, first, after)),
    };
    let events = events_in(alloc, line, printed)?;
    Ok(Some(run_of(alloc, line, &events, drawn)?))
}

/// The drawn part of a run.
#[derive(Clone, Copy)]
struct Drawn<'a> {
    /// The places of the first event that is drawn, and of the one after the last.
    first: usize,
    after: usize,
    /// The only drawn train, if one is named, by its place in the line file.
    only: Option<u8>,
    /// The axis, if it is time.
    axis: Option<TimeAxis<'a>>,
}

// Plays the events up to the last that is drawn.
fn run_of<'a>(
    alloc: Global,
    line: &'a Line,
    events: &[WorldEvent],
    drawn: Drawn<'a>,
) -> Result<Run<'a>, Fault<'static>> {
    let mut world = world_at(alloc, line, events, drawn.first)?;
    run_from(alloc, line, &mut world, events, drawn)
}

// The run from the current state of the centres.
fn run_from<'a>(
    alloc: Global,
    line: &'a Line,
    world: &mut World,
    events: &[WorldEvent],
    drawn: Drawn<'a>,
) -> Result<Run<'a>, Fault<'static>> {
    let trains = usize::from(line.train_count());
    let sessions = trains.saturating_mul(line.centre_count().into());
    let mut run = Run {
        line,
        event_count: events.len(),
        skipped: drawn.first,
        only: drawn.only,
        axis: drawn.axis,
        events: Vec::new(alloc),
        before: world.view(alloc)?,
        sections: SectionChanges::new(alloc, line)?,
        missions: Turns::new(alloc, trains)?,
        waits: Turns::new(alloc, sessions)?,
    };
    play(alloc, world, events, drawn.after, &mut run)?;
    Ok(run)
}

// The centres of the line before the first event that is drawn.
fn world_at(
    alloc: Global,
    line: &Line,
    events: &[WorldEvent],
    first: usize,
) -> Result<World, Fault<'static>> {
    let mut world = World::new(alloc, line)?;
    pass(&mut world, events, first)?;
    Ok(world)
}

fn pass(world: &mut World, events: &[WorldEvent], first: usize) -> Result<(), Fault<'static>> {
    let mut answer = Answer::nothing();
    for event in events.iter().take(first) {
        world.step_to(event, &mut answer)?;
    }
    Ok(())
}

// Plays the drawn events, and describes each by its answer.
fn play(
    alloc: Global,
    world: &mut World,
    events: &[WorldEvent],
    after: usize,
    run: &mut Run<'_>,
) -> Result<(), Fault<'static>> {
    note_beginning(alloc, world, run)?;
    let mut answer = Answer::nothing();
    for event in events.iter().take(after).skip(run.skipped) {
        world.step_to(event, &mut answer)?;
        let what = event_of(alloc, run.line, event, &answer)?;
        note(run, &world.view(alloc)?)?;
        run.events.push(what)?;
    }
    Ok(())
}

// Notes the line at the beginning of an axis of time, which is its event 0.
fn note_beginning(alloc: Global, world: &World, run: &mut Run<'_>) -> Result<(), AllocError> {
    if run.axis.is_none() {
        return Ok(());
    }
    note(run, &world.view(alloc)?)?;
    run.events.push(Event {
        kind: Kind::Beginning,
        is_silent: false,
        report: None,
        border: None,
    })?;
    Ok(())
}

// Notes the line after the next drawn event.
fn note(run: &mut Run<'_>, view: &LineView) -> Result<(), AllocError> {
    let event = run.events.len();
    run.sections.note(event, view)?;
    for (train, seen) in view.trains.iter().enumerate() {
        run.missions.note(train, event, seen.mission)?;
        let first = train.saturating_mul(seen.sessions.len());
        for (centre, session) in seen.sessions.iter().enumerate() {
            let number = first.saturating_add(centre);
            run.waits.note(number, event, session.waiting)?;
        }
    }
    Ok(())
}
